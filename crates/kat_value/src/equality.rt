//! Equality of values, which is equality at any one type.

ghost use Rattle.std.specs.Prelude.{◌≡◌, ◌↔◌, IsTrue};
ghost use Rattle.kat_value.specs.Equality.{value_eq, values_eq};

use crate::value::{Value, Values};

/// Whether two values are equal. Values of two types are not.
#[cycle(equality)]
pub fn same_value(a: &Value, b: &Value) -> bool
    ensures same { IsTrue result ↔ (a.now ≡ b.now) }
    ensures computed { result ≡ value_eq a.now b.now }
{
    match (a, b) {
        (Value::Unit, Value::Unit) => true,
        (Value::Bool(x), Value::Bool(y)) => *x == *y,
        (
            Value::Bits { width, number },
            Value::Bits {
                width: other_width,
                number: other_number,
            },
        ) => *width == *other_width && *number == *other_number,
        (
            Value::Member { of, index },
            Value::Member {
                of: other_of,
                index: other_index,
            },
        ) => *of == *other_of && *index == *other_index,
        (
            Value::Made { of, ctor, inner },
            Value::Made {
                of: other_of,
                ctor: other_ctor,
                inner: other,
            },
        ) => *of == *other_of && *ctor == *other_ctor && same_value(inner.get(), other.get()),
        (
            Value::Rec { of, fields },
            Value::Rec {
                of: other_of,
                fields: other_fields,
            },
        ) => *of == *other_of && same_values(fields, other_fields),
        _ => false,
    }
}

/// The same of lists of values.
#[cycle(equality)]
fn same_values(a: &Values, b: &Values) -> bool
    ensures same { IsTrue result ↔ (a.now ≡ b.now) }
    ensures computed { result ≡ values_eq a.now b.now }
{
    if a.len() != b.len() {
        return false;
    }
    for (x, y) in a.as_slice().iter().zip(b.as_slice()) {
        if !same_value(x, y) {
            return false;
        }
    }
    true
}

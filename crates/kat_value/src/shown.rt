//! What a value shows: its type, a truth or numbers.

ghost use Rattle.std.specs.Prelude.{◌≡◌, ◌==◌, ℕ, Bool, IfSome, Some, None, option_and_then, if◌then◌else◌};
ghost use Rattle.std.specs.Option.{option_map};
ghost use Rattle.kat_value.specs.declared.value.Value.{Value as AnyValue, out-Value};
ghost use Rattle.kat_value.specs.Numbers.{IsNumber, AreNumbers};
ghost use Rattle.kat_value.specs.Operations.{of_number, of_numbers, truth_in_layer, number_in_layer, can_be_chosen};
ghost use Rattle.kat_value.specs.Shown.{type_of_value};

use crate::types::Ty;
use crate::value::Value;
use crate::width::is_number;

/// The type that a value shows: it is of this type or of none.
pub fn type_of_value(value: &Value) -> Ty
    ensures { result ≡ type_of_value value.now }
{
    match value {
        Value::Unit => Ty::Unit,
        Value::Bool(_) => Ty::Bool,
        Value::Bits { width, .. } => Ty::Bits(*width),
        Value::Member { of, .. } => Ty::Enum(*of),
        Value::Made { of, .. } => Ty::Union(*of),
        Value::Rec { of, .. } => Ty::Rec(*of),
    }
}

/// The truth that a value is.
pub fn truth_in(value: &Value) -> Option<bool>
    ensures { result ≡ truth_in_layer (out-Value value.now) }
{
    match value {
        Value::Bool(truth) => Some(*truth),
        _ => None,
    }
}

/// A number of so many bits.
#[derive(Clone, Copy, Drop)]
pub struct Number {
    pub width: u32,
    pub number: u64,
}

/// The number that a value is.
pub fn number_in(value: &Value) -> Option<Number>
    ensures number { IfSome result (λ n. IsNumber n.width n.number) }
    ensures layer { option_map (λ n. (n.width, n.number)) result
        ≡ number_in_layer (out-Value value.now) }
    ensures operand { (takes : ℕ → Bool) (f : ℕ → ℕ → AnyValue) →
        of_number takes f (out-Value value.now)
        ≡ option_and_then (λ n. if takes n.width then Some (f n.width n.number) else None) result }
{
    match value {
        Value::Bits { width, number } if is_number(*width, *number) => Some(Number {
            width: *width,
            number: *number,
        }),
        _ => None,
    }
}

/// Two numbers of one width.
#[derive(Clone, Copy, Drop)]
pub struct Numbers {
    pub width: u32,
    pub first: u64,
    pub second: u64,
}

/// The numbers that two values are, where they are of one width.
pub fn numbers_in(a: &Value, b: &Value) -> Option<Numbers>
    ensures numbers { IfSome result (λ n. AreNumbers n.width n.first n.second) }
    ensures operands { (f : ℕ → ℕ → ℕ → AnyValue) →
        of_numbers f (out-Value a.now) (out-Value b.now)
        ≡ option_map (λ n. f n.width n.first n.second) result }
{
    match number_in(a) {
        Some(first) => match number_in(b) {
            Some(second) => of_one_width(first, second),
            None => None,
        },
        None => None,
    }
}

/// Two numbers, where they are of one width.
fn of_one_width(first: Number, second: Number) -> Option<Numbers>
    requires first { IsNumber first.width first.number }
    requires second { IsNumber second.width second.number }
    ensures numbers { IfSome result (λ n. AreNumbers n.width n.first n.second) }
    ensures same { (f : ℕ → ℕ → ℕ → AnyValue) →
        (if first.width == second.width
        then Some (f first.width first.number second.number) else None)
        ≡ option_map (λ n. f n.width n.first n.second) result }
{
    if first.width == second.width {
        Some(Numbers {
            width: first.width,
            first: first.number,
            second: second.number,
        })
    } else {
        None
    }
}

/// A copy of a value that can be chosen: of bits or a truth. It takes no memory.
pub fn small_copy(value: &Value) -> Option<Value>
    ensures { result ≡ (if can_be_chosen (type_of_value value.now) then Some value.now else None) }
{
    match value {
        Value::Bool(truth) => Some(Value::Bool(*truth)),
        Value::Bits { width, number } => Some(Value::Bits {
            width: *width,
            number: *number,
        }),
        _ => None,
    }
}

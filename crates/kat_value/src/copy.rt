//! Copies of values.

ghost use Rattle.std.specs.Prelude.{◌≡◌, IfOk};

use crate::value::{Value, Values};
use sqlite_items::{Boxed, Items};
use std::alloc::{AllocError, Global};

/// An equal value in memory of its own.
#[cycle(copy)]
pub fn copy_value(alloc: Global, value: &Value) -> Result<Value, AllocError>
    ensures { IfOk result (λ v. v ≡ value.now) }
{
    match value {
        Value::Unit => Ok(Value::Unit),
        Value::Bool(truth) => Ok(Value::Bool(*truth)),
        Value::Bits { width, number } => Ok(Value::Bits {
            width: *width,
            number: *number,
        }),
        Value::Member { of, index } => Ok(Value::Member {
            of: *of,
            index: *index,
        }),
        Value::Made { of, ctor, inner } => Ok(Value::Made {
            of: *of,
            ctor: *ctor,
            inner: Boxed::new(alloc, copy_value(alloc, inner.get())?)?,
        }),
        Value::Rec { of, fields } => Ok(Value::Rec {
            of: *of,
            fields: copy_values(alloc, fields.as_slice())?,
        }),
    }
}

/// An equal list of values in memory of its own.
#[cycle(copy)]
pub fn copy_values(alloc: Global, values: &[Value]) -> Result<Values, AllocError>
    ensures { IfOk result (λ vs. vs ≡ values.now) }
{
    let mut copies = Items::new(alloc);
    for value in values {
        copies.push(copy_value(alloc, value)?)?;
    }
    Ok(copies)
}

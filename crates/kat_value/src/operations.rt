//! The operations on values.

ghost use Rattle.std.specs.Prelude.{◌≡◌, ◌+◌, ◌*◌, ◌^◌, ◌∷◌, [], IfOk, Some, None, nat_le, if◌then◌else◌};
ghost use Rattle.std.specs.Option.{option_copied};
ghost use Rattle.kat_value.specs.declared.value.Value.{out-Value};
ghost use Rattle.kat_value.specs.declared.value.Value.TheVariants.{Bits};
ghost use Rattle.kat_value.specs.Operations.{of_choice, of_comparison, of_equals, of_arithmetic, of_parts, value_of_one, value_of_op};
ghost use Rattle.kat_value.specs.Numbers.{IsNumber, TakesTwoNumbers};
ghost use Rattle.kat_value.specs.Widths.{widest};

use crate::arithmetic::{apply, holds};
use crate::copy::copy_value;
use crate::equality::same_value;
use crate::op::Op;
use crate::op_types::same_type;
use crate::shown::{Number, number_in, numbers_in, small_copy, truth_in, type_of_value};
use crate::value::Value;
use crate::width::WIDEST;
use std::alloc::{AllocError, Global};

/// What an operation gives on values; none where it does not take them. Memory is taken for the
/// copy of a field alone.
pub fn operate(alloc: Global, op: Op, args: &[Value]) -> Result<Option<Value>, AllocError>
    ensures { IfOk result (λ value. value ≡ value_of_op op args.now) }
{
    match args {
        [a] => operate_on_one(alloc, op, a),
        [a, b] => Ok(operate_on_two(op, a, b)),
        [a, b, c] => Ok(operate_on_three(op, a, b, c)),
        _ => Ok(None),
    }
}

/// What an operation gives on one value. Memory is taken for the copy of a field alone.
pub fn operate_on_one(alloc: Global, op: Op, a: &Value) -> Result<Option<Value>, AllocError>
    ensures { IfOk result (λ value. value ≡ value_of_op op (a.now ∷ [])) }
{
    match op {
        Op::Not => Ok(negated(a)),
        Op::Bnot => Ok(complement(a)),
        Op::Slice { hi, lo } => Ok(sliced(hi, lo, a)),
        Op::Zext { width } => Ok(zero_extended(width, a)),
        Op::Sext { width } => Ok(sign_extended(width, a)),
        Op::Get { of, field } => match field_of(of, field, a) {
            Some(value) => Ok(Some(copy_value(alloc, value)?)),
            None => Ok(None),
        },
        _ => Ok(None),
    }
}

/// What an operation gives on two values. It takes no memory.
pub fn operate_on_two(op: Op, a: &Value, b: &Value) -> Option<Value>
    ensures { result ≡ value_of_op op (a.now ∷ b.now ∷ []) }
{
    match op {
        Op::And => both(a, b),
        Op::Or => either(a, b),
        Op::Eq => equated(a, b),
        Op::Ult => compared(Op::Ult, a, b),
        Op::Ule => compared(Op::Ule, a, b),
        Op::Slt => compared(Op::Slt, a, b),
        Op::Sle => compared(Op::Sle, a, b),
        Op::Add => computed(Op::Add, a, b),
        Op::Sub => computed(Op::Sub, a, b),
        Op::Mul => computed(Op::Mul, a, b),
        Op::Band => computed(Op::Band, a, b),
        Op::Bor => computed(Op::Bor, a, b),
        Op::Bxor => computed(Op::Bxor, a, b),
        Op::Shl => computed(Op::Shl, a, b),
        Op::Shr => computed(Op::Shr, a, b),
        Op::Sar => computed(Op::Sar, a, b),
        Op::Cat => joined(a, b),
        _ => None,
    }
}

/// What an operation gives on three values. It takes no memory: what can be chosen between has no
/// parts.
pub fn operate_on_three(op: Op, a: &Value, b: &Value, c: &Value) -> Option<Value>
    ensures { result ≡ value_of_op op (a.now ∷ b.now ∷ c.now ∷ []) }
{
    match op {
        Op::Ite => chosen(a, b, c),
        _ => None,
    }
}

/// The field of a record of this type; none of any other value. It takes no memory.
pub fn field_of(of: u32, field: u32, value: &Value) -> Option<&Value>
    ensures { option_copied result ≡ value_of_op (Op.Get of field) (value.now ∷ []) }
{
    match value {
        Value::Rec { of: shown, fields } if *shown == of => fields.get(field as usize),
        _ => None,
    }
}

/// `not`
fn negated(a: &Value) -> Option<Value>
    ensures { result ≡ value_of_one Op.Not (out-Value a.now) }
{
    let p = truth_in(a)?;
    Some(Value::Bool(!p))
}

/// `and`
fn both(a: &Value, b: &Value) -> Option<Value>
    ensures { result ≡ value_of_op Op.And (a.now ∷ b.now ∷ []) }
{
    let p = truth_in(a)?;
    let q = truth_in(b)?;
    Some(Value::Bool(p && q))
}

/// `or`
fn either(a: &Value, b: &Value) -> Option<Value>
    ensures { result ≡ value_of_op Op.Or (a.now ∷ b.now ∷ []) }
{
    let p = truth_in(a)?;
    let q = truth_in(b)?;
    Some(Value::Bool(p || q))
}

/// `eq`, at any one type.
fn equated(a: &Value, b: &Value) -> Option<Value>
    ensures { result ≡ of_equals a.now b.now }
{
    if same_type(type_of_value(a), type_of_value(b)) {
        Some(Value::Bool(same_value(a, b)))
    } else {
        None
    }
}

/// A comparison of numbers of one width.
fn compared(op: Op, a: &Value, b: &Value) -> Option<Value>
    ensures { result ≡ of_comparison op (out-Value a.now) (out-Value b.now) }
{
    let numbers = numbers_in(a, b)?;
    Some(Value::Bool(holds(op, numbers.width, numbers.first, numbers.second)))
}

/// A number made of two of its width.
fn computed(op: Op, a: &Value, b: &Value) -> Option<Value>
    requires { TakesTwoNumbers op }
    ensures { result ≡ of_arithmetic op (out-Value a.now) (out-Value b.now) }
{
    let numbers = numbers_in(a, b)?;
    Some(Value::Bits {
        width: numbers.width,
        number: apply(op, numbers.width, numbers.first, numbers.second),
    })
}

/// `bnot`
fn complement(a: &Value) -> Option<Value>
    ensures { result ≡ value_of_one Op.Bnot (out-Value a.now) }
{
    let n = number_in(a)?;
    Some(Value::Bits {
        width: n.width,
        number: apply(Op::Bnot, n.width, n.number, 0),
    })
}

/// The bits from `lo` to `hi`, where the number has them.
fn sliced(hi: u64, lo: u64, a: &Value) -> Option<Value>
    ensures { result ≡ value_of_one (Op.Slice hi lo) (out-Value a.now) }
{
    let n = number_in(a)?;
    if lo <= hi && hi < u64::from(n.width) {
        Some(Value::Bits {
            width: (hi - lo + 1) as u32,
            number: apply(Op::Slice { hi, lo }, n.width, n.number, 0),
        })
    } else {
        None
    }
}

/// `zext`, to a width that is no less.
fn zero_extended(wide: u64, a: &Value) -> Option<Value>
    ensures { result ≡ value_of_one (Op.Zext wide) (out-Value a.now) }
{
    let n = number_in(a)?;
    if u64::from(n.width) <= wide && wide <= u64::from(WIDEST) {
        Some(Value::Bits {
            width: wide as u32,
            number: apply(Op::Zext { width: wide }, n.width, n.number, 0),
        })
    } else {
        None
    }
}

/// `sext`, to a width that is no less.
fn sign_extended(wide: u64, a: &Value) -> Option<Value>
    ensures { result ≡ value_of_one (Op.Sext wide) (out-Value a.now) }
{
    let n = number_in(a)?;
    if u64::from(n.width) <= wide && wide <= u64::from(WIDEST) {
        Some(Value::Bits {
            width: wide as u32,
            number: apply(Op::Sext { width: wide }, n.width, n.number, 0),
        })
    } else {
        None
    }
}

/// `cat`, where the bits fit the greatest width; the first is the high part.
fn joined(a: &Value, b: &Value) -> Option<Value>
    ensures { result ≡ of_parts (out-Value a.now) (out-Value b.now) }
{
    match number_in(a) {
        Some(high) => match number_in(b) {
            Some(low) => joined_numbers(high, low),
            None => None,
        },
        None => None,
    }
}

/// One number above another, where the bits fit the greatest width.
fn joined_numbers(high: Number, low: Number) -> Option<Value>
    requires high { IsNumber high.width high.number }
    requires low { IsNumber low.width low.number }
    ensures { result ≡ (if nat_le (high.width + low.width) widest
        then Some (Bits (high.width + low.width) (high.number * 2 ^ low.width + low.number))
        else None) }
{
    let width = high.width + low.width;
    if width > WIDEST {
        return None;
    }
    Some(Value::Bits {
        width,
        number: apply(Op::Cat, low.width, high.number, low.number),
    })
}

/// `ite`
fn chosen(test: &Value, a: &Value, b: &Value) -> Option<Value>
    ensures { result ≡ of_choice (out-Value test.now) a.now b.now }
{
    let holds = truth_in(test)?;
    if !same_type(type_of_value(a), type_of_value(b)) {
        return None;
    }
    small_copy(if holds { a } else { b })
}

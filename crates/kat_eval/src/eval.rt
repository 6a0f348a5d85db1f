//! The values of expressions. An expression has none where a name is unbound, an operation does not
//! take its values, a literal does not fit, or a form stands where it may not.

ghost use Rattle.std.specs.Prelude.{◌≡◌, [], ◌∷◌, IfOk, option_and_then};
ghost use Rattle.std.specs.Option.{option_copied};
ghost use Rattle.kat_value.specs.Making.{all_there};
ghost use Rattle.kat_value.specs.Operations.{value_of_op};
ghost use Rattle.kat_value.specs.Typing.{has_type, ctor_at, passes_ctor};
ghost use Rattle.kat_syntax.specs.Evaluation.{literal_value, value_of_expr, values_of_exprs};
ghost use Rattle.kat_syntax.specs.Meaning.{plainly, number_of, truth_for, number_for};
ghost use Rattle.kat_syntax.specs.NamedValues.{member_value, made_value, rec_value, got_value};
ghost use Rattle.kat_syntax.specs.TypeTable.{types_of_decls};
ghost use Rattle.kat_eval.specs.Locals.{locals_of};

use crate::locals::Locals;
use kat_syntax::{Checked, CtorPlace, Expr, Op};
use kat_text::Text;
use kat_value::{
    Ty, TypeDecl, Types, Value, Values, copy_value, field_of, fits, is_literal, is_number,
    operate_on_one, operate_on_three, operate_on_two,
};
use sqlite_items::{Boxed, Items};
use std::alloc::{AllocError, Global};

/// The value of an expression in a statement.
#[cycle(expressions)]
pub fn eval(
    alloc: Global,
    expr: &Expr,
    checked: &Checked,
    locals: &Locals<'_, '_>,
) -> Result<Option<Value>, AllocError>
    ensures { IfOk result (λ value.
        value ≡ value_of_expr (plainly checked.now.decls (locals_of locals.now)) expr.now) }
{
    match expr {
        Expr::Name(name) => copied(alloc, locals.value(name)),
        Expr::Unit => Ok(Some(Value::Unit)),
        Expr::Truth(truth) => Ok(Some(Value::Bool(*truth))),
        Expr::Bits { width, number } => Ok(literal(*width, *number)),
        Expr::Of { of, member } => Ok(member_of(checked, of, member)),
        Expr::Make { ctor, payload } => match eval(alloc, payload.get(), checked, locals)? {
            Some(payload) => made(alloc, checked, ctor, payload),
            None => Ok(None),
        },
        Expr::Rec { of, fields } => match eval_all(alloc, fields.as_slice(), checked, locals)? {
            Some(fields) => Ok(record_of(checked, of, fields)),
            None => Ok(None),
        },
        Expr::Apply { op, args } => apply(alloc, *op, args.as_slice(), checked, locals),
        Expr::Get { of, field, value } => match eval(alloc, value.get(), checked, locals)? {
            Some(value) => got(alloc, checked, of, field, &value),
            None => Ok(None),
        },
        _ => Ok(None),
    }
}

/// The values of expressions, where each has one.
#[cycle(expressions)]
pub fn eval_all(
    alloc: Global,
    exprs: &[Expr],
    checked: &Checked,
    locals: &Locals<'_, '_>,
) -> Result<Option<Values>, AllocError>
    ensures { IfOk result (λ values.
        values ≡ values_of_exprs (plainly checked.now.decls (locals_of locals.now)) exprs.now) }
{
    let mut values = Items::new(alloc);
    for expr in exprs {
        match eval(alloc, expr, checked, locals)? {
            Some(value) => values.push(value)?,
            None => return Ok(None),
        }
    }
    Ok(Some(values))
}

/// The value of an operation on one, two or three arguments; it takes no others.
#[cycle(expressions)]
fn apply(
    alloc: Global,
    op: Op,
    args: &[Expr],
    checked: &Checked,
    locals: &Locals<'_, '_>,
) -> Result<Option<Value>, AllocError>
    ensures { IfOk result (λ value. value ≡ option_and_then (value_of_op op)
        (values_of_exprs (plainly checked.now.decls (locals_of locals.now)) args.now)) }
{
    match args {
        [a] => match eval(alloc, a, checked, locals)? {
            Some(a) => operate_on_one(alloc, op, &a),
            None => Ok(None),
        },
        [a, b] => {
            let a = eval(alloc, a, checked, locals)?;
            let b = eval(alloc, b, checked, locals)?;
            Ok(on_two(op, &a, &b))
        }
        [a, b, c] => {
            let a = eval(alloc, a, checked, locals)?;
            let b = eval(alloc, b, checked, locals)?;
            let c = eval(alloc, c, checked, locals)?;
            Ok(on_three(op, &a, &b, &c))
        }
        [] => Ok(None),
        [_, _, _, ..] => Ok(None),
    }
}

/// An operation on two values that may be there.
fn on_two(op: Op, a: &Option<Value>, b: &Option<Value>) -> Option<Value>
    ensures { result
        ≡ option_and_then (value_of_op op) (all_there (a.now ∷ b.now ∷ [])) }
{
    match (a, b) {
        (Some(a), Some(b)) => operate_on_two(op, a, b),
        _ => None,
    }
}

/// An operation on three values that may be there.
fn on_three(op: Op, a: &Option<Value>, b: &Option<Value>, c: &Option<Value>) -> Option<Value>
    ensures { result
        ≡ option_and_then (value_of_op op) (all_there (a.now ∷ b.now ∷ c.now ∷ [])) }
{
    match (a, b, c) {
        (Some(a), Some(b), Some(c)) => operate_on_three(op, a, b, c),
        _ => None,
    }
}

/// A copy of a value that may be there.
fn copied(alloc: Global, value: Option<&Value>) -> Result<Option<Value>, AllocError>
    ensures { IfOk result (λ copy. copy ≡ option_copied value.entry) }
{
    match value {
        Some(value) => Ok(Some(copy_value(alloc, value)?)),
        None => Ok(None),
    }
}

/// A literal that fits.
fn literal(width: u64, number: u64) -> Option<Value>
    ensures { result ≡ literal_value width number }
{
    if is_literal(width, number) {
        Some(Value::Bits {
            width: width as u32,
            number,
        })
    } else {
        None
    }
}

/// The member of this name of the enum of this name.
fn member_of(checked: &Checked, of: &Text, member: &Text) -> Option<Value>
    ensures { result ≡ member_value (types_of_decls checked.now.decls) of.now member.now }
{
    let of = checked.type_position(of)?;
    let index = checked.member(of, member)?;
    Some(Value::Member { of, index })
}

/// The constructor of this name with a payload of its type.
fn made(
    alloc: Global,
    checked: &Checked,
    ctor: &Text,
    payload: Value,
) -> Result<Option<Value>, AllocError>
    ensures { IfOk result (λ value.
        value ≡ made_value (types_of_decls checked.now.decls) ctor.now payload) }
{
    let Some(place) = checked.ctor(ctor) else {
        return Ok(None);
    };
    if !takes_payload(checked.types(), place, &payload) {
        return Ok(None);
    }
    Ok(Some(Value::Made {
        of: place.of,
        ctor: place.ctor,
        inner: Boxed::new(alloc, payload)?,
    }))
}

/// Whether a constructor takes this payload.
fn takes_payload(types: &Types, place: CtorPlace, payload: &Value) -> bool
    ensures { result
        ≡ passes_ctor (has_type types.now payload.now) (ctor_at types.now place.of place.ctor) }
{
    match types.get(place.of as usize) {
        Some(TypeDecl::Union { ctors, .. }) => match ctors.get(place.ctor as usize) {
            Some(ctor) => fits(types, &ctor.ty, payload),
            None => false,
        },
        _ => false,
    }
}

/// The record of this name with fields of its types.
fn record_of(checked: &Checked, of: &Text, fields: Values) -> Option<Value>
    ensures { result ≡ rec_value (types_of_decls checked.now.decls) of.now fields }
{
    let of = checked.type_position(of)?;
    let value = Value::Rec { of, fields };
    if fits(checked.types(), &Ty::Rec(of), &value) {
        Some(value)
    } else {
        None
    }
}

/// The field of this name of a value of the record of this name.
fn got(
    alloc: Global,
    checked: &Checked,
    of: &Text,
    field: &Text,
    value: &Value,
) -> Result<Option<Value>, AllocError>
    ensures { IfOk result (λ part.
        part ≡ got_value (types_of_decls checked.now.decls) of.now field.now value.now) }
{
    let Some(of) = checked.type_position(of) else {
        return Ok(None);
    };
    match checked.field(of, field) {
        Some(field) => copied(alloc, field_of(of, field, value)),
        None => Ok(None),
    }
}

/// The truth that an expression is.
pub fn eval_truth(
    alloc: Global,
    expr: &Expr,
    checked: &Checked,
    locals: &Locals<'_, '_>,
) -> Result<Option<bool>, AllocError>
    ensures { IfOk result (λ truth.
        truth ≡ truth_for checked.now.decls (locals_of locals.now) expr.now) }
{
    match eval(alloc, expr, checked, locals)? {
        Some(Value::Bool(truth)) => Ok(Some(truth)),
        _ => Ok(None),
    }
}

/// The number of this width that an expression is.
pub fn eval_number(
    alloc: Global,
    width: u64,
    expr: &Expr,
    checked: &Checked,
    locals: &Locals<'_, '_>,
) -> Result<Option<u64>, AllocError>
    ensures { IfOk result (λ number.
        number ≡ number_for checked.now.decls width (locals_of locals.now) expr.now) }
{
    match eval(alloc, expr, checked, locals)? {
        Some(value) => Ok(number_of(width, &value)),
        None => Ok(None),
    }
}

/// The number of this width that a value is.
fn number_of(width: u64, value: &Value) -> Option<u64>
    ensures { result ≡ number_of width value.now }
{
    match value {
        Value::Bits {
            width: shown,
            number,
        } if width == u64::from(*shown) && is_number(*shown, *number) => Some(*number),
        _ => None,
    }
}

//! The rule on literals alone.

ghost use Rattle.std.specs.Prelude.{◌≡◌, IfOk, map, option_and_then};
ghost use Rattle.std.specs.Option.{option_copied};
ghost use Rattle.kat_value.specs.Operations.{value_of_op};
ghost use Rattle.kat_value.specs.Making.{all_there};
ghost use Rattle.kat_rules.specs.Truths.{plain_of, op_on_literals};

use kat_term::{Shape, Term, literal, literal_in, shape_of};
use kat_value::{Op, Ty, Value, operate_on_one, operate_on_three, operate_on_two};
use std::alloc::{AllocError, Global};

/// An operation on literals alone is its literal.
pub fn op_on_literals(alloc: Global, _vars: &[Ty], term: &Term) -> Result<Option<Term>, AllocError>
    ensures { IfOk result (λ r. r ≡ op_on_literals _vars.now term.now) }
{
    let Shape::Apply { op, args } = shape_of(term) else {
        return Ok(None);
    };
    match value_on_literals(alloc, op, args)? {
        Some(value) => Ok(Some(literal(value))),
        None => Ok(None),
    }
}

/// The value of an operation on terms that are all literals; none where one is not, or they are not
/// of types that it takes.
fn value_on_literals(alloc: Global, op: Op, args: &[Term]) -> Result<Option<Value>, AllocError>
    ensures { IfOk result (λ o. o
        ≡ option_and_then (value_of_op op) (all_there (map plain_of args.now))) }
{
    match args {
        [] => Ok(None),
        [a] => {
            let Some(x) = plain_in(a) else {
                return Ok(None);
            };
            operate_on_one(alloc, op, x)
        }
        [a, b] => {
            let Some(x) = plain_in(a) else {
                return Ok(None);
            };
            let Some(y) = plain_in(b) else {
                return Ok(None);
            };
            Ok(operate_on_two(op, x, y))
        }
        [a, b, c] => {
            let Some(x) = plain_in(a) else {
                return Ok(None);
            };
            let Some(y) = plain_in(b) else {
                return Ok(None);
            };
            let Some(z) = plain_in(c) else {
                return Ok(None);
            };
            Ok(operate_on_three(op, x, y, z))
        }
        [_, _, _, _, ..] => Ok(None),
    }
}

/// The value of a term that is a literal and plain: of type unit, bool or bits or of an enum.
fn plain_in(term: &Term) -> Option<&Value>
    ensures { plain_of term.now ≡ option_copied result }
{
    let value = literal_in(term)?;
    match value {
        Value::Unit | Value::Bool(_) | Value::Bits { .. } | Value::Member { .. } => Some(value),
        Value::Made { .. } | Value::Rec { .. } => None,
    }
}

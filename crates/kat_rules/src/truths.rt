//! The rules on fields, on truths and on choices. Each answers its right side, where its left side
//! is there.

ghost use Rattle.std.specs.Prelude.{◌≡◌, IfOk, Some};
ghost use Rattle.kat_term.specs.Views.{one, two, truth as literal};
ghost use Rattle.kat_rules.specs.BitOperations.{on_same};
ghost use Rattle.kat_rules.specs.ByOperation.{rules_at};
ghost use Rattle.kat_rules.specs.Patterns.{on_one};
ghost use Rattle.kat_rules.specs.Rules.{first_of};
ghost use Rattle.kat_rules.specs.Truths.{get_of_rec, not_of_and, not_of_or, not_of_comparison, on_first_truth, on_second_truth, and_of_first_false, and_of_second_false, and_of_first_true, and_of_second_true, or_of_first_true, or_of_second_true, or_of_first_false, or_of_second_false, ite_of_truth, ite_of_same, ite_of_not, ite_of_truths};

use crate::views::field_in;
use crate::widths::is_bool;
use kat_term::{
    Term, apply_one, apply_three, apply_two, arg_of, args_of, copy_term, rec_in, same_term,
    three_args_of, truth, truth_in,
};
use kat_value::{Op, Ty};
use std::alloc::{AllocError, Global};

/// The right side of the first rule on `not` that is there.
pub fn negation_rule(alloc: Global, vars: &[Ty], term: &Term) -> Result<Option<Term>, AllocError>
    ensures { IfOk result (λ r. r ≡ first_of (rules_at Op.Not) vars.now term.now) }
{
    if let Some(right) = undone_twice(alloc, Op::Not, vars, term)? {
        return Ok(Some(right));
    }
    if let Some(right) = not_of_and(alloc, vars, term)? {
        return Ok(Some(right));
    }
    if let Some(right) = not_of_or(alloc, vars, term)? {
        return Ok(Some(right));
    }
    if let Some(right) = not_of_comparison(alloc, Op::Ult, Op::Ule, vars, term)? {
        return Ok(Some(right));
    }
    if let Some(right) = not_of_comparison(alloc, Op::Ule, Op::Ult, vars, term)? {
        return Ok(Some(right));
    }
    if let Some(right) = not_of_comparison(alloc, Op::Slt, Op::Sle, vars, term)? {
        return Ok(Some(right));
    }
    not_of_comparison(alloc, Op::Sle, Op::Slt, vars, term)
}

/// The same of `and`.
pub fn conjunction_rule(alloc: Global, vars: &[Ty], term: &Term) -> Result<Option<Term>, AllocError>
    ensures { IfOk result (λ r. r ≡ first_of (rules_at Op.And) vars.now term.now) }
{
    if let Some(right) = first_truth_decides(alloc, Op::And, false, vars, term)? {
        return Ok(Some(right));
    }
    if let Some(right) = second_truth_decides(alloc, Op::And, false, vars, term)? {
        return Ok(Some(right));
    }
    if let Some(right) = first_truth_goes(alloc, Op::And, true, vars, term)? {
        return Ok(Some(right));
    }
    if let Some(right) = second_truth_goes(alloc, Op::And, true, vars, term)? {
        return Ok(Some(right));
    }
    one_of_same(alloc, Op::And, vars, term)
}

/// The same of `or`.
pub fn disjunction_rule(alloc: Global, vars: &[Ty], term: &Term) -> Result<Option<Term>, AllocError>
    ensures { IfOk result (λ r. r ≡ first_of (rules_at Op.Or) vars.now term.now) }
{
    if let Some(right) = first_truth_decides(alloc, Op::Or, true, vars, term)? {
        return Ok(Some(right));
    }
    if let Some(right) = second_truth_decides(alloc, Op::Or, true, vars, term)? {
        return Ok(Some(right));
    }
    if let Some(right) = first_truth_goes(alloc, Op::Or, false, vars, term)? {
        return Ok(Some(right));
    }
    if let Some(right) = second_truth_goes(alloc, Op::Or, false, vars, term)? {
        return Ok(Some(right));
    }
    one_of_same(alloc, Op::Or, vars, term)
}

/// The same of `ite`.
pub fn choice_rule(alloc: Global, vars: &[Ty], term: &Term) -> Result<Option<Term>, AllocError>
    ensures { IfOk result (λ r. r ≡ first_of (rules_at Op.Ite) vars.now term.now) }
{
    if let Some(right) = ite_of_truth(alloc, vars, term)? {
        return Ok(Some(right));
    }
    if let Some(right) = ite_of_same(alloc, vars, term)? {
        return Ok(Some(right));
    }
    if let Some(right) = ite_of_not(alloc, vars, term)? {
        return Ok(Some(right));
    }
    ite_of_truths(alloc, vars, term)
}

/// `get` of a `rec` is the component
pub fn get_of_rec(alloc: Global, _vars: &[Ty], term: &Term) -> Result<Option<Term>, AllocError>
    ensures { IfOk result (λ r. r ≡ get_of_rec _vars.now term.now) }
{
    let Some(field) = field_in(term) else {
        return Ok(None);
    };
    let Some(record) = rec_in(field.from) else {
        return Ok(None);
    };
    if record.of != field.of {
        return Ok(None);
    }
    let Some(component) = record.fields.get(field.field as usize) else {
        return Ok(None);
    };
    Ok(Some(copy_term(alloc, component)?))
}

/// An operation that undoes itself: not(not a) is a; the same of `bnot`.
pub fn undone_twice(
    alloc: Global,
    op: Op,
    _vars: &[Ty],
    term: &Term,
) -> Result<Option<Term>, AllocError>
    ensures { IfOk result (λ r. r ≡ on_one op term.now (λ n. on_one op n (λ a. Some a))) }
{
    let Some(inner) = arg_of(op, term) else {
        return Ok(None);
    };
    let Some(a) = arg_of(op, inner) else {
        return Ok(None);
    };
    Ok(Some(copy_term(alloc, a)?))
}

/// The negation of a term.
fn negation_of(alloc: Global, term: &Term) -> Result<Term, AllocError>
    ensures { IfOk result (λ t. t ≡ one Op.Not term.now) }
{
    apply_one(alloc, Op::Not, copy_term(alloc, term)?)
}

/// not(and(a,b)) is or(not a, not b)
pub fn not_of_and(alloc: Global, _vars: &[Ty], term: &Term) -> Result<Option<Term>, AllocError>
    ensures { IfOk result (λ r. r ≡ not_of_and _vars.now term.now) }
{
    let Some(inner) = arg_of(Op::Not, term) else {
        return Ok(None);
    };
    let Some(sides) = args_of(Op::And, inner) else {
        return Ok(None);
    };
    let first = negation_of(alloc, sides.first)?;
    let second = negation_of(alloc, sides.second)?;
    Ok(Some(apply_two(alloc, Op::Or, first, second)?))
}

/// not(or(a,b)) is and(not a, not b)
pub fn not_of_or(alloc: Global, _vars: &[Ty], term: &Term) -> Result<Option<Term>, AllocError>
    ensures { IfOk result (λ r. r ≡ not_of_or _vars.now term.now) }
{
    let Some(inner) = arg_of(Op::Not, term) else {
        return Ok(None);
    };
    let Some(sides) = args_of(Op::Or, inner) else {
        return Ok(None);
    };
    let first = negation_of(alloc, sides.first)?;
    let second = negation_of(alloc, sides.second)?;
    Ok(Some(apply_two(alloc, Op::And, first, second)?))
}

/// The negation of a comparison is another, of its sides swapped: not(ult(a,b)) is ule(b,a).
pub fn not_of_comparison(
    alloc: Global,
    op: Op,
    other: Op,
    _vars: &[Ty],
    term: &Term,
) -> Result<Option<Term>, AllocError>
    ensures { IfOk result (λ r. r ≡ not_of_comparison op other _vars.now term.now) }
{
    let Some(inner) = arg_of(Op::Not, term) else {
        return Ok(None);
    };
    let Some(sides) = args_of(op, inner) else {
        return Ok(None);
    };
    let first = copy_term(alloc, sides.second)?;
    let second = copy_term(alloc, sides.first)?;
    Ok(Some(apply_two(alloc, other, first, second)?))
}

/// and(false, b) is false; or(true, b) is true
pub fn first_truth_decides(
    _alloc: Global,
    op: Op,
    holds: bool,
    _vars: &[Ty],
    term: &Term,
) -> Result<Option<Term>, AllocError>
    ensures { IfOk result (λ r. r ≡ on_first_truth op holds term.now (λ b. Some (literal holds))) }
{
    let Some(sides) = args_of(op, term) else {
        return Ok(None);
    };
    let Some(found) = truth_in(sides.first) else {
        return Ok(None);
    };
    if holds == found {
        Ok(Some(truth(holds)))
    } else {
        Ok(None)
    }
}

/// and(a, false) is false; or(a, true) is true
pub fn second_truth_decides(
    _alloc: Global,
    op: Op,
    holds: bool,
    _vars: &[Ty],
    term: &Term,
) -> Result<Option<Term>, AllocError>
    ensures { IfOk result (λ r. r ≡ on_second_truth op holds term.now (λ a. Some (literal holds))) }
{
    let Some(sides) = args_of(op, term) else {
        return Ok(None);
    };
    let Some(found) = truth_in(sides.second) else {
        return Ok(None);
    };
    if holds == found {
        Ok(Some(truth(holds)))
    } else {
        Ok(None)
    }
}

/// and(true, b) is b; or(false, b) is b
pub fn first_truth_goes(
    alloc: Global,
    op: Op,
    holds: bool,
    _vars: &[Ty],
    term: &Term,
) -> Result<Option<Term>, AllocError>
    ensures { IfOk result (λ r. r ≡ on_first_truth op holds term.now (λ b. Some b)) }
{
    let Some(sides) = args_of(op, term) else {
        return Ok(None);
    };
    let Some(found) = truth_in(sides.first) else {
        return Ok(None);
    };
    if holds == found {
        Ok(Some(copy_term(alloc, sides.second)?))
    } else {
        Ok(None)
    }
}

/// and(a, true) is a; or(a, false) is a
pub fn second_truth_goes(
    alloc: Global,
    op: Op,
    holds: bool,
    _vars: &[Ty],
    term: &Term,
) -> Result<Option<Term>, AllocError>
    ensures { IfOk result (λ r. r ≡ on_second_truth op holds term.now (λ a. Some a)) }
{
    let Some(sides) = args_of(op, term) else {
        return Ok(None);
    };
    let Some(found) = truth_in(sides.second) else {
        return Ok(None);
    };
    if holds == found {
        Ok(Some(copy_term(alloc, sides.first)?))
    } else {
        Ok(None)
    }
}

/// An operation on equal sides that is the one of them: and(a,a) is a; the same of `or`, `band` and
/// `bor`.
pub fn one_of_same(
    alloc: Global,
    op: Op,
    _vars: &[Ty],
    term: &Term,
) -> Result<Option<Term>, AllocError>
    ensures { IfOk result (λ r. r ≡ on_same op term.now (λ a. Some a)) }
{
    let Some(sides) = args_of(op, term) else {
        return Ok(None);
    };
    if !same_term(sides.first, sides.second) {
        return Ok(None);
    }
    Ok(Some(copy_term(alloc, sides.first)?))
}

/// ite(true,a,b) is a; ite(false,a,b) is b
pub fn ite_of_truth(alloc: Global, _vars: &[Ty], term: &Term) -> Result<Option<Term>, AllocError>
    ensures { IfOk result (λ r. r ≡ ite_of_truth _vars.now term.now) }
{
    let Some(parts) = three_args_of(Op::Ite, term) else {
        return Ok(None);
    };
    let Some(holds) = truth_in(parts.first) else {
        return Ok(None);
    };
    if holds {
        Ok(Some(copy_term(alloc, parts.second)?))
    } else {
        Ok(Some(copy_term(alloc, parts.third)?))
    }
}

/// ite(c,a,a) is a
pub fn ite_of_same(alloc: Global, _vars: &[Ty], term: &Term) -> Result<Option<Term>, AllocError>
    ensures { IfOk result (λ r. r ≡ ite_of_same _vars.now term.now) }
{
    let Some(parts) = three_args_of(Op::Ite, term) else {
        return Ok(None);
    };
    if !same_term(parts.second, parts.third) {
        return Ok(None);
    }
    Ok(Some(copy_term(alloc, parts.second)?))
}

/// ite(not c,a,b) is ite(c,b,a)
pub fn ite_of_not(alloc: Global, _vars: &[Ty], term: &Term) -> Result<Option<Term>, AllocError>
    ensures { IfOk result (λ r. r ≡ ite_of_not _vars.now term.now) }
{
    let Some(parts) = three_args_of(Op::Ite, term) else {
        return Ok(None);
    };
    let Some(condition) = arg_of(Op::Not, parts.first) else {
        return Ok(None);
    };
    let first = copy_term(alloc, condition)?;
    let second = copy_term(alloc, parts.third)?;
    let third = copy_term(alloc, parts.second)?;
    Ok(Some(apply_three(alloc, Op::Ite, first, second, third)?))
}

/// ite(c,a,b) on bool is or(and(c,a), and(not c,b))
pub fn ite_of_truths(alloc: Global, vars: &[Ty], term: &Term) -> Result<Option<Term>, AllocError>
    ensures { IfOk result (λ r. r ≡ ite_of_truths vars.now term.now) }
{
    let Some(parts) = three_args_of(Op::Ite, term) else {
        return Ok(None);
    };
    if !is_bool(vars, parts.second) {
        return Ok(None);
    }
    let first = conjunction_of(alloc, copy_term(alloc, parts.first)?, parts.second)?;
    let second = conjunction_of(alloc, negation_of(alloc, parts.first)?, parts.third)?;
    Ok(Some(apply_two(alloc, Op::Or, first, second)?))
}

/// The `and` of two terms.
fn conjunction_of(alloc: Global, first: Term, second: &Term) -> Result<Term, AllocError>
    ensures { IfOk result (λ t. t ≡ two Op.And first second.now) }
{
    apply_two(alloc, Op::And, first, copy_term(alloc, second)?)
}

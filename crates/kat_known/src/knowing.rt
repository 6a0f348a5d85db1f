//! What a list of formulas tells of an atom.

ghost use Rattle.std.specs.Prelude.{◌≡◌, IfOk};
ghost use Rattle.kat_value.specs.declared.op.Op.TheVariants.{Ult};
ghost use Rattle.kat_term.specs.Views.{two};
ghost use Rattle.kat_known.specs.Known.{less_by, at_most_by, equal_by, by_order, by_bounds, known};
ghost use Rattle.kat_known.specs.Normal.{norm_in};
ghost use Rattle.kat_known.specs.Views.{contains};

use crate::bounds::{Interval, bounds_of};
use kat_norm::rewrite;
use kat_rules::width_in;
use kat_term::{NormError, Term, World, apply_one, apply_two, args_of, copy_term, same_term};
use kat_value::{Op, Ty};
use sqlite_items::Items;
use std::alloc::{AllocError, Global};

/// Whether an atom of a world is known where the formulas of a list are true, and how: true where
/// it is in the list, false where its normed negation is, then by comparisons in the list, then by
/// bounds; the first that speaks decides. A negation that passes a limit is in no list.
pub fn known(
    alloc: Global,
    world: &World,
    list: &[Term],
    term: &Term,
) -> Result<Option<bool>, AllocError>
    ensures { IfOk result
        (λ r. r ≡ known world.now.vars (norm_in world.now.vars) list.now term.now) }
{
    if contains(term, list) {
        return Ok(Some(true));
    }
    let negation = apply_one(alloc, Op::Not, copy_term(alloc, term)?)?;
    if let Some(normal) = normed(alloc, world, negation)? {
        if contains(&normal, list) {
            return Ok(Some(false));
        }
    }
    if let Some(known) = by_order(alloc, list, term)? {
        return Ok(Some(known));
    }
    Ok(by_bounds(world.vars(), list, term))
}

/// Whether a term is in a list.
pub fn contains(term: &Term, list: &[Term]) -> bool
    ensures { result ≡ contains term.now list.now }
{
    for other in list {
        if same_term(term, other) {
            return true;
        }
    }
    false
}

/// The normal form of a term of a world under no substitution, where no limit is passed.
pub fn normed(alloc: Global, world: &World, term: Term) -> Result<Option<Term>, AllocError>
    ensures { IfOk result (λ r. r ≡ norm_in world.now.vars term) }
{
    match rewrite(alloc, world, &Items::new(alloc), term) {
        Ok(normal) => Ok(Some(normal)),
        Err(NormError::Memory) => Err(AllocError),
        Err(NormError::Nodes | NormError::Depth | NormError::Rules) => Ok(None),
    }
}

/// What a comparison in the list tells of another, or of an equation, of the same sides.
fn by_order(alloc: Global, list: &[Term], term: &Term) -> Result<Option<bool>, AllocError>
    ensures { IfOk result (λ r. r ≡ by_order list.now term.now) }
{
    if let Some(sides) = args_of(Op::Ule, term) {
        if has_less(alloc, sides.first, sides.second, list)? {
            return Ok(Some(true));
        }
        return Ok(None);
    }
    let Some(sides) = args_of(Op::Eq, term) else {
        return Ok(None);
    };
    if has_less(alloc, sides.first, sides.second, list)? {
        return Ok(Some(false));
    }
    if has_less(alloc, sides.second, sides.first, list)? {
        return Ok(Some(false));
    }
    Ok(None)
}

/// Whether the list has the comparison that one term is less than another.
fn has_less(alloc: Global, a: &Term, b: &Term, list: &[Term]) -> Result<bool, AllocError>
    ensures { IfOk result (λ r. r ≡ contains (two Ult a.now b.now) list.now) }
{
    let first = copy_term(alloc, a)?;
    let second = copy_term(alloc, b)?;
    let less = apply_two(alloc, Op::Ult, first, second)?;
    Ok(contains(&less, list))
}

/// What bounds tell of a comparison, or of an equation of bits.
fn by_bounds(vars: &[Ty], list: &[Term], term: &Term) -> Option<bool>
    ensures { result ≡ by_bounds vars.now list.now term.now }
{
    if let Some(sides) = args_of(Op::Ult, term) {
        let first = bounds_of(sides.first, vars, list);
        return less_by(first, bounds_of(sides.second, vars, list));
    }
    if let Some(sides) = args_of(Op::Ule, term) {
        let first = bounds_of(sides.first, vars, list);
        return at_most_by(first, bounds_of(sides.second, vars, list));
    }
    let sides = args_of(Op::Eq, term)?;
    width_in(vars, sides.first)?;
    let first = bounds_of(sides.first, vars, list);
    equal_by(first, bounds_of(sides.second, vars, list))
}

/// Whether the numbers of one interval are less than those of another.
fn less_by(a: Interval, b: Interval) -> Option<bool>
    ensures { result ≡ less_by a b }
{
    if a.high < b.low {
        Some(true)
    } else if b.high <= a.low {
        Some(false)
    } else {
        None
    }
}

/// Whether the numbers of one interval are at most those of another.
fn at_most_by(a: Interval, b: Interval) -> Option<bool>
    ensures { result ≡ at_most_by a b }
{
    if a.high <= b.low {
        Some(true)
    } else if b.high < a.low {
        Some(false)
    } else {
        None
    }
}

/// Whether the numbers of one interval are equal to those of another.
fn equal_by(a: Interval, b: Interval) -> Option<bool>
    ensures { result ≡ equal_by a b }
{
    if a.high < b.low || b.high < a.low {
        Some(false)
    } else if a.low == a.high && b.low == b.high && a.low == b.low {
        Some(true)
    } else {
        None
    }
}

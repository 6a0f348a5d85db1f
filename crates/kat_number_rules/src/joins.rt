//! The rules on extensions and joins.

ghost use Rattle.std.specs.Prelude.{◌≡◌, ◌∷◌, [], ◌+◌, ◌==◌, IfOk};
ghost use Rattle.kat_rules.specs.Joins.{zext_to_own_width, sext_to_own_width, zext_of_zext, cat_of_zero, cat_of_slices};
ghost use Rattle.kat_rules.specs.ByOperation.{rules_at};
ghost use Rattle.kat_rules.specs.Rules.{first_of};

use kat_rules::{fitting_number_in, sext_in, slice_in, width_in, zext_in};
use kat_term::{Term, apply_one, args_of, copy_term, same_term};
use kat_value::{Op, Ty, is_width};
use std::alloc::{AllocError, Global};

/// The right side of the first rule on `cat` that is there.
pub fn join_rule(alloc: Global, vars: &[Ty], term: &Term) -> Result<Option<Term>, AllocError>
    ensures { IfOk result (λ r. r ≡ first_of (rules_at Op.Cat) vars.now term.now) }
{
    if let Some(right) = cat_of_zero(alloc, vars, term)? {
        return Ok(Some(right));
    }
    cat_of_slices(alloc, vars, term)
}

/// The same of `zext`.
pub fn zext_rule(alloc: Global, vars: &[Ty], term: &Term) -> Result<Option<Term>, AllocError>
    ensures { IfOk result (λ r. r
        ≡ first_of (zext_to_own_width ∷ zext_of_zext ∷ []) vars.now term.now) }
{
    if let Some(right) = zext_to_own_width(alloc, vars, term)? {
        return Ok(Some(right));
    }
    zext_of_zext(alloc, vars, term)
}

/// zext to the own width is a
fn zext_to_own_width(alloc: Global, vars: &[Ty], term: &Term) -> Result<Option<Term>, AllocError>
    ensures { IfOk result (λ r. r ≡ zext_to_own_width vars.now term.now) }
{
    let Some(longer) = zext_in(term) else {
        return Ok(None);
    };
    let Some(own) = width_in(vars, longer.of) else {
        return Ok(None);
    };
    if u64::from(own) != longer.width {
        return Ok(None);
    }
    Ok(Some(copy_term(alloc, longer.of)?))
}

/// sext to the own width is a
pub fn sext_to_own_width(
    alloc: Global,
    vars: &[Ty],
    term: &Term,
) -> Result<Option<Term>, AllocError>
    ensures { IfOk result (λ r. r ≡ sext_to_own_width vars.now term.now) }
{
    let Some(longer) = sext_in(term) else {
        return Ok(None);
    };
    let Some(own) = width_in(vars, longer.of) else {
        return Ok(None);
    };
    if u64::from(own) != longer.width {
        return Ok(None);
    }
    Ok(Some(copy_term(alloc, longer.of)?))
}

/// zext(zext a) is one zext
fn zext_of_zext(alloc: Global, _vars: &[Ty], term: &Term) -> Result<Option<Term>, AllocError>
    ensures { IfOk result (λ r. r ≡ zext_of_zext _vars.now term.now) }
{
    let Some(outer) = zext_in(term) else {
        return Ok(None);
    };
    let Some(inner) = zext_in(outer.of) else {
        return Ok(None);
    };
    let op = Op::Zext { width: outer.width };
    Ok(Some(apply_one(alloc, op, copy_term(alloc, inner.of)?)?))
}

/// cat(0,a) is the zext of a
fn cat_of_zero(alloc: Global, vars: &[Ty], term: &Term) -> Result<Option<Term>, AllocError>
    ensures { IfOk result (λ r. r ≡ cat_of_zero vars.now term.now) }
{
    let Some(sides) = args_of(Op::Cat, term) else {
        return Ok(None);
    };
    let Some(literal) = fitting_number_in(sides.first) else {
        return Ok(None);
    };
    let Some(low) = width_in(vars, sides.second) else {
        return Ok(None);
    };
    let width = u64::from(literal.width) + u64::from(low);
    if literal.number != 0 || !is_width(width) {
        return Ok(None);
    }
    let op = Op::Zext { width };
    Ok(Some(apply_one(alloc, op, copy_term(alloc, sides.second)?)?))
}

/// cat(slice(h,k+1,a), slice(k,l,a)) is slice(h,l,a)
fn cat_of_slices(alloc: Global, _vars: &[Ty], term: &Term) -> Result<Option<Term>, AllocError>
    ensures { IfOk result (λ r. r ≡ cat_of_slices _vars.now term.now) }
{
    let Some(sides) = args_of(Op::Cat, term) else {
        return Ok(None);
    };
    let Some(high) = slice_in(sides.first) else {
        return Ok(None);
    };
    let Some(low) = slice_in(sides.second) else {
        return Ok(None);
    };
    if !is_next(high.lo, low.hi) || high.lo > high.hi || low.lo > low.hi {
        return Ok(None);
    }
    if !same_term(high.of, low.of) {
        return Ok(None);
    }
    let op = Op::Slice {
        hi: high.hi,
        lo: low.lo,
    };
    Ok(Some(apply_one(alloc, op, copy_term(alloc, high.of)?)?))
}

/// Whether a number is the next one.
fn is_next(next: u64, last: u64) -> bool
    ensures { result ≡ (next == last + 1) }
{
    next > 0 && next - 1 == last
}

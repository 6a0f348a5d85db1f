//! The rules on slices.

ghost use Rattle.std.specs.Prelude.{◌≡◌, ◌+◌, ◌-◌, ◌&&◌, ◌∷◌, [], IfOk, nat_le};
ghost use Rattle.kat_value.specs.Widths.{is_width};
ghost use Rattle.kat_term.specs.Views.{bits};
ghost use Rattle.kat_rules.specs.Patterns.{only_if};
ghost use Rattle.kat_rules.specs.Shifts.{slice_of_all, slice_of_slice, slice_of_low_part, slice_of_high_part, slice_of_both_parts, slice_of_zeros, slice_within_zext, slice_past_zext, slice_within_sext};
ghost use Rattle.kat_rules.specs.Rules.{first_of};

use crate::shifts::slice_of_copy;
use kat_rules::{sext_in, slice_in, width_in, zext_in};
use kat_term::{Term, apply_one, apply_two, args_of, bits as literal, copy_term};
use kat_value::{Op, Ty, WIDEST};
use std::alloc::{AllocError, Global};

/// The right side of the first rule on slices that is there.
pub fn slice_rule(alloc: Global, vars: &[Ty], term: &Term) -> Result<Option<Term>, AllocError>
    ensures { IfOk result (λ r. r ≡ first_of (slice_of_all ∷ slice_of_slice ∷ slice_of_low_part
        ∷ slice_of_high_part ∷ slice_of_both_parts ∷ slice_of_zeros ∷ slice_within_zext
        ∷ slice_past_zext ∷ slice_within_sext ∷ []) vars.now term.now) }
{
    if let Some(right) = slice_of_all(alloc, vars, term)? {
        return Ok(Some(right));
    }
    if let Some(right) = slice_of_slice(alloc, vars, term)? {
        return Ok(Some(right));
    }
    if let Some(right) = slice_of_join(alloc, vars, term)? {
        return Ok(Some(right));
    }
    if let Some(right) = slice_of_zext(alloc, vars, term)? {
        return Ok(Some(right));
    }
    slice_within_sext(alloc, vars, term)
}

/// slice(w-1,0,a) is a
fn slice_of_all(alloc: Global, vars: &[Ty], term: &Term) -> Result<Option<Term>, AllocError>
    ensures { IfOk result (λ r. r ≡ slice_of_all vars.now term.now) }
{
    let Some(slice) = slice_in(term) else {
        return Ok(None);
    };
    let Some(width) = width_in(vars, slice.of) else {
        return Ok(None);
    };
    if slice.lo != 0 || slice.hi != below(width) {
        return Ok(None);
    }
    Ok(Some(copy_term(alloc, slice.of)?))
}

/// slice(h,l,slice(h2,l2,a)) is slice(h+l2,l+l2,a)
fn slice_of_slice(alloc: Global, _vars: &[Ty], term: &Term) -> Result<Option<Term>, AllocError>
    ensures { IfOk result (λ r. r ≡ slice_of_slice _vars.now term.now) }
{
    let Some(outer) = slice_in(term) else {
        return Ok(None);
    };
    let Some(inner) = slice_in(outer.of) else {
        return Ok(None);
    };
    if outer.lo > outer.hi || !reaches(outer.hi, inner.lo, inner.hi) {
        return Ok(None);
    }
    let hi = outer.hi + inner.lo;
    let lo = outer.lo + inner.lo;
    Ok(Some(slice_of_copy(alloc, hi, lo, inner.of)?))
}

/// Whether a sum is at most this.
fn reaches(first: u64, second: u64, top: u64) -> bool
    ensures { result ≡ nat_le (first + second) top }
{
    first <= top && second <= top - first
}

/// The number below that of a width.
fn below(width: u32) -> u64
    ensures { result ≡ width - 1 }
{
    u64::from(width).saturating_sub(1)
}

/// A slice of cat(a,b) that lies in b is the slice of b, one that lies in a the slice of a, and one
/// that lies in both the cat of both slices.
fn slice_of_join(alloc: Global, vars: &[Ty], term: &Term) -> Result<Option<Term>, AllocError>
    ensures { IfOk result (λ r. r
        ≡ first_of (slice_of_low_part ∷ slice_of_high_part ∷ slice_of_both_parts ∷ [])
        vars.now term.now) }
{
    let Some(slice) = slice_in(term) else {
        return Ok(None);
    };
    let Some(sides) = args_of(Op::Cat, slice.of) else {
        return Ok(None);
    };
    let Some(width) = width_in(vars, sides.second) else {
        return Ok(None);
    };
    let seam = u64::from(width);
    if slice.hi < seam {
        return Ok(Some(slice_of_copy(alloc, slice.hi, slice.lo, sides.second)?));
    }
    if slice.lo < seam {
        let high = slice_of_copy(alloc, slice.hi - seam, 0, sides.first)?;
        let low = slice_of_copy(alloc, seam - 1, slice.lo, sides.second)?;
        return Ok(Some(apply_two(alloc, Op::Cat, high, low)?));
    }
    if slice.lo > slice.hi {
        return Ok(None);
    }
    Ok(Some(slice_of_copy(alloc, slice.hi - seam, slice.lo - seam, sides.first)?))
}

/// With v the width of a: slice(h,l,zext a) is 0 where l >= v, slice(h,l,a) where h < v, and the
/// zext of slice(v-1,l,a) where l < v and h >= v.
fn slice_of_zext(alloc: Global, vars: &[Ty], term: &Term) -> Result<Option<Term>, AllocError>
    ensures { IfOk result (λ r. r
        ≡ first_of (slice_of_zeros ∷ slice_within_zext ∷ slice_past_zext ∷ [])
        vars.now term.now) }
{
    let Some(slice) = slice_in(term) else {
        return Ok(None);
    };
    let Some(longer) = zext_in(slice.of) else {
        return Ok(None);
    };
    let Some(width) = width_in(vars, longer.of) else {
        return Ok(None);
    };
    let own = u64::from(width);
    if slice.lo >= own {
        if let Some(zeros) = zeros_between(slice.hi, slice.lo) {
            return Ok(Some(zeros));
        }
    }
    if slice.hi < own {
        return Ok(Some(slice_of_copy(alloc, slice.hi, slice.lo, longer.of)?));
    }
    if slice.lo >= own || slice.hi - slice.lo >= u64::from(WIDEST) {
        return Ok(None);
    }
    let kept = slice_of_copy(alloc, own - 1, slice.lo, longer.of)?;
    let op = Op::Zext {
        width: slice.hi - slice.lo + 1,
    };
    Ok(Some(apply_one(alloc, op, kept)?))
}

/// As many zeros as a slice has bits, where that is a width.
fn zeros_between(hi: u64, lo: u64) -> Option<Term>
    ensures { result ≡ only_if (nat_le lo hi && is_width (hi - lo + 1)) (bits (hi - lo + 1) 0) }
{
    if lo <= hi && hi - lo < u64::from(WIDEST) {
        Some(literal((hi - lo + 1) as u32, 0))
    } else {
        None
    }
}

/// slice(h,l,sext a) with h < v is slice(h,l,a)
fn slice_within_sext(alloc: Global, vars: &[Ty], term: &Term) -> Result<Option<Term>, AllocError>
    ensures { IfOk result (λ r. r ≡ slice_within_sext vars.now term.now) }
{
    let Some(slice) = slice_in(term) else {
        return Ok(None);
    };
    let Some(longer) = sext_in(slice.of) else {
        return Ok(None);
    };
    let Some(width) = width_in(vars, longer.of) else {
        return Ok(None);
    };
    if slice.hi >= u64::from(width) {
        return Ok(None);
    }
    Ok(Some(slice_of_copy(alloc, slice.hi, slice.lo, longer.of)?))
}

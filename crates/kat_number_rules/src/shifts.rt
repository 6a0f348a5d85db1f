//! The rules on shifts.

ghost use Rattle.std.specs.Prelude.{◌≡◌, IfOk};
ghost use Rattle.kat_rules.specs.Shifts.{slice};
ghost use Rattle.kat_rules.specs.ByOperation.{rules_at};
ghost use Rattle.kat_rules.specs.Rules.{first_of};

use kat_rules::fitting_number_in;
use kat_term::{Term, apply_one, apply_two, args_of, bits, copy_term};
use kat_value::{Op, Ty};
use std::alloc::{AllocError, Global};

/// The right side of the first rule on `shl` that is there: shl(a,0) is a, by n >= w it is 0, and
/// by any other literal n it is cat(slice(w-1-n,0,a), 0 of width n).
pub fn shl_rule(alloc: Global, _vars: &[Ty], term: &Term) -> Result<Option<Term>, AllocError>
    ensures { IfOk result (λ r. r ≡ first_of (rules_at Op.Shl) _vars.now term.now) }
{
    let Some(sides) = args_of(Op::Shl, term) else {
        return Ok(None);
    };
    let Some(amount) = fitting_number_in(sides.second) else {
        return Ok(None);
    };
    let width = u64::from(amount.width);
    if amount.number == 0 {
        return Ok(Some(copy_term(alloc, sides.first)?));
    }
    if amount.number >= width {
        return Ok(Some(bits(amount.width, 0)));
    }
    let kept = slice_of_copy(alloc, width - 1 - amount.number, 0, sides.first)?;
    let zeros = bits(amount.number as u32, 0);
    Ok(Some(apply_two(alloc, Op::Cat, kept, zeros)?))
}

/// The same of `shr`: shr(a,0) is a, by n >= w it is 0, and by any other literal n it is
/// zext w (slice(w-1,n,a)).
pub fn shr_rule(alloc: Global, _vars: &[Ty], term: &Term) -> Result<Option<Term>, AllocError>
    ensures { IfOk result (λ r. r ≡ first_of (rules_at Op.Shr) _vars.now term.now) }
{
    let Some(sides) = args_of(Op::Shr, term) else {
        return Ok(None);
    };
    let Some(amount) = fitting_number_in(sides.second) else {
        return Ok(None);
    };
    let width = u64::from(amount.width);
    if amount.number == 0 {
        return Ok(Some(copy_term(alloc, sides.first)?));
    }
    if amount.number >= width {
        return Ok(Some(bits(amount.width, 0)));
    }
    let kept = slice_of_copy(alloc, width - 1, amount.number, sides.first)?;
    Ok(Some(apply_one(alloc, Op::Zext { width }, kept)?))
}

/// The same of `sar`: sar(a,0) is a, and by any other literal n it is sext w (slice(w-1,k,a)) with
/// k the lesser of n and w-1.
pub fn sar_rule(alloc: Global, _vars: &[Ty], term: &Term) -> Result<Option<Term>, AllocError>
    ensures { IfOk result (λ r. r ≡ first_of (rules_at Op.Sar) _vars.now term.now) }
{
    let Some(sides) = args_of(Op::Sar, term) else {
        return Ok(None);
    };
    let Some(amount) = fitting_number_in(sides.second) else {
        return Ok(None);
    };
    if amount.number == 0 {
        return Ok(Some(copy_term(alloc, sides.first)?));
    }
    let width = u64::from(amount.width);
    let top = width - 1;
    let kept = slice_of_copy(alloc, top, amount.number.min(top), sides.first)?;
    Ok(Some(apply_one(alloc, Op::Sext { width }, kept)?))
}

/// A slice of a term's copy.
pub fn slice_of_copy(alloc: Global, hi: u64, lo: u64, of: &Term) -> Result<Term, AllocError>
    ensures { IfOk result (λ t. t ≡ slice hi lo of.now) }
{
    apply_one(alloc, Op::Slice { hi, lo }, copy_term(alloc, of)?)
}

//! The rules on comparisons. Each answers its right side, where its left side is there.

ghost use Rattle.std.specs.Prelude.{◌≡◌, ◌==◌, ◌-◌, ◌^◌, true, false, IfOk, Some, nat_le, if◌then◌else◌};
ghost use Rattle.kat_term.specs.Views.{bits, one, two, truth as literal};
ghost use Rattle.kat_rules.specs.ByOperation.{rules_at};
ghost use Rattle.kat_rules.specs.Rules.{first_of};
ghost use Rattle.kat_rules.specs.Orders.{comparison_of_same, ult_of_zero, ult_of_ones, ule_of_zero, ule_of_ones, is_zero, comparison_of_zexts, on_bits_and_zext};
ghost use Rattle.kat_rules.specs.Patterns.{only_if, on_two, on_bits};

use crate::views::{fitting_number_in, zext_in};
use crate::widths::width_in;
use kat_term::{Term, apply_one, apply_two, arg_of, args_of, bits, copy_term, same_term, truth};
use kat_value::{Op, Ty};
use std::alloc::{AllocError, Global};

/// The right side of the first rule on `ult` that is there.
pub fn less_rule(alloc: Global, vars: &[Ty], term: &Term) -> Result<Option<Term>, AllocError>
    ensures { IfOk result (λ r. r ≡ first_of (rules_at Op.Ult) vars.now term.now) }
{
    if let Some(right) = comparison_of_same(alloc, Op::Ult, false, vars, term)? {
        return Ok(Some(right));
    }
    if let Some(right) = ult_of_zero(alloc, vars, term)? {
        return Ok(Some(right));
    }
    if let Some(right) = ult_of_ones(alloc, vars, term)? {
        return Ok(Some(right));
    }
    if let Some(right) = zero_of_bound(alloc, Op::Ult, 1, vars, term)? {
        return Ok(Some(right));
    }
    if let Some(right) = more_than_zero(alloc, Op::Ult, 0, vars, term)? {
        return Ok(Some(right));
    }
    if let Some(right) = comparison_of_zexts(alloc, Op::Ult, vars, term)? {
        return Ok(Some(right));
    }
    if let Some(right) = literal_and_zext(alloc, Op::Ult, true, vars, term)? {
        return Ok(Some(right));
    }
    zext_and_literal(alloc, Op::Ult, false, vars, term)
}

/// The same of `ule`.
pub fn at_most_rule(alloc: Global, vars: &[Ty], term: &Term) -> Result<Option<Term>, AllocError>
    ensures { IfOk result (λ r. r ≡ first_of (rules_at Op.Ule) vars.now term.now) }
{
    if let Some(right) = comparison_of_same(alloc, Op::Ule, true, vars, term)? {
        return Ok(Some(right));
    }
    if let Some(right) = ule_of_zero(alloc, vars, term)? {
        return Ok(Some(right));
    }
    if let Some(right) = ule_of_ones(alloc, vars, term)? {
        return Ok(Some(right));
    }
    if let Some(right) = zero_of_bound(alloc, Op::Ule, 0, vars, term)? {
        return Ok(Some(right));
    }
    if let Some(right) = more_than_zero(alloc, Op::Ule, 1, vars, term)? {
        return Ok(Some(right));
    }
    if let Some(right) = comparison_of_zexts(alloc, Op::Ule, vars, term)? {
        return Ok(Some(right));
    }
    if let Some(right) = literal_and_zext(alloc, Op::Ule, false, vars, term)? {
        return Ok(Some(right));
    }
    zext_and_literal(alloc, Op::Ule, true, vars, term)
}

/// A comparison of equal sides is this truth: ult(a,a) is false, ule(a,a) is true.
pub fn comparison_of_same(
    _alloc: Global,
    op: Op,
    holds: bool,
    _vars: &[Ty],
    term: &Term,
) -> Result<Option<Term>, AllocError>
    ensures { IfOk result (λ r. r ≡ comparison_of_same op holds _vars.now term.now) }
{
    let Some(sides) = args_of(op, term) else {
        return Ok(None);
    };
    if same_term(sides.first, sides.second) {
        Ok(Some(truth(holds)))
    } else {
        Ok(None)
    }
}

/// ult(a,0) is false
pub fn ult_of_zero(_alloc: Global, _vars: &[Ty], term: &Term) -> Result<Option<Term>, AllocError>
    ensures { IfOk result (λ r. r ≡ ult_of_zero _vars.now term.now) }
{
    let Some(sides) = args_of(Op::Ult, term) else {
        return Ok(None);
    };
    let Some(bound) = fitting_number_in(sides.second) else {
        return Ok(None);
    };
    if bound.number == 0 {
        Ok(Some(truth(false)))
    } else {
        Ok(None)
    }
}

/// ult(ones,a) is false
pub fn ult_of_ones(_alloc: Global, _vars: &[Ty], term: &Term) -> Result<Option<Term>, AllocError>
    ensures { IfOk result (λ r. r ≡ ult_of_ones _vars.now term.now) }
{
    let Some(sides) = args_of(Op::Ult, term) else {
        return Ok(None);
    };
    let Some(bound) = fitting_number_in(sides.first) else {
        return Ok(None);
    };
    if is_ones(bound.width, bound.number) {
        Ok(Some(truth(false)))
    } else {
        Ok(None)
    }
}

/// ule(0,a) is true
pub fn ule_of_zero(_alloc: Global, _vars: &[Ty], term: &Term) -> Result<Option<Term>, AllocError>
    ensures { IfOk result (λ r. r ≡ ule_of_zero _vars.now term.now) }
{
    let Some(sides) = args_of(Op::Ule, term) else {
        return Ok(None);
    };
    let Some(bound) = fitting_number_in(sides.first) else {
        return Ok(None);
    };
    if bound.number == 0 {
        Ok(Some(truth(true)))
    } else {
        Ok(None)
    }
}

/// ule(a,ones) is true
pub fn ule_of_ones(_alloc: Global, _vars: &[Ty], term: &Term) -> Result<Option<Term>, AllocError>
    ensures { IfOk result (λ r. r ≡ ule_of_ones _vars.now term.now) }
{
    let Some(sides) = args_of(Op::Ule, term) else {
        return Ok(None);
    };
    let Some(bound) = fitting_number_in(sides.second) else {
        return Ok(None);
    };
    if is_ones(bound.width, bound.number) {
        Ok(Some(truth(true)))
    } else {
        Ok(None)
    }
}

/// The equation of a term with the zero of a width.
fn is_zero(alloc: Global, width: u32, term: &Term) -> Result<Term, AllocError>
    ensures { IfOk result (λ t. t ≡ is_zero width term.now) }
{
    apply_two(alloc, Op::Eq, bits(width, 0), copy_term(alloc, term)?)
}

/// A comparison with the literal on its second side that says zero: ult(a,1) is eq(0,a), and so is
/// ule(a,0).
fn zero_of_bound(
    alloc: Global,
    op: Op,
    number: u64,
    _vars: &[Ty],
    term: &Term,
) -> Result<Option<Term>, AllocError>
    ensures { IfOk result (λ r. r ≡ on_two op term.now (λ a l. on_bits l (λ w n.
        only_if (n == number) (is_zero w a)))) }
{
    let Some(sides) = args_of(op, term) else {
        return Ok(None);
    };
    let Some(bound) = fitting_number_in(sides.second) else {
        return Ok(None);
    };
    if bound.number != number {
        return Ok(None);
    }
    Ok(Some(is_zero(alloc, bound.width, sides.first)?))
}

/// One with the literal on its first side that says more than zero: ult(0,a) is not(eq(0,a)), and
/// so is ule(1,a).
fn more_than_zero(
    alloc: Global,
    op: Op,
    number: u64,
    _vars: &[Ty],
    term: &Term,
) -> Result<Option<Term>, AllocError>
    ensures { IfOk result (λ r. r ≡ on_two op term.now (λ l a. on_bits l (λ w n.
        only_if (n == number) (one Op.Not (is_zero w a))))) }
{
    let Some(sides) = args_of(op, term) else {
        return Ok(None);
    };
    let Some(bound) = fitting_number_in(sides.first) else {
        return Ok(None);
    };
    if bound.number != number {
        return Ok(None);
    }
    let zero = is_zero(alloc, bound.width, sides.second)?;
    Ok(Some(apply_one(alloc, Op::Not, zero)?))
}

/// A comparison of zext a and zext b with equal widths of a and b compares a and b.
pub fn comparison_of_zexts(
    alloc: Global,
    op: Op,
    vars: &[Ty],
    term: &Term,
) -> Result<Option<Term>, AllocError>
    ensures { IfOk result (λ r. r ≡ comparison_of_zexts op vars.now term.now) }
{
    let Some(sides) = args_of(op, term) else {
        return Ok(None);
    };
    let Some(a) = zext_in(sides.first) else {
        return Ok(None);
    };
    let Some(b) = zext_in(sides.second) else {
        return Ok(None);
    };
    let Some(width) = width_in(vars, a.of) else {
        return Ok(None);
    };
    let Some(other_width) = width_in(vars, b.of) else {
        return Ok(None);
    };
    if width != other_width {
        return Ok(None);
    }
    let first = copy_term(alloc, a.of)?;
    let second = copy_term(alloc, b.of)?;
    Ok(Some(apply_two(alloc, op, first, second)?))
}

/// With v the width of a: ult(m, zext a) is false where m >= 2^v - 1, else ult(m,a); ule(m, zext a)
/// is false where m >= 2^v, else ule(m,a).
fn literal_and_zext(
    alloc: Global,
    op: Op,
    by_ones: bool,
    vars: &[Ty],
    term: &Term,
) -> Result<Option<Term>, AllocError>
    ensures { IfOk result (λ r. r ≡ on_two op term.now (λ l z.
        on_bits_and_zext vars.now l z (λ v m a.
        Some (if nat_le (if by_ones then 2 ^ v - 1 else 2 ^ v) m then literal false
        else two op (bits v m) a)))) }
{
    let Some(sides) = args_of(op, term) else {
        return Ok(None);
    };
    let Some(bound) = fitting_number_in(sides.first) else {
        return Ok(None);
    };
    let Some(a) = arg_of(extension_to(bound.width), sides.second) else {
        return Ok(None);
    };
    let Some(width) = width_in(vars, a) else {
        return Ok(None);
    };
    if is_past(by_ones, width, bound.number) {
        return Ok(Some(truth(false)));
    }
    let second = copy_term(alloc, a)?;
    Ok(Some(apply_two(alloc, op, bits(width, bound.number), second)?))
}

/// With v the width of a: ult(zext a, m) is true where m >= 2^v, else ult(a,m); ule(zext a, m) is
/// true where m >= 2^v - 1, else ule(a,m).
fn zext_and_literal(
    alloc: Global,
    op: Op,
    by_ones: bool,
    vars: &[Ty],
    term: &Term,
) -> Result<Option<Term>, AllocError>
    ensures { IfOk result (λ r. r ≡ on_two op term.now (λ z l.
        on_bits_and_zext vars.now l z (λ v m a.
        Some (if nat_le (if by_ones then 2 ^ v - 1 else 2 ^ v) m then literal true
        else two op a (bits v m))))) }
{
    let Some(sides) = args_of(op, term) else {
        return Ok(None);
    };
    let Some(bound) = fitting_number_in(sides.second) else {
        return Ok(None);
    };
    let Some(a) = arg_of(extension_to(bound.width), sides.first) else {
        return Ok(None);
    };
    let Some(width) = width_in(vars, a) else {
        return Ok(None);
    };
    if is_past(by_ones, width, bound.number) {
        return Ok(Some(truth(true)));
    }
    let first = copy_term(alloc, a)?;
    Ok(Some(apply_two(alloc, op, first, bits(width, bound.number))?))
}

/// The extension by zeros to a width.
fn extension_to(width: u32) -> Op
    ensures { result ≡ Op.Zext width }
{
    Op::Zext {
        width: u64::from(width),
    }
}

/// Whether a number is at least the greatest of a width, or else past it.
fn is_past(by_ones: bool, width: u32, number: u64) -> bool
    ensures { result ≡ nat_le (if by_ones then 2 ^ width - 1 else 2 ^ width) number }
{
    if by_ones {
        is_ones_or_more(width, number)
    } else {
        is_more_than_ones(width, number)
    }
}

/// Whether a number is past those of a width.
fn is_more_than_ones(width: u32, number: u64) -> bool
    ensures { result ≡ nat_le (2 ^ width) number }
{
    if width >= 64 {
        false
    } else {
        1 << width <= number
    }
}

/// Whether a number is at least the greatest of a width.
fn is_ones_or_more(width: u32, number: u64) -> bool
    ensures { result ≡ nat_le (2 ^ width - 1) number }
{
    if width >= 64 {
        width == 64 && number == u64::MAX
    } else {
        (1 << width) - 1 <= number
    }
}

/// Whether a number is the greatest of a width.
fn is_ones(width: u32, number: u64) -> bool
    ensures { result ≡ (number == 2 ^ width - 1) }
{
    if width >= 64 {
        width == 64 && number == u64::MAX
    } else {
        (1 << width) - 1 == number
    }
}

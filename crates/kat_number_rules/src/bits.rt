//! The rules on products and on operations bit by bit.

ghost use Rattle.std.specs.Prelude.{◌≡◌, ◌∷◌, [], ◌-◌, ◌^◌, ◌==◌, IfOk};
ghost use Rattle.kat_value.specs.Numbers.{IsNumber};
ghost use Rattle.kat_rules.specs.ByOperation.{rules_at};
ghost use Rattle.kat_rules.specs.Rules.{first_of};
ghost use Rattle.kat_rules.specs.BitOperations.{mul_of_zero, band_of_zero, mul_of_one, band_of_ones, bor_of_zero, bxor_of_zero, bor_of_ones, bxor_of_ones, bxor_of_same};

use crate::sums::out_of_order;
use kat_rules::{fitting_number_in, one_of_same, width_in};
use kat_term::{Number, Term, apply_one, args_of, bits, copy_term, same_term};
use kat_value::{Op, Ty, apply};
use std::alloc::{AllocError, Global};

/// The right side of the first rule on `mul` that is there.
pub fn product_rule(alloc: Global, vars: &[Ty], term: &Term) -> Result<Option<Term>, AllocError>
    ensures { IfOk result (λ r. r ≡ first_of (rules_at Op.Mul) vars.now term.now) }
{
    if let Some(right) = out_of_order(alloc, Op::Mul, vars, term)? {
        return Ok(Some(right));
    }
    mul_of_literal(alloc, vars, term)
}

/// The same of `band`.
pub fn band_rule(alloc: Global, vars: &[Ty], term: &Term) -> Result<Option<Term>, AllocError>
    ensures { IfOk result (λ r. r ≡ first_of (rules_at Op.Band) vars.now term.now) }
{
    if let Some(right) = out_of_order(alloc, Op::Band, vars, term)? {
        return Ok(Some(right));
    }
    if let Some(right) = band_of_literal(alloc, vars, term)? {
        return Ok(Some(right));
    }
    one_of_same(alloc, Op::Band, vars, term)
}

/// The same of `bor`.
pub fn bor_rule(alloc: Global, vars: &[Ty], term: &Term) -> Result<Option<Term>, AllocError>
    ensures { IfOk result (λ r. r ≡ first_of (rules_at Op.Bor) vars.now term.now) }
{
    if let Some(right) = out_of_order(alloc, Op::Bor, vars, term)? {
        return Ok(Some(right));
    }
    if let Some(right) = bor_of_zero(alloc, vars, term)? {
        return Ok(Some(right));
    }
    if let Some(right) = one_of_same(alloc, Op::Bor, vars, term)? {
        return Ok(Some(right));
    }
    bor_of_ones(alloc, vars, term)
}

/// The same of `bxor`.
pub fn bxor_rule(alloc: Global, vars: &[Ty], term: &Term) -> Result<Option<Term>, AllocError>
    ensures { IfOk result (λ r. r ≡ first_of (rules_at Op.Bxor) vars.now term.now) }
{
    if let Some(right) = out_of_order(alloc, Op::Bxor, vars, term)? {
        return Ok(Some(right));
    }
    if let Some(right) = bxor_of_literal(alloc, vars, term)? {
        return Ok(Some(right));
    }
    bxor_of_same(alloc, vars, term)
}

/// Whether a number has all bits of its width.
fn is_ones(literal: Number) -> bool
    requires { IsNumber literal.width literal.number }
    ensures { result ≡ (literal.number == 2 ^ literal.width - 1) }
{
    apply(Op::Bnot, literal.width, literal.number, 0) == 0
}

/// mul(0,a) is 0, and mul(1,a) is a
fn mul_of_literal(alloc: Global, _vars: &[Ty], term: &Term) -> Result<Option<Term>, AllocError>
    ensures { IfOk result (λ r. r ≡ first_of (mul_of_zero ∷ mul_of_one ∷ []) _vars.now term.now) }
{
    let Some(sides) = args_of(Op::Mul, term) else {
        return Ok(None);
    };
    let Some(literal) = fitting_number_in(sides.first) else {
        return Ok(None);
    };
    match literal.number {
        0 => Ok(Some(bits(literal.width, 0))),
        1 => Ok(Some(copy_term(alloc, sides.second)?)),
        _ => Ok(None),
    }
}

/// band(0,a) is 0, and band(ones,a) is a
fn band_of_literal(alloc: Global, _vars: &[Ty], term: &Term) -> Result<Option<Term>, AllocError>
    ensures { IfOk result (λ r. r
        ≡ first_of (band_of_zero ∷ band_of_ones ∷ []) _vars.now term.now) }
{
    let Some(sides) = args_of(Op::Band, term) else {
        return Ok(None);
    };
    let Some(literal) = fitting_number_in(sides.first) else {
        return Ok(None);
    };
    if literal.number == 0 {
        return Ok(Some(bits(literal.width, 0)));
    }
    if is_ones(literal) {
        return Ok(Some(copy_term(alloc, sides.second)?));
    }
    Ok(None)
}

/// bor(0,a) is a
fn bor_of_zero(alloc: Global, _vars: &[Ty], term: &Term) -> Result<Option<Term>, AllocError>
    ensures { IfOk result (λ r. r ≡ bor_of_zero _vars.now term.now) }
{
    let Some(sides) = args_of(Op::Bor, term) else {
        return Ok(None);
    };
    let Some(literal) = fitting_number_in(sides.first) else {
        return Ok(None);
    };
    if literal.number != 0 {
        return Ok(None);
    }
    Ok(Some(copy_term(alloc, sides.second)?))
}

/// bor(ones,a) is ones
fn bor_of_ones(_alloc: Global, _vars: &[Ty], term: &Term) -> Result<Option<Term>, AllocError>
    ensures { IfOk result (λ r. r ≡ bor_of_ones _vars.now term.now) }
{
    let Some(sides) = args_of(Op::Bor, term) else {
        return Ok(None);
    };
    let Some(literal) = fitting_number_in(sides.first) else {
        return Ok(None);
    };
    if !is_ones(literal) {
        return Ok(None);
    }
    Ok(Some(bits(literal.width, literal.number)))
}

/// bxor(0,a) is a, and bxor(ones,a) is bnot a
fn bxor_of_literal(alloc: Global, _vars: &[Ty], term: &Term) -> Result<Option<Term>, AllocError>
    ensures { IfOk result (λ r. r
        ≡ first_of (bxor_of_zero ∷ bxor_of_ones ∷ []) _vars.now term.now) }
{
    let Some(sides) = args_of(Op::Bxor, term) else {
        return Ok(None);
    };
    let Some(literal) = fitting_number_in(sides.first) else {
        return Ok(None);
    };
    if literal.number == 0 {
        return Ok(Some(copy_term(alloc, sides.second)?));
    }
    if is_ones(literal) {
        let rest = copy_term(alloc, sides.second)?;
        return Ok(Some(apply_one(alloc, Op::Bnot, rest)?));
    }
    Ok(None)
}

/// bxor(a,a) is 0
fn bxor_of_same(_alloc: Global, vars: &[Ty], term: &Term) -> Result<Option<Term>, AllocError>
    ensures { IfOk result (λ r. r ≡ bxor_of_same vars.now term.now) }
{
    let Some(sides) = args_of(Op::Bxor, term) else {
        return Ok(None);
    };
    if !same_term(sides.first, sides.second) {
        return Ok(None);
    }
    match width_in(vars, sides.first) {
        Some(width) => Ok(Some(bits(width, 0))),
        None => Ok(None),
    }
}

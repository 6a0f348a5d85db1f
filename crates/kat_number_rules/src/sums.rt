//! The rules on sums and differences, and on the order of the sides of operations.

ghost use Rattle.std.specs.Prelude.{◌≡◌, ◌∷◌, [], IfOk};
ghost use Rattle.kat_term.specs.Views.{bits, two};
ghost use Rattle.kat_rules.specs.ByOperation.{rules_at};
ghost use Rattle.kat_rules.specs.Rules.{first_of};
ghost use Rattle.kat_rules.specs.Sums.{sub_of_same, sub_of_literal, out_of_order, add_out_of_order, mul_out_of_order, band_out_of_order, bor_out_of_order, bxor_out_of_order, add_of_zero, add_of_literals, add_of_second_sum, add_of_first_sum};

use kat_rules::{fitting_number_in, is_after, width_in};
use kat_term::{Number, Term, apply_two, args_of, bits, copy_term, same_term};
use kat_value::{Op, Ty, apply};
use std::alloc::{AllocError, Global};

/// The right side of the first rule on `add` that is there.
pub fn sum_rule(alloc: Global, vars: &[Ty], term: &Term) -> Result<Option<Term>, AllocError>
    ensures { IfOk result (λ r. r ≡ first_of (rules_at Op.Add) vars.now term.now) }
{
    if let Some(right) = out_of_order(alloc, Op::Add, vars, term)? {
        return Ok(Some(right));
    }
    if let Some(right) = add_of_literal(alloc, vars, term)? {
        return Ok(Some(right));
    }
    if let Some(right) = add_of_second_sum(alloc, vars, term)? {
        return Ok(Some(right));
    }
    add_of_first_sum(alloc, vars, term)
}

/// The same of `sub`.
pub fn difference_rule(alloc: Global, vars: &[Ty], term: &Term) -> Result<Option<Term>, AllocError>
    ensures { IfOk result (λ r. r ≡ first_of (rules_at Op.Sub) vars.now term.now) }
{
    if let Some(right) = sub_of_same(alloc, vars, term)? {
        return Ok(Some(right));
    }
    sub_of_literal(alloc, vars, term)
}

/// sub(a,a) is 0
fn sub_of_same(_alloc: Global, vars: &[Ty], term: &Term) -> Result<Option<Term>, AllocError>
    ensures { IfOk result (λ r. r ≡ sub_of_same vars.now term.now) }
{
    let Some(sides) = args_of(Op::Sub, term) else {
        return Ok(None);
    };
    let Some(width) = width_in(vars, sides.first) else {
        return Ok(None);
    };
    if same_term(sides.first, sides.second) {
        Ok(Some(bits(width, 0)))
    } else {
        Ok(None)
    }
}

/// sub(a,n) is add(-n, a), modulo 2^w
fn sub_of_literal(alloc: Global, _vars: &[Ty], term: &Term) -> Result<Option<Term>, AllocError>
    ensures { IfOk result (λ r. r ≡ sub_of_literal _vars.now term.now) }
{
    let Some(sides) = args_of(Op::Sub, term) else {
        return Ok(None);
    };
    let Some(literal) = fitting_number_in(sides.second) else {
        return Ok(None);
    };
    let negative = bits(
        literal.width,
        apply(Op::Sub, literal.width, 0, literal.number),
    );
    let rest = copy_term(alloc, sides.first)?;
    Ok(Some(apply_two(alloc, Op::Add, negative, rest)?))
}

/// An operation whose second side is before the first has them swapped.
pub fn out_of_order(
    alloc: Global,
    op: Op,
    _vars: &[Ty],
    term: &Term,
) -> Result<Option<Term>, AllocError>
    ensures { IfOk result (λ r. r ≡ out_of_order op _vars.now term.now) }
{
    let Some(sides) = args_of(op, term) else {
        return Ok(None);
    };
    if !is_after(sides.first, sides.second) {
        return Ok(None);
    }
    let first = copy_term(alloc, sides.second)?;
    let second = copy_term(alloc, sides.first)?;
    Ok(Some(apply_two(alloc, op, first, second)?))
}

/// add(0,a) is a, and add(m, add(n,a)) is add(m+n, a), modulo 2^w
fn add_of_literal(alloc: Global, _vars: &[Ty], term: &Term) -> Result<Option<Term>, AllocError>
    ensures { IfOk result (λ r. r
        ≡ first_of (add_of_zero ∷ add_of_literals ∷ []) _vars.now term.now) }
{
    let Some(whole) = args_of(Op::Add, term) else {
        return Ok(None);
    };
    let Some(first) = fitting_number_in(whole.first) else {
        return Ok(None);
    };
    if first.number == 0 {
        return Ok(Some(copy_term(alloc, whole.second)?));
    }
    let Some(sum) = args_of(Op::Add, whole.second) else {
        return Ok(None);
    };
    let Some(second) = fitting_number_in(sum.first) else {
        return Ok(None);
    };
    if second.width != first.width {
        return Ok(None);
    }
    let both = bits(
        first.width,
        apply(Op::Add, first.width, first.number, second.number),
    );
    let rest = copy_term(alloc, sum.second)?;
    Ok(Some(apply_two(alloc, Op::Add, both, rest)?))
}

/// add(a, add(n,b)) is add(n, add(a,b))
fn add_of_second_sum(alloc: Global, _vars: &[Ty], term: &Term) -> Result<Option<Term>, AllocError>
    ensures { IfOk result (λ r. r ≡ add_of_second_sum _vars.now term.now) }
{
    let Some(whole) = args_of(Op::Add, term) else {
        return Ok(None);
    };
    let Some(sum) = args_of(Op::Add, whole.second) else {
        return Ok(None);
    };
    let Some(literal) = fitting_number_in(sum.first) else {
        return Ok(None);
    };
    Ok(Some(literal_and_sum(alloc, literal, whole.first, sum.second)?))
}

/// add(add(n,a), b) is add(n, add(a,b))
fn add_of_first_sum(alloc: Global, _vars: &[Ty], term: &Term) -> Result<Option<Term>, AllocError>
    ensures { IfOk result (λ r. r ≡ add_of_first_sum _vars.now term.now) }
{
    let Some(whole) = args_of(Op::Add, term) else {
        return Ok(None);
    };
    let Some(sum) = args_of(Op::Add, whole.first) else {
        return Ok(None);
    };
    let Some(literal) = fitting_number_in(sum.first) else {
        return Ok(None);
    };
    Ok(Some(literal_and_sum(alloc, literal, sum.second, whole.second)?))
}

/// A literal and the sum of two terms, as a sum.
fn literal_and_sum(
    alloc: Global,
    literal: Number,
    first: &Term,
    second: &Term,
) -> Result<Term, AllocError>
    ensures { IfOk result (λ t. t ≡
        two Op.Add (bits literal.width literal.number) (two Op.Add first.now second.now)) }
{
    let first = copy_term(alloc, first)?;
    let second = copy_term(alloc, second)?;
    let rest = apply_two(alloc, Op::Add, first, second)?;
    apply_two(alloc, Op::Add, bits(literal.width, literal.number), rest)
}

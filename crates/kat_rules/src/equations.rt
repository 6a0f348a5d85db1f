//! The rules on equations.

ghost use Rattle.std.specs.Prelude.{◌≡◌, ◌∷◌, [], ◌^◌, ◌/◌, ◌%◌, ◌<◌, IfOk, nat_lt};
ghost use Rattle.kat_term.specs.Views.{bits, two};
ghost use Rattle.kat_rules.specs.Rules.{first_of};
ghost use Rattle.kat_rules.specs.Equations.{equation_rules, is_after, eq_of_same, equations_of, eq_of_recs, eq_of_makes, eq_out_of_order, eq_of_truth, eq_of_literal_and_add, eq_of_literal_and_bxor, eq_of_literal_and_bnot, eq_of_literal_and_zext, eq_of_literal_and_cat, eq_of_zexts, eq_of_cats, choosing, eq_of_literal_and_ite};

use crate::views::{fitting_number_in, zext_in};
use crate::widths::width_in;
use kat_term::{
    Term, apply_one, apply_two, arg_of, args_of, bits, compare_terms, copy_term, made_in, rec_in,
    same_term, three_args_of, truth, truth_in,
};
use kat_value::{Op, Ty, apply};
use std::alloc::{AllocError, Global};
use std::cmp::Ordering;

/// The first rule on equations whose left side is there.
pub fn equation_rule(alloc: Global, vars: &[Ty], term: &Term) -> Result<Option<Term>, AllocError>
    ensures { IfOk result (λ r. r ≡ first_of equation_rules vars.now term.now) }
{
    if let Some(right) = eq_of_same(alloc, vars, term)? {
        return Ok(Some(right));
    }
    if let Some(right) = eq_of_recs(alloc, vars, term)? {
        return Ok(Some(right));
    }
    if let Some(right) = eq_of_makes(alloc, vars, term)? {
        return Ok(Some(right));
    }
    if let Some(right) = eq_out_of_order(alloc, vars, term)? {
        return Ok(Some(right));
    }
    if let Some(right) = eq_of_truth(alloc, vars, term)? {
        return Ok(Some(right));
    }
    literal_or_part_rule(alloc, vars, term)
}

/// The same, from the rules on a literal and an operation on.
fn literal_or_part_rule(alloc: Global, vars: &[Ty], term: &Term) -> Result<Option<Term>, AllocError>
    ensures { IfOk result (λ r. r
        ≡ first_of (eq_of_literal_and_add ∷ eq_of_literal_and_bxor ∷ eq_of_literal_and_bnot
        ∷ eq_of_literal_and_zext ∷ eq_of_literal_and_cat ∷ eq_of_zexts ∷ eq_of_cats
        ∷ eq_of_literal_and_ite ∷ []) vars.now term.now) }
{
    if let Some(right) = eq_of_literal_and_add(alloc, vars, term)? {
        return Ok(Some(right));
    }
    if let Some(right) = eq_of_literal_and_bxor(alloc, vars, term)? {
        return Ok(Some(right));
    }
    if let Some(right) = eq_of_literal_and_bnot(alloc, vars, term)? {
        return Ok(Some(right));
    }
    if let Some(right) = eq_of_literal_and_zext(alloc, vars, term)? {
        return Ok(Some(right));
    }
    part_rule(alloc, vars, term)
}

/// The same, from the rules on `cat` on.
fn part_rule(alloc: Global, vars: &[Ty], term: &Term) -> Result<Option<Term>, AllocError>
    ensures { IfOk result (λ r. r
        ≡ first_of (eq_of_literal_and_cat ∷ eq_of_zexts ∷ eq_of_cats ∷ eq_of_literal_and_ite ∷ [])
        vars.now term.now) }
{
    if let Some(right) = eq_of_literal_and_cat(alloc, vars, term)? {
        return Ok(Some(right));
    }
    if let Some(right) = eq_of_zexts(alloc, vars, term)? {
        return Ok(Some(right));
    }
    if let Some(right) = eq_of_cats(alloc, vars, term)? {
        return Ok(Some(right));
    }
    eq_of_literal_and_ite(alloc, vars, term)
}

/// Whether the second of two terms is before the first.
pub fn is_after(a: &Term, b: &Term) -> bool
    ensures { result ≡ is_after a.now b.now }
{
    compare_terms(a, b) == Ordering::Greater
}

/// eq(a,a) is true
pub fn eq_of_same(_alloc: Global, _vars: &[Ty], term: &Term) -> Result<Option<Term>, AllocError>
    ensures { IfOk result (λ r. r ≡ eq_of_same _vars.now term.now) }
{
    let Some(sides) = args_of(Op::Eq, term) else {
        return Ok(None);
    };
    if same_term(sides.first, sides.second) {
        Ok(Some(truth(true)))
    } else {
        Ok(None)
    }
}

/// eq of two `rec` is the right-nested `and` of the fields' eq
pub fn eq_of_recs(alloc: Global, _vars: &[Ty], term: &Term) -> Result<Option<Term>, AllocError>
    ensures { IfOk result (λ r. r ≡ eq_of_recs _vars.now term.now) }
{
    let Some(sides) = args_of(Op::Eq, term) else {
        return Ok(None);
    };
    let Some(first) = rec_in(sides.first) else {
        return Ok(None);
    };
    let Some(second) = rec_in(sides.second) else {
        return Ok(None);
    };
    if first.of == second.of {
        equations_of(alloc, first.fields, second.fields)
    } else {
        Ok(None)
    }
}

/// The equations of terms in pairs, a right-nested `and`; none of no terms, or where one list is
/// longer.
fn equations_of(alloc: Global, terms: &[Term], others: &[Term]) -> Result<Option<Term>, AllocError>
    ensures { IfOk result (λ r. r ≡ equations_of terms.now others.now) }
{
    let [a, terms @ ..] = terms else {
        return Ok(None);
    };
    let [b, others @ ..] = others else {
        return Ok(None);
    };
    equations_from(alloc, terms, others, a, b)
}

/// The same, with the first term of each list told by itself.
fn equations_from(
    alloc: Global,
    terms: &[Term],
    others: &[Term],
    a: &Term,
    b: &Term,
) -> Result<Option<Term>, AllocError>
    ensures { IfOk result (λ r. r ≡ equations_of (a.now ∷ terms.now) (b.now ∷ others.now)) }
{
    let [next, terms @ ..] = terms else {
        return last_equation(alloc, others, a, b);
    };
    let [other, others @ ..] = others else {
        return Ok(None);
    };
    let Some(rest) = equations_from(alloc, terms, others, next, other)? else {
        return Ok(None);
    };
    let first = eq_of_copies(alloc, a, b)?;
    Ok(Some(apply_two(alloc, Op::And, first, rest)?))
}

/// The equation of the last term of a list and a term that others may stand behind.
fn last_equation(
    alloc: Global,
    others: &[Term],
    a: &Term,
    b: &Term,
) -> Result<Option<Term>, AllocError>
    ensures { IfOk result (λ r. r ≡ equations_of (a.now ∷ []) (b.now ∷ others.now)) }
{
    match others {
        [] => Ok(Some(eq_of_copies(alloc, a, b)?)),
        [_, ..] => Ok(None),
    }
}

/// The equation of two terms.
fn eq_of_copies(alloc: Global, a: &Term, b: &Term) -> Result<Term, AllocError>
    ensures { IfOk result (λ t. t ≡ two Op.Eq a.now b.now) }
{
    let first = copy_term(alloc, a)?;
    let second = copy_term(alloc, b)?;
    apply_two(alloc, Op::Eq, first, second)
}

/// The equation of a number and a term.
fn eq_of_number(alloc: Global, width: u32, number: u64, a: &Term) -> Result<Term, AllocError>
    ensures { IfOk result (λ t. t ≡ two Op.Eq (bits width number) a.now) }
{
    let second = copy_term(alloc, a)?;
    apply_two(alloc, Op::Eq, bits(width, number), second)
}

/// eq(make K a, make K b) is eq(a,b); of two constructors it is false
pub fn eq_of_makes(alloc: Global, _vars: &[Ty], term: &Term) -> Result<Option<Term>, AllocError>
    ensures { IfOk result (λ r. r ≡ eq_of_makes _vars.now term.now) }
{
    let Some(sides) = args_of(Op::Eq, term) else {
        return Ok(None);
    };
    let Some(first) = made_in(sides.first) else {
        return Ok(None);
    };
    let Some(second) = made_in(sides.second) else {
        return Ok(None);
    };
    if first.of != second.of {
        return Ok(None);
    }
    if first.ctor != second.ctor {
        return Ok(Some(truth(false)));
    }
    Ok(Some(eq_of_copies(alloc, first.inner, second.inner)?))
}

/// eq(a,b) with b before a in the order is eq(b,a)
pub fn eq_out_of_order(alloc: Global, _vars: &[Ty], term: &Term) -> Result<Option<Term>, AllocError>
    ensures { IfOk result (λ r. r ≡ eq_out_of_order _vars.now term.now) }
{
    let Some(sides) = args_of(Op::Eq, term) else {
        return Ok(None);
    };
    if !is_after(sides.first, sides.second) {
        return Ok(None);
    }
    Ok(Some(eq_of_copies(alloc, sides.second, sides.first)?))
}

/// eq(true,a) is a; eq(false,a) is not a
pub fn eq_of_truth(alloc: Global, _vars: &[Ty], term: &Term) -> Result<Option<Term>, AllocError>
    ensures { IfOk result (λ r. r ≡ eq_of_truth _vars.now term.now) }
{
    let Some(sides) = args_of(Op::Eq, term) else {
        return Ok(None);
    };
    let Some(holds) = truth_in(sides.first) else {
        return Ok(None);
    };
    let other = copy_term(alloc, sides.second)?;
    if holds {
        Ok(Some(other))
    } else {
        Ok(Some(apply_one(alloc, Op::Not, other)?))
    }
}

/// eq(m, add(n,a)) is eq(m-n, a), modulo 2^w
pub fn eq_of_literal_and_add(
    alloc: Global,
    _vars: &[Ty],
    term: &Term,
) -> Result<Option<Term>, AllocError>
    ensures { IfOk result (λ r. r ≡ eq_of_literal_and_add _vars.now term.now) }
{
    let Some(sides) = args_of(Op::Eq, term) else {
        return Ok(None);
    };
    let Some(whole) = fitting_number_in(sides.first) else {
        return Ok(None);
    };
    let Some(sum) = args_of(Op::Add, sides.second) else {
        return Ok(None);
    };
    let Some(part) = fitting_number_in(sum.first) else {
        return Ok(None);
    };
    if part.width != whole.width {
        return Ok(None);
    }
    let rest = apply(Op::Sub, whole.width, whole.number, part.number);
    Ok(Some(eq_of_number(alloc, whole.width, rest, sum.second)?))
}

/// eq(m, bxor(n,a)) is eq(m bxor n, a)
pub fn eq_of_literal_and_bxor(
    alloc: Global,
    _vars: &[Ty],
    term: &Term,
) -> Result<Option<Term>, AllocError>
    ensures { IfOk result (λ r. r ≡ eq_of_literal_and_bxor _vars.now term.now) }
{
    let Some(sides) = args_of(Op::Eq, term) else {
        return Ok(None);
    };
    let Some(whole) = fitting_number_in(sides.first) else {
        return Ok(None);
    };
    let Some(sum) = args_of(Op::Bxor, sides.second) else {
        return Ok(None);
    };
    let Some(part) = fitting_number_in(sum.first) else {
        return Ok(None);
    };
    if part.width != whole.width {
        return Ok(None);
    }
    let rest = apply(Op::Bxor, whole.width, whole.number, part.number);
    Ok(Some(eq_of_number(alloc, whole.width, rest, sum.second)?))
}

/// eq(m, bnot a) is eq(ones-m, a)
pub fn eq_of_literal_and_bnot(
    alloc: Global,
    _vars: &[Ty],
    term: &Term,
) -> Result<Option<Term>, AllocError>
    ensures { IfOk result (λ r. r ≡ eq_of_literal_and_bnot _vars.now term.now) }
{
    let Some(sides) = args_of(Op::Eq, term) else {
        return Ok(None);
    };
    let Some(whole) = fitting_number_in(sides.first) else {
        return Ok(None);
    };
    let Some(a) = arg_of(Op::Bnot, sides.second) else {
        return Ok(None);
    };
    let rest = apply(Op::Bnot, whole.width, whole.number, 0);
    Ok(Some(eq_of_number(alloc, whole.width, rest, a)?))
}

/// eq(m, zext a) is eq(m,a) where m fits a's width, else false
pub fn eq_of_literal_and_zext(
    alloc: Global,
    vars: &[Ty],
    term: &Term,
) -> Result<Option<Term>, AllocError>
    ensures { IfOk result (λ r. r ≡ eq_of_literal_and_zext vars.now term.now) }
{
    let Some(sides) = args_of(Op::Eq, term) else {
        return Ok(None);
    };
    let Some(literal) = fitting_number_in(sides.first) else {
        return Ok(None);
    };
    let wide = u64::from(literal.width);
    let Some(a) = arg_of(Op::Zext { width: wide }, sides.second) else {
        return Ok(None);
    };
    let Some(width) = width_in(vars, a) else {
        return Ok(None);
    };
    if !is_below(width, literal.number) {
        return Ok(Some(truth(false)));
    }
    Ok(Some(eq_of_number(alloc, width, literal.number, a)?))
}

/// Whether a number is below 2 to the power of this.
fn is_below(width: u32, number: u64) -> bool
    ensures { result ≡ nat_lt number (2 ^ width) }
{
    if width >= 64 {
        true
    } else {
        number < 1 << width
    }
}

/// eq(m, cat(a,b)) is and(eq(high part,a), eq(low part,b))
pub fn eq_of_literal_and_cat(
    alloc: Global,
    vars: &[Ty],
    term: &Term,
) -> Result<Option<Term>, AllocError>
    ensures { IfOk result (λ r. r ≡ eq_of_literal_and_cat vars.now term.now) }
{
    let Some(sides) = args_of(Op::Eq, term) else {
        return Ok(None);
    };
    let Some(whole) = fitting_number_in(sides.first) else {
        return Ok(None);
    };
    let Some(parts) = args_of(Op::Cat, sides.second) else {
        return Ok(None);
    };
    let Some(width) = width_in(vars, parts.second) else {
        return Ok(None);
    };
    if width >= whole.width {
        return Ok(None);
    }
    let number = high_part(width, whole.number);
    let high = eq_of_number(alloc, whole.width - width, number, parts.first)?;
    let low = eq_of_number(alloc, width, low_part(width, whole.number), parts.second)?;
    Ok(Some(apply_two(alloc, Op::And, high, low)?))
}

/// The bits of a number from this one up.
fn high_part(width: u32, number: u64) -> u64
    requires { width < 64 }
    ensures { result ≡ number / 2 ^ width }
{
    number >> width
}

/// The bits of a number below this one.
fn low_part(width: u32, number: u64) -> u64
    requires { width < 64 }
    ensures { result ≡ number % 2 ^ width }
{
    number % (1 << width)
}

/// eq(zext a, zext b) with equal widths of a and b is eq(a,b)
pub fn eq_of_zexts(alloc: Global, vars: &[Ty], term: &Term) -> Result<Option<Term>, AllocError>
    ensures { IfOk result (λ r. r ≡ eq_of_zexts vars.now term.now) }
{
    let Some(sides) = args_of(Op::Eq, term) else {
        return Ok(None);
    };
    let Some(first) = zext_in(sides.first) else {
        return Ok(None);
    };
    let Some(second) = zext_in(sides.second) else {
        return Ok(None);
    };
    let Some(width) = width_in(vars, first.of) else {
        return Ok(None);
    };
    let Some(other) = width_in(vars, second.of) else {
        return Ok(None);
    };
    if width != other {
        return Ok(None);
    }
    Ok(Some(eq_of_copies(alloc, first.of, second.of)?))
}

/// eq(cat(a,b), cat(c,d)) with equal widths of the parts is and(eq(a,c), eq(b,d))
pub fn eq_of_cats(alloc: Global, vars: &[Ty], term: &Term) -> Result<Option<Term>, AllocError>
    ensures { IfOk result (λ r. r ≡ eq_of_cats vars.now term.now) }
{
    let Some(sides) = args_of(Op::Eq, term) else {
        return Ok(None);
    };
    let Some(first) = args_of(Op::Cat, sides.first) else {
        return Ok(None);
    };
    let Some(second) = args_of(Op::Cat, sides.second) else {
        return Ok(None);
    };
    let Some(a) = width_in(vars, first.first) else {
        return Ok(None);
    };
    let Some(b) = width_in(vars, first.second) else {
        return Ok(None);
    };
    let Some(c) = width_in(vars, second.first) else {
        return Ok(None);
    };
    let Some(d) = width_in(vars, second.second) else {
        return Ok(None);
    };
    if a != c || b != d {
        return Ok(None);
    }
    let high = eq_of_copies(alloc, first.first, second.first)?;
    let low = eq_of_copies(alloc, first.second, second.second)?;
    Ok(Some(apply_two(alloc, Op::And, high, low)?))
}

/// eq(m, ite(c,p,q)), where p and q differ, is c where p = m, not c where q = m, else false
pub fn eq_of_literal_and_ite(
    alloc: Global,
    _vars: &[Ty],
    term: &Term,
) -> Result<Option<Term>, AllocError>
    ensures { IfOk result (λ r. r ≡ eq_of_literal_and_ite _vars.now term.now) }
{
    let Some(sides) = args_of(Op::Eq, term) else {
        return Ok(None);
    };
    let Some(whole) = fitting_number_in(sides.first) else {
        return Ok(None);
    };
    let Some(choice) = three_args_of(Op::Ite, sides.second) else {
        return Ok(None);
    };
    let Some(second) = fitting_number_in(choice.second) else {
        return Ok(None);
    };
    if second.width != whole.width {
        return Ok(None);
    }
    let Some(third) = fitting_number_in(choice.third) else {
        return Ok(None);
    };
    if third.width != whole.width || second.number == third.number {
        return Ok(None);
    }
    Ok(Some(choosing(
        alloc,
        whole.number,
        second.number,
        third.number,
        choice.first,
    )?))
}

/// Which truth of the condition chooses this number out of two, as a term.
fn choosing(
    alloc: Global,
    number: u64,
    first: u64,
    second: u64,
    condition: &Term,
) -> Result<Term, AllocError>
    ensures { IfOk result (λ t. t ≡ choosing number first second condition.now) }
{
    if first == number {
        return copy_term(alloc, condition);
    }
    if second == number {
        let condition = copy_term(alloc, condition)?;
        return apply_one(alloc, Op::Not, condition);
    }
    Ok(truth(false))
}

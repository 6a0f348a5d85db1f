//! What a formula adds to a substitution.

ghost use Rattle.std.specs.Prelude.{◌≡◌, IfOk, Some, false, map, not};
ghost use Rattle.kat_value.specs.declared.op.Op.TheVariants.{Not};
ghost use Rattle.kat_term.specs.Views.{var_of};
ghost use Rattle.kat_known.specs.Views.{with_one, where_so};
ghost use Rattle.kat_solver.specs.Pairs.{any_of, has_var, pair, pair_of, pair_of_sides, pair_of_truth, pair_of_variables};

use kat_norm::Pair;
use kat_term::{Shape, Term, arg_of, args_of, copy_term, shape_of, truth, var_in};
use kat_value::Op;
use std::alloc::{AllocError, Global};

/// What a formula adds: a variable becomes true, a negated one false, and in an equation a variable
/// is replaced by a term without it, of two variables the later by the earlier.
pub fn pair_of(alloc: Global, formula: &Term) -> Result<Option<Pair>, AllocError>
    ensures { IfOk result (λ r. r ≡ pair_of formula.now) }
{
    if let Some(pair) = pair_of_truth(formula, true) {
        return Ok(Some(pair));
    }
    if let Some(pair) = pair_of_negation(formula) {
        return Ok(Some(pair));
    }
    match args_of(Op::Eq, formula) {
        Some(sides) => pair_of_sides(alloc, sides.first, sides.second),
        None => Ok(None),
    }
}

/// A variable of type bool becomes this truth.
fn pair_of_truth(term: &Term, holds: bool) -> Option<Pair>
    ensures { result ≡ pair_of_truth holds term.now }
{
    let number = var_in(term)?;
    Some(Pair {
        number,
        term: truth(holds),
    })
}

/// A negated variable becomes false.
fn pair_of_negation(formula: &Term) -> Option<Pair>
    ensures { result ≡ with_one Not formula.now (pair_of_truth false) }
{
    pair_of_truth(arg_of(Op::Not, formula)?, false)
}

/// The pair of an equation of two sides.
fn pair_of_sides(alloc: Global, first: &Term, second: &Term) -> Result<Option<Pair>, AllocError>
    ensures { IfOk result
        (λ r. r ≡ pair_of_sides (var_of first.now) (var_of second.now) first.now second.now) }
{
    match (var_in(first), var_in(second)) {
        (None, None) => Ok(None),
        (Some(number), None) => pair_without(alloc, number, second),
        (None, Some(number)) => pair_without(alloc, number, first),
        (Some(earlier), Some(later)) => { pair_of_variables(alloc, earlier, later, first, second) }
    }
}

/// A variable is replaced by a term without it.
fn pair_without(alloc: Global, number: u32, term: &Term) -> Result<Option<Pair>, AllocError>
    ensures { IfOk result
        (λ r. r ≡ where_so (not (has_var number term.now)) (Some (pair number term.now))) }
{
    if has_var(term, number) {
        return Ok(None);
    }
    let term = copy_term(alloc, term)?;
    Ok(Some(Pair { number, term }))
}

/// Of two variables the later is replaced by the earlier.
fn pair_of_variables(
    alloc: Global,
    i: u32,
    j: u32,
    first: &Term,
    second: &Term,
) -> Result<Option<Pair>, AllocError>
    ensures { IfOk result (λ r. r ≡ pair_of_variables i j first.now second.now) }
{
    if i == j {
        return Ok(None);
    }
    if i < j {
        let term = copy_term(alloc, first)?;
        return Ok(Some(Pair { number: j, term }));
    }
    let term = copy_term(alloc, second)?;
    Ok(Some(Pair { number: i, term }))
}

/// Whether the variable of this number stands in a term.
#[cycle(has_var)]
fn has_var(term: &Term, number: u32) -> bool
    ensures { result ≡ has_var number term.now }
{
    match shape_of(term) {
        Shape::Var(found) => found == number,
        Shape::Lit(_) => false,
        Shape::Apply { args, .. } => any_has_var(args, number),
        Shape::Make { inner, .. } => has_var(inner, number),
        Shape::Rec { fields, .. } => any_has_var(fields, number),
    }
}

/// The same of one of several terms.
#[cycle(has_var)]
fn any_has_var(terms: &[Term], number: u32) -> bool
    ensures { result ≡ any_of (map (has_var number) terms.now) }
{
    for term in terms {
        if has_var(term, number) {
            return true;
        }
    }
    false
}

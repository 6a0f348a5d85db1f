//! Terms brought to their normal forms.

ghost use Rattle.std.specs.Prelude.{◌≡◌, ◌<◌, ◌≤◌, IfOk, Some};
ghost use Rattle.kat_term.specs.Provers.{AnswersNorm};
ghost use Rattle.kat_term.specs.declared.term.Term.TheViews.{out-Term as layer_of};
ghost use Rattle.kat_rules.specs.RightSides.{parts_of, AllHoldBelow, HoldsBelow};
ghost use Rattle.kat_rules.specs.Rules.{rule_of};
ghost use Rattle.kat_norm.specs.Answers.{Answers};
ghost use Rattle.kat_norm.specs.Kept.{HasItsType, HasItsValue};
ghost use Rattle.kat_norm.specs.Levels.{is_normal};
ghost use Rattle.kat_norm.specs.Norm.{norm_all, norm_by, norm_from, norm_of, norm_parts, normal_in, right_parts};

use crate::laws::{normal_forms_keep_types, normal_forms_keep_values};
use crate::levels::levels_of;
use crate::limits::{MAX_RULES, within_limits};
use crate::substitution::{Substitution, substituted};
use kat_number_rules::right_side;
use kat_rules::right_sides_are_shallow;
use kat_term::{
    MAX_DEPTH, NormError, Shape, Term, Terms, World, apply, copy_term, make, rec, shape_of,
};
use kat_value::Ty;
use sqlite_items::Items;
use std::alloc::Global;

/// The normal form of a term of a world under a substitution. `Nodes` and `Depth` come exactly
/// where the term with the pairs put in, a right side or the result passes the limit, the first of
/// them that does; `Rules` where one rule more than 1,000,000 would be used.
pub fn rewrite(
    alloc: Global,
    world: &World,
    substitution: &Substitution,
    term: Term,
) -> Result<Term, NormError>
    ensures normal { AnswersNorm result (norm_of world.now.vars substitution.now term) }
    ensures kept { IfOk result (HasItsValue world.now.vars substitution.now term) }
    ensures typed { IfOk result (HasItsType world.now.vars substitution.now term) }
{
    normal_forms_keep_values();
    normal_forms_keep_types();
    let whole = substituted(alloc, substitution, term)?;
    normal_form(alloc, world.vars(), &whole)
}

/// The normal form of a term over variables of these types, with all limits asked.
fn normal_form(alloc: Global, vars: &[Ty], term: &Term) -> Result<Term, NormError>
    ensures { AnswersNorm result (normal_in (norm_by (rule_of vars.now) term.now)) }
{
    within_limits(term)?;
    let mut left = MAX_RULES;
    let normal = norm_term(term, MAX_DEPTH, alloc, vars, &mut left)?;
    within_limits(&normal)?;
    Ok(normal)
}

/// The normal form of a term, with so many rules left: its parts are normed, then the first rule
/// that is there is used, and its right side is normed in its turn. All that stands so many levels
/// below the term is normal and stays as it is.
#[cycle(norm)]
fn norm_term(
    term: &Term,
    levels: u32,
    alloc: Global,
    vars: &[Ty],
    left: &mut u32,
) -> Result<Term, NormError>
    requires { HoldsBelow (is_normal (rule_of vars.now)) levels term.now }
    ensures normal { Answers result left.new (norm_from (rule_of vars.now) left.old term.now) }
    ensures spent { left.new ≤ left.old }
{
    if levels == 0 {
        return Ok(copy_term(alloc, term)?);
    }
    let mut current = norm_parts(term, levels - 1, alloc, vars, left)?;
    while let Some(right) = right_side(alloc, vars, &current)? {
        current = norm_right(right, &current, alloc, vars, left)?;
    }
    Ok(current)
}

/// The right side of the rule at a term of normal parts, with its parts normed: one rule is spent,
/// and its limits are asked.
#[cycle(norm)]
fn norm_right(
    right: Term,
    term: &Term,
    alloc: Global,
    vars: &[Ty],
    left: &mut u32,
) -> Result<Term, NormError>
    requires rule { rule_of vars.now term.now ≡ Some right }
    requires parts { HoldsBelow (is_normal (rule_of vars.now)) 1 term.now }
    ensures normal { Answers result left.new (right_parts (rule_of vars.now) left.old right) }
    ensures spent { IfOk result (λ _. left.new < left.old) }
    ensures more { left.new ≤ left.old }
{
    if *left == 0 {
        return Err(NormError::Rules);
    }
    *left -= 1;
    within_limits(&right)?;
    right_sides_are_shallow();
    norm_parts(&right, levels_of(term) - 1, alloc, vars, left)
}

/// The term with its parts normed, from left to right. All that stands so many levels below them
/// is normal.
#[cycle(norm)]
fn norm_parts(
    term: &Term,
    levels: u32,
    alloc: Global,
    vars: &[Ty],
    left: &mut u32,
) -> Result<Term, NormError>
    requires { AllHoldBelow (is_normal (rule_of vars.now)) levels (parts_of term.now) }
    ensures normal { Answers result left.new
        (norm_parts (rule_of vars.now) left.old (layer_of term.now)) }
    ensures spent { left.new ≤ left.old }
{
    if levels == 0 {
        return Ok(copy_term(alloc, term)?);
    }
    match shape_of(term) {
        Shape::Apply { op, args } => {
            let args = norm_terms(args, levels, alloc, vars, left)?;
            Ok(apply(alloc, op, args)?)
        }
        Shape::Make { of, ctor, inner } => {
            let inner = norm_term(inner, levels, alloc, vars, left)?;
            Ok(make(alloc, of, ctor, inner)?)
        }
        Shape::Rec { of, fields } => {
            let fields = norm_terms(fields, levels, alloc, vars, left)?;
            Ok(rec(alloc, of, fields)?)
        }
        Shape::Var(_) | Shape::Lit(_) => Ok(copy_term(alloc, term)?),
    }
}

/// The normal forms of terms, from left to right. All that stands so many levels below them is
/// normal.
#[cycle(norm)]
fn norm_terms(
    terms: &[Term],
    levels: u32,
    alloc: Global,
    vars: &[Ty],
    left: &mut u32,
) -> Result<Terms, NormError>
    requires { AllHoldBelow (is_normal (rule_of vars.now)) levels terms.now }
    ensures normal { Answers result left.new (norm_all (rule_of vars.now) left.old terms.now) }
    ensures spent { left.new ≤ left.old }
{
    let mut normed = Items::new(alloc);
    for term in terms {
        normed.push(norm_term(term, levels, alloc, vars, left)?)?;
    }
    Ok(normed)
}

//! Parts of terms that are looked for, and the atom of a split.

ghost use Rattle.std.specs.Prelude.{◌≡◌, IfOk};
ghost use Rattle.std.specs.Option.{option_copied};
ghost use Rattle.kat_known.specs.First.{first_among, first_where};
ghost use Rattle.kat_known.specs.Normal.{norm_in};
ghost use Rattle.kat_known.specs.Views.{is_atom};
ghost use Rattle.kat_solver.specs.Add.{is_or};
ghost use Rattle.kat_solver.specs.Prove.{atom_of_ite, condition_of, first_of_list, is_open, split_atom};
ghost use Rattle.kat_solver.specs.Sought.{test_of};

use kat_known::{is_atom, known, parts_are_found};
use kat_term::{Shape, Term, World, args_of, copy_term, shape_of, three_args_of};
use kat_value::Op;
use std::alloc::{AllocError, Global};

/// The atom of a split: the first of the first `or` in the list; where it has none, the first that
/// is not known in the condition of the first `ite` of the goal.
pub fn split_atom(
    alloc: Global,
    world: &World,
    list: &[Term],
    goal: &Term,
) -> Result<Option<Term>, AllocError>
    ensures { IfOk result (λ r. r ≡ split_atom world.now.vars (norm_in world.now.vars)
        list.now goal.now) }
{
    match first_or(list) {
        Some(formula) => first_where(formula, alloc, world, Sought::Atom),
        None => atom_of_ite(alloc, world, list, goal),
    }
}

/// The first `or` of a list.
fn first_or(list: &[Term]) -> Option<&Term>
    ensures { option_copied result ≡ first_of_list is_or list.now }
{
    for term in list {
        if args_of(Op::Or, term).is_some() {
            return Some(term);
        }
    }
    None
}

/// The first atom that is not known in the condition of the first `ite`.
fn atom_of_ite(
    alloc: Global,
    world: &World,
    list: &[Term],
    goal: &Term,
) -> Result<Option<Term>, AllocError>
    ensures { IfOk result (λ r. r ≡ atom_of_ite world.now.vars (norm_in world.now.vars)
        list.now goal.now) }
{
    let Some(ite) = first_where(goal, alloc, world, Sought::Ite)? else {
        return Ok(None);
    };
    match condition_of(&ite) {
        Some(condition) => first_where(condition, alloc, world, Sought::Unknown(list)),
        None => Ok(None),
    }
}

/// The condition of a term that is an `ite`.
fn condition_of(term: &Term) -> Option<&Term>
    ensures { option_copied result ≡ condition_of term.now }
{
    match three_args_of(Op::Ite, term) {
        Some(ite) => Some(ite.first),
        None => None,
    }
}

/// What is looked for in a term.
#[derive(Clone, Copy, Drop)]
pub enum Sought<'a> {
    /// An `ite`.
    Ite,
    /// An atom.
    Atom,
    /// An atom that is not known by a list.
    Unknown(&'a [Term]),
}

/// The first part of a term that is looked for, outermost and leftmost first.
#[cycle(search)]
fn first_where(
    term: &Term,
    alloc: Global,
    world: &World,
    sought: Sought<'_>,
) -> Result<Option<Term>, AllocError>
    ensures { IfOk result (λ r. r ≡ first_where
        (test_of world.now.vars (norm_in world.now.vars) sought.entry) term.now) }
{
    parts_are_found();
    if is_sought(alloc, world, sought, term)? {
        return Ok(Some(copy_term(alloc, term)?));
    }
    match shape_of(term) {
        Shape::Apply { args, .. } => first_among(args, alloc, world, sought),
        Shape::Make { inner, .. } => first_where(inner, alloc, world, sought),
        Shape::Rec { fields, .. } => first_among(fields, alloc, world, sought),
        Shape::Var(_) | Shape::Lit(_) => Ok(None),
    }
}

/// The same in several terms.
#[cycle(search)]
fn first_among(
    terms: &[Term],
    alloc: Global,
    world: &World,
    sought: Sought<'_>,
) -> Result<Option<Term>, AllocError>
    ensures { IfOk result (λ r. r ≡ first_among
        (test_of world.now.vars (norm_in world.now.vars) sought.entry) terms.now) }
{
    for term in terms {
        if let Some(found) = first_where(term, alloc, world, sought)? {
            return Ok(Some(found));
        }
    }
    Ok(None)
}

/// Whether a term is what is looked for.
fn is_sought(
    alloc: Global,
    world: &World,
    sought: Sought<'_>,
    term: &Term,
) -> Result<bool, AllocError>
    ensures { IfOk result
        (λ b. b ≡ test_of world.now.vars (norm_in world.now.vars) sought.entry term.now) }
{
    match sought {
        Sought::Ite => Ok(condition_of(term).is_some()),
        Sought::Atom => Ok(is_atom_of(world, term)),
        Sought::Unknown(list) => is_unknown(alloc, world, list, term),
    }
}

/// Whether a term of a world is an atom.
fn is_atom_of(world: &World, term: &Term) -> bool
    ensures { result ≡ is_atom world.now.vars term.now }
{
    is_atom(term, world.vars())
}

/// Whether a term is an atom that is not known by a list.
fn is_unknown(alloc: Global, world: &World, list: &[Term], term: &Term) -> Result<bool, AllocError>
    ensures { IfOk result
        (λ b. b ≡ is_open world.now.vars (norm_in world.now.vars) list.now term.now) }
{
    if !is_atom_of(world, term) {
        return Ok(false);
    }
    match known(alloc, world, list, term)? {
        Some(_) => Ok(false),
        None => Ok(true),
    }
}

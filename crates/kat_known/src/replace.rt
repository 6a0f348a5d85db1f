//! The known atoms of a term, replaced one at a time.

ghost use Rattle.std.specs.Prelude.{◌≡◌, IfOk, map};
ghost use Rattle.std.specs.Option.{option_map};
ghost use Rattle.kat_term.specs.declared.term.Term.TheVariants.{Apply as ApplyTerm, Make as MakeTerm, Rec as RecTerm};
ghost use Rattle.kat_term.specs.declared.term.Term.TheViews.{out-Term};
ghost use Rattle.kat_known.specs.Known.{known_atom};
ghost use Rattle.kat_known.specs.Normal.{norm_in};
ghost use Rattle.kat_known.specs.Parts.{part};
ghost use Rattle.kat_known.specs.Picked.{picked, Picks};
ghost use Rattle.kat_known.specs.Reduce.{here, news_of, news_layer, news_in_all};
ghost use Rattle.kat_known.specs.Views.{is_joint, is_joint_op, is_atom};

use crate::knowing::known;
use kat_rules::is_bool;
use kat_term::{Shape, Term, Terms, World, apply, copy_terms, make, rec, shape_of, truth};
use kat_value::{Op, Ty};
use std::alloc::{AllocError, Global};

/// A term with the known atom replaced before which so many are left as they are, outermost and
/// leftmost first; where there is none, `skip` counts those that are still to be left.
#[cycle(replace)]
pub fn replaced(
    term: &Term,
    alloc: Global,
    world: &World,
    list: &[Term],
    skip: &mut u32,
) -> Result<Option<Term>, AllocError>
    ensures { IfOk result (λ r. Picks r skip.new (picked
        (news_of (known_atom world.now.vars (norm_in world.now.vars) list.now) term.now)
        skip.old)) }
{
    if let Some(literal) = replaced_here(term, alloc, world, list, skip)? {
        return Ok(Some(literal));
    }
    match shape_of(term) {
        Shape::Apply { op, args } => {
            let args = replaced_in(args, alloc, world, list, skip)?;
            let term = applied(alloc, op, args)?;
            Ok(term)
        }
        Shape::Make { of, ctor, inner } => {
            let inner = replaced(inner, alloc, world, list, skip)?;
            let term = made(alloc, of, ctor, inner)?;
            Ok(term)
        }
        Shape::Rec { of, fields } => {
            let fields = replaced_in(fields, alloc, world, list, skip)?;
            let term = recorded(alloc, of, fields)?;
            Ok(term)
        }
        Shape::Var(_) | Shape::Lit(_) => Ok(None),
    }
}

/// An operation on terms that may not be there.
fn applied(alloc: Global, op: Op, args: Option<Terms>) -> Result<Option<Term>, AllocError>
    ensures { IfOk result (λ r. r ≡ option_map (ApplyTerm op) args) }
{
    match args {
        Some(args) => Ok(Some(apply(alloc, op, args)?)),
        None => Ok(None),
    }
}

/// A constructor on a payload that may not be there.
fn made(alloc: Global, of: u32, ctor: u32, inner: Option<Term>) -> Result<Option<Term>, AllocError>
    ensures { IfOk result (λ r. r ≡ option_map (MakeTerm of ctor) inner) }
{
    match inner {
        Some(inner) => Ok(Some(make(alloc, of, ctor, inner)?)),
        None => Ok(None),
    }
}

/// A record of fields that may not be there.
fn recorded(alloc: Global, of: u32, fields: Option<Terms>) -> Result<Option<Term>, AllocError>
    ensures { IfOk result (λ r. r ≡ option_map (RecTerm of) fields) }
{
    match fields {
        Some(fields) => Ok(Some(rec(alloc, of, fields)?)),
        None => Ok(None),
    }
}

/// The same of a list of terms.
#[cycle(replace)]
fn replaced_in(
    terms: &[Term],
    alloc: Global,
    world: &World,
    list: &[Term],
    skip: &mut u32,
) -> Result<Option<Terms>, AllocError>
    ensures { IfOk result (λ r. Picks r skip.new (picked (news_in_all (map (part (news_layer
        (known_atom world.now.vars (norm_in world.now.vars) list.now))) terms.now)) skip.old)) }
{
    for (index, term) in terms.iter().enumerate() {
        if let Some(new) = replaced(term, alloc, world, list, skip)? {
            let mut parts = copy_terms(alloc, terms)?;
            parts.set(index, new);
            return Ok(Some(parts));
        }
    }
    Ok(None)
}

/// The literal of a term that is a known atom, where none is to be left before it.
fn replaced_here(
    term: &Term,
    alloc: Global,
    world: &World,
    list: &[Term],
    skip: &mut u32,
) -> Result<Option<Term>, AllocError>
    ensures { IfOk result (λ r. Picks r skip.new (picked
        (here (known_atom world.now.vars (norm_in world.now.vars) list.now term.now)) skip.old)) }
{
    let Some(literal) = known_atom(alloc, world, list, term)? else {
        return Ok(None);
    };
    if *skip == 0 {
        return Ok(Some(literal));
    }
    *skip -= 1;
    Ok(None)
}

/// The literal of a known atom.
fn known_atom(
    alloc: Global,
    world: &World,
    list: &[Term],
    term: &Term,
) -> Result<Option<Term>, AllocError>
    ensures { IfOk result
        (λ r. r ≡ known_atom world.now.vars (norm_in world.now.vars) list.now term.now) }
{
    if !is_atom(term, world.vars()) {
        return Ok(None);
    }
    match known(alloc, world, list, term)? {
        Some(holds) => Ok(Some(truth(holds))),
        None => Ok(None),
    }
}

/// Whether a term over variables of these types is an atom: of type bool, and no literal, `not`,
/// `and` or `or`.
pub fn is_atom(term: &Term, vars: &[Ty]) -> bool
    ensures { result ≡ is_atom vars.now term.now }
{
    is_bool(vars, term) && !is_joint(term)
}

/// Whether a term is a literal or joins truths.
fn is_joint(term: &Term) -> bool
    ensures { result ≡ is_joint (out-Term term.now) }
{
    match shape_of(term) {
        Shape::Lit(_) => true,
        Shape::Apply { op, .. } => is_joint_op(op),
        Shape::Var(_) | Shape::Make { .. } | Shape::Rec { .. } => false,
    }
}

/// Whether an operation joins truths.
fn is_joint_op(op: Op) -> bool
    ensures { result ≡ is_joint_op op }
{
    match op {
        Op::Not | Op::And | Op::Or => true,
        _ => false,
    }
}

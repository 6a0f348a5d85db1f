//! Settled worlds.

ghost use Rattle.std.specs.Prelude.{◌≡◌, IfOk};
ghost use Rattle.kat_solver.specs.declared.settled.Settled.TheVariants.{Open};
ghost use Rattle.kat_solver.specs.Settled.{unsettled, list_of};

use kat_norm::{Pair, Substitution};
use kat_term::{Term, Terms, copy_term, copy_terms};
use sqlite_items::Items;
use std::alloc::{AllocError, Global};

/// What formulas come to: a contradiction, or terms for variables and a list of formulas that says
/// the rest. Each formula of the list is a normal form: an atom, a negated atom or an `or`.
#[derive(Drop)]
pub enum Settled {
    /// No valuation makes the formulas true.
    Closed,
    /// The terms that take the place of variables, in the order in which they were added, and the
    /// list.
    Open { pairs: Substitution, list: Terms },
}

/// The settled world of no formulas. It takes no memory.
pub fn unsettled(alloc: Global) -> Settled
    ensures { result ≡ unsettled }
{
    Settled::Open {
        pairs: Items::new(alloc),
        list: Items::new(alloc),
    }
}

/// The list of a settled world; that of a closed one is empty.
pub fn list_of(settled: &Settled) -> &[Term]
    ensures { result.now ≡ list_of settled.now }
{
    match settled {
        Settled::Closed => &[],
        Settled::Open { list, .. } => list.as_slice(),
    }
}

/// An equal settled world.
pub fn copy_settled(alloc: Global, settled: &Settled) -> Result<Settled, AllocError>
    ensures { IfOk result (λ s. s ≡ settled.now) }
{
    match settled {
        Settled::Closed => Ok(Settled::Closed),
        Settled::Open { pairs, list } => copy_open(alloc, pairs, list),
    }
}

/// A settled world of an equal substitution and an equal list.
pub fn copy_open(alloc: Global, pairs: &Substitution, list: &Terms) -> Result<Settled, AllocError>
    ensures { IfOk result (λ s. s ≡ Open pairs.now list.now) }
{
    let list = copy_terms(alloc, list.as_slice())?;
    let pairs = copy_pairs(alloc, pairs)?;
    Ok(Settled::Open { pairs, list })
}

/// An equal substitution.
fn copy_pairs(alloc: Global, pairs: &Substitution) -> Result<Substitution, AllocError>
    ensures { IfOk result (λ ps. ps ≡ pairs.now) }
{
    let mut copies = Items::new(alloc);
    for pair in pairs.as_slice() {
        copies.push(Pair {
            number: pair.number,
            term: copy_term(alloc, &pair.term)?,
        })?;
    }
    Ok(copies)
}

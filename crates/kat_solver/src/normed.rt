//! Normal forms under the substitution of a settled world.

ghost use Rattle.std.specs.Prelude.{◌≡◌, IfOk};
ghost use Rattle.kat_term.specs.Provers.{AnswersNorm};
ghost use Rattle.kat_norm.specs.Norm.{norm_of};
ghost use Rattle.kat_norm.specs.Substitution.{substituted};
ghost use Rattle.kat_known.specs.Normal.{norm_in};
ghost use Rattle.kat_solver.specs.Settled.{pairs_of};

use crate::settled::Settled;
use kat_norm::{Substitution, rewrite};
use kat_term::{NormError, Term, World};
use sqlite_items::Items;
use std::alloc::{AllocError, Global};

/// The normal form of a term of a world under a substitution, where it passes no limit.
pub fn normed_under(
    alloc: Global,
    world: &World,
    pairs: &Substitution,
    term: Term,
) -> Result<Option<Term>, AllocError>
    ensures { IfOk result (λ r. r ≡ norm_in world.now.vars (substituted pairs.now term)) }
{
    match rewrite(alloc, world, pairs, term) {
        Ok(normal) => Ok(Some(normal)),
        Err(NormError::Memory) => Err(AllocError),
        Err(NormError::Nodes | NormError::Depth | NormError::Rules) => Ok(None),
    }
}

/// The normal form of a term under the substitution of a settled world; that of a closed one is
/// empty.
pub fn rewrite_in(
    alloc: Global,
    world: &World,
    settled: &Settled,
    term: Term,
) -> Result<Term, NormError>
    ensures { AnswersNorm result (norm_of world.now.vars (pairs_of settled.now) term) }
{
    match settled {
        Settled::Closed => rewrite(alloc, world, &Items::new(alloc), term),
        Settled::Open { pairs, .. } => rewrite(alloc, world, pairs, term),
    }
}

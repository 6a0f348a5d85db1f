//! What is left of a goal.

ghost use Rattle.std.specs.Prelude.{◌≡◌, IfOk};
ghost use Rattle.kat_norm.specs.Substitution.{substituted};
ghost use Rattle.kat_known.specs.Normal.{norm_in};
ghost use Rattle.kat_solver.specs.Left.{answer_of, left_in};

use crate::normed::normed_under;
use crate::prove::is_proved;
use crate::settled::{Settled, copy_open};
use kat_known::reduced;
use kat_norm::Substitution;
use kat_term::{Answer, Term, Terms, World, copy_term};
use std::alloc::{AllocError, Global};

/// What is left of a goal in a settled world: a contradiction, where it is closed; else the goal,
/// normed and reduced by it, is proved or left. A goal that passes a limit is left as it is.
pub fn left_in(
    alloc: Global,
    world: &World,
    settled: &Settled,
    goal: &Term,
) -> Result<Answer, AllocError>
    ensures { IfOk result (λ a. a ≡ left_in world.now.vars (norm_in world.now.vars)
        settled.now goal.now) }
{
    match settled {
        Settled::Closed => Ok(Answer::Contradiction),
        Settled::Open { pairs, list } => left_open(alloc, world, pairs, list, goal),
    }
}

/// What is left of a goal in a settled world that is not closed.
fn left_open(
    alloc: Global,
    world: &World,
    pairs: &Substitution,
    list: &Terms,
    goal: &Term,
) -> Result<Answer, AllocError>
    ensures { IfOk result (λ a. a ≡ answer_of world.now.vars (norm_in world.now.vars) pairs.now
        list.now goal.now (norm_in world.now.vars (substituted pairs.now goal.now))) }
{
    let copy = copy_term(alloc, goal)?;
    let Some(normal) = normed_under(alloc, world, pairs, copy)? else {
        return Ok(Answer::Residue(copy_term(alloc, goal)?));
    };
    let residue = reduced(alloc, world, list.as_slice(), normal)?;
    let asked = copy_term(alloc, &residue)?;
    let open = copy_open(alloc, pairs, list)?;
    if is_proved(alloc, world, open, asked)? {
        Ok(Answer::Proved)
    } else {
        Ok(Answer::Residue(residue))
    }
}

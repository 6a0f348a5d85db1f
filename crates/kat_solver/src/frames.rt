//! Goals that are still to be proved, by the worlds in which they are asked.

ghost use Rattle.std.specs.Prelude.{◌≡◌, ◌++◌, ◌∷◌, map, IfOk, OnOk};
ghost use Rattle.kat_solver.specs.Frames.{asked_in, asked_of};
ghost use Rattle.kat_solver.specs.Prove.{ask};

use crate::agenda::Agenda;
use crate::settled::{Settled, copy_settled};
use kat_term::Term;
use sqlite_items::Items;
use std::alloc::{AllocError, Global};

/// Goals that are asked in one settled world: a goal, and then the others in their order.
#[derive(Drop)]
pub struct Frame {
    pub settled: Settled,
    pub goal: Term,
    pub others: Agenda,
}

/// Frames, of which the last is asked first.
pub type Frames = Items<Frame>;

/// Puts a goal before all others.
pub fn push_goal(
    alloc: Global,
    frames: &mut Frames,
    settled: Settled,
    goal: Term,
) -> Result<(), AllocError>
    ensures { OnOk result (asked_of frames.new ≡ ask settled goal ∷ asked_of frames.old) }
{
    frames.push(Frame {
        settled,
        goal,
        others: Agenda::new(alloc),
    })?;
    Ok(())
}

/// Puts goals of one world before all others.
#[tactic(auto, using(crate::proofs::FrameSteps::pushed_others))]
pub fn push_others(frames: &mut Frames, settled: Settled, others: Agenda) -> Result<(), AllocError>
    ensures { OnOk result (asked_of frames.new ≡ map (ask settled) others ++ asked_of frames.old) }
{
    let mut others = others;
    let Some(goal) = others.take_first() else {
        return Ok(());
    };
    frames.push(Frame {
        settled,
        goal,
        others,
    })?;
    Ok(())
}

/// Puts goals of one world before all others, and gives the world for another goal. It is copied
/// only if there are such goals.
#[tactic(auto, using(crate::proofs::FrameSteps::pushed_others))]
pub fn put_back(
    alloc: Global,
    frames: &mut Frames,
    settled: Settled,
    others: Agenda,
) -> Result<Settled, AllocError>
    ensures same { IfOk result (λ s. s ≡ settled) }
    ensures pushed { OnOk result
        (asked_of frames.new ≡ map (ask settled) others ++ asked_of frames.old) }
{
    let mut others = others;
    let Some(goal) = others.take_first() else {
        return Ok(settled);
    };
    let copy = copy_settled(alloc, &settled)?;
    frames.push(Frame {
        settled,
        goal,
        others,
    })?;
    Ok(copy)
}

//! Goals proved in settled worlds.

ghost use Rattle.std.specs.Prelude.{◌≡◌, ◌++◌, map, IfOk, OnOk};
ghost use Rattle.std.specs.Option.{option_map};
ghost use Rattle.kat_term.specs.Views.{two_args_of};
ghost use Rattle.kat_known.specs.Normal.{norm_in};
ghost use Rattle.kat_solver.specs.Frames.{IsNext, asked_of};
ghost use Rattle.kat_solver.specs.Prove.{ask, both_sides, cases_of, goal_in, goal_next, is_proved, next_of, other_side, split_at, split_atom};
ghost use Rattle.kat_solver.specs.Settled.{list_of};

use crate::add::added;
use crate::agenda::Agenda;
use crate::frames::{Frame, Frames, push_goal, push_others, put_back};
use crate::normed::normed_under;
use crate::search::split_atom;
use crate::settled::{Settled, copy_settled, list_of};
use kat_known::reduced_strictly;
use kat_norm::Substitution;
use kat_term::{Term, World, apply_one, args_of, copy_term, truth_in};
use kat_value::Op;
use sqlite_items::Items;
use std::alloc::{AllocError, Global};

/// The most askings in one query.
const MAX_ASKINGS: u32 = 100_000;

/// The most splits in one query.
const MAX_SPLITS: u32 = 8;

/// Whether a goal is proved in a settled world: it and the goals that come of it are asked one after
/// another, until one is not proved or there is none.
pub fn is_proved(
    alloc: Global,
    world: &World,
    settled: Settled,
    goal: Term,
) -> Result<bool, AllocError>
    ensures { IfOk result
        (λ b. b ≡ is_proved world.now.vars (norm_in world.now.vars) settled goal) }
{
    let mut frames = Items::new(alloc);
    push_goal(alloc, &mut frames, settled, goal)?;
    let mut splits = MAX_SPLITS;
    let mut left = MAX_ASKINGS;
    while left > 0 {
        let Some(frame) = frames.pop() else {
            return Ok(true);
        };
        if !asked(alloc, world, frame, &mut frames, &mut splits)? {
            return Ok(false);
        }
        left -= 1;
    }
    Ok(frames.is_empty())
}

/// One asking: in a closed world a goal holds; else it is normed and then reduced. The other goals
/// of the frame are put back behind what comes of it.
fn asked(
    alloc: Global,
    world: &World,
    frame: Frame,
    frames: &mut Frames,
    splits: &mut u32,
) -> Result<bool, AllocError>
    ensures { IfOk result (λ goes. IsNext goes splits.new frames.new
        (next_of world.now.vars (norm_in world.now.vars) frame.settled frame.goal splits.old)
        (map (ask frame.settled) frame.others ++ asked_of frames.old)) }
{
    let Frame {
        settled,
        goal,
        others,
    } = frame;
    let reduced = match &settled {
        Settled::Closed => {
            push_others(frames, Settled::Closed, others)?;
            return Ok(true);
        }
        Settled::Open { pairs, list } => goal_in(alloc, world, pairs, list.as_slice(), goal)?,
    };
    let Some(goal) = reduced else {
        return Ok(false);
    };
    goal_next(
        alloc,
        world,
        Frame {
            settled,
            goal,
            others,
        },
        frames,
        splits,
    )
}

/// A goal normed under a substitution and reduced by a list; there is none where a limit is passed.
fn goal_in(
    alloc: Global,
    world: &World,
    pairs: &Substitution,
    list: &[Term],
    goal: Term,
) -> Result<Option<Term>, AllocError>
    ensures { IfOk result (λ r. r ≡ goal_in world.now.vars (norm_in world.now.vars)
        pairs.now list.now goal) }
{
    match normed_under(alloc, world, pairs, goal)? {
        Some(normal) => reduced_strictly(alloc, world, list, normal),
        None => Ok(None),
    }
}

/// What becomes of a goal that is normed and reduced.
fn goal_next(
    alloc: Global,
    world: &World,
    frame: Frame,
    frames: &mut Frames,
    splits: &mut u32,
) -> Result<bool, AllocError>
    ensures { IfOk result (λ goes. IsNext goes splits.new frames.new
        (goal_next world.now.vars (norm_in world.now.vars) frame.settled splits.old frame.goal)
        (map (ask frame.settled) frame.others ++ asked_of frames.old)) }
{
    if let Some(true) = truth_in(&frame.goal) {
        push_others(frames, frame.settled, frame.others)?;
        return Ok(true);
    }
    if let Some(sides) = sides_of(alloc, Op::And, &frame.goal)? {
        push_both(frames, frame.settled, sides, frame.others)?;
        return Ok(true);
    }
    if let Some(sides) = sides_of(alloc, Op::Or, &frame.goal)? {
        push_other(alloc, world, frames, frame.settled, sides, frame.others)?;
        return Ok(true);
    }
    split(alloc, world, frame, frames, splits)
}

/// The two sides of an operation.
#[derive(Drop)]
struct Sides {
    first: Term,
    second: Term,
}

/// The sides of a term that is this operation, in memory of their own.
fn sides_of(alloc: Global, op: Op, term: &Term) -> Result<Option<Sides>, AllocError>
    ensures { IfOk result
        (λ r. two_args_of op term.now ≡ option_map (λ s. (s.first, s.second)) r) }
{
    let Some(sides) = args_of(op, term) else {
        return Ok(None);
    };
    let first = copy_term(alloc, sides.first)?;
    let second = copy_term(alloc, sides.second)?;
    Ok(Some(Sides { first, second }))
}

/// Puts both sides of an `and` before the other goals of its world.
fn push_both(
    frames: &mut Frames,
    settled: Settled,
    sides: Sides,
    others: Agenda,
) -> Result<(), AllocError>
    ensures { OnOk result (asked_of frames.new
        ≡ both_sides settled sides.first sides.second
        ++ (map (ask settled) others ++ asked_of frames.old)) }
{
    let Sides { first, second } = sides;
    let mut others = others;
    others.push_first(second)?;
    frames.push(Frame {
        settled,
        goal: first,
        others,
    })?;
    Ok(())
}

/// Puts the second side of an `or` before the other goals, where the first is not.
fn push_other(
    alloc: Global,
    world: &World,
    frames: &mut Frames,
    settled: Settled,
    sides: Sides,
    others: Agenda,
) -> Result<(), AllocError>
    ensures { OnOk result (asked_of frames.new
        ≡ other_side world.now.vars (norm_in world.now.vars) settled sides.first sides.second
        ++ (map (ask settled) others ++ asked_of frames.old)) }
{
    let Sides { first, second } = sides;
    let beside = put_back(alloc, frames, settled, others)?;
    let negation = apply_one(alloc, Op::Not, first)?;
    let other = added(alloc, world, beside, negation)?;
    push_goal(alloc, frames, other, second)
}

/// A split, where one is left and there is an atom for it.
fn split(
    alloc: Global,
    world: &World,
    frame: Frame,
    frames: &mut Frames,
    splits: &mut u32,
) -> Result<bool, AllocError>
    ensures { IfOk result (λ goes. IsNext goes splits.new frames.new
        (split_at world.now.vars (norm_in world.now.vars) frame.settled frame.goal splits.old
        (split_atom world.now.vars (norm_in world.now.vars)
        (list_of frame.settled) frame.goal))
        (map (ask frame.settled) frame.others ++ asked_of frames.old)) }
{
    if *splits == 0 {
        return Ok(false);
    }
    let list = list_of(&frame.settled);
    let Some(atom) = split_atom(alloc, world, list, &frame.goal)? else {
        return Ok(false);
    };
    *splits -= 1;
    push_cases(alloc, world, frame, atom, frames)?;
    Ok(true)
}

/// Puts both cases of a split before the other goals.
fn push_cases(
    alloc: Global,
    world: &World,
    frame: Frame,
    atom: Term,
    frames: &mut Frames,
) -> Result<(), AllocError>
    ensures { OnOk result (asked_of frames.new
        ≡ cases_of world.now.vars (norm_in world.now.vars) frame.settled frame.goal atom
        ++ (map (ask frame.settled) frame.others ++ asked_of frames.old)) }
{
    let Frame {
        settled,
        goal,
        others,
    } = frame;
    let beside = put_back(alloc, frames, settled, others)?;
    let copy = copy_settled(alloc, &beside)?;
    let negation = apply_one(alloc, Op::Not, copy_term(alloc, &atom)?)?;
    let other = added(alloc, world, copy, negation)?;
    push_goal(alloc, frames, other, copy_term(alloc, &goal)?)?;
    let first = added(alloc, world, beside, atom)?;
    push_goal(alloc, frames, first, goal)
}

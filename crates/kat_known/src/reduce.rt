//! Terms reduced by a list of formulas.

ghost use Rattle.std.specs.Prelude.{◌≡◌, ◌<◌, IfOk};
ghost use Rattle.kat_known.specs.Known.{known_atom};
ghost use Rattle.kat_known.specs.Normal.{norm_in};
ghost use Rattle.kat_known.specs.Picked.{Follows};
ghost use Rattle.kat_known.specs.Reduce.{reduced, reduced_strictly};

use crate::knowing::normed;
use crate::replace::replaced;
use kat_term::{Term, World};
use std::alloc::{AllocError, Global};

/// The most replacements in one term, those included whose normal form passes a limit.
pub const MAX_REPLACEMENTS: u32 = 65_536;

/// A term of a world reduced by a list of formulas: each known atom, outermost and leftmost first,
/// is replaced by its literal and the term is normed, until nothing changes. Where its normal form
/// passes a limit, the term stays as it was, and the next known atom follows.
pub fn reduced(alloc: Global, world: &World, list: &[Term], term: Term) -> Result<Term, AllocError>
    ensures { IfOk result (λ t. t ≡ reduced
        (known_atom world.now.vars (norm_in world.now.vars) list.now)
        (norm_in world.now.vars) term) }
{
    let mut left = MAX_REPLACEMENTS;
    let mut passed: u32 = 0;
    let mut current = term;
    while left > 0 {
        let mut skip = passed;
        let Some(new) = replaced(&current, alloc, world, list, &mut skip)? else {
            return Ok(current);
        };
        current = next_of(alloc, world, current, new, &mut passed)?;
        left -= 1;
    }
    Ok(current)
}

/// The normal form of a replacement; where it passes a limit, the term as it was, and one place
/// more is passed.
fn next_of(
    alloc: Global,
    world: &World,
    current: Term,
    new: Term,
    passed: &mut u32,
) -> Result<Term, AllocError>
    requires { passed.old < 65536 }
    ensures { IfOk result
        (λ t. Follows (norm_in world.now.vars new) current t passed.old passed.new) }
{
    match normed(alloc, world, new)? {
        Some(normal) => {
            *passed = 0;
            Ok(normal)
        }
        None => {
            *passed += 1;
            Ok(current)
        }
    }
}

/// A term of a world reduced strictly: there is none where a normal form passes a limit.
pub fn reduced_strictly(
    alloc: Global,
    world: &World,
    list: &[Term],
    term: Term,
) -> Result<Option<Term>, AllocError>
    ensures { IfOk result (λ t. t ≡ reduced_strictly
        (known_atom world.now.vars (norm_in world.now.vars) list.now)
        (norm_in world.now.vars) term) }
{
    let mut left = MAX_REPLACEMENTS;
    let mut current = term;
    while left > 0 {
        let mut skip = 0;
        let Some(new) = replaced(&current, alloc, world, list, &mut skip)? else {
            return Ok(Some(current));
        };
        let Some(normal) = normed(alloc, world, new)? else {
            return Ok(None);
        };
        current = normal;
        left -= 1;
    }
    Ok(Some(current))
}

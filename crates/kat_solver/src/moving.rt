//! The members of a list that reducing by it changes.

ghost use Rattle.std.specs.Prelude.{◌≡◌, Some, None, if◌then◌else◌, IfOk};
ghost use Rattle.kat_known.specs.Normal.{norm_in};
ghost use Rattle.kat_solver.specs.Add.{moving, reduced_by, staying, stays};

use kat_known::reduced;
use kat_term::{Term, Terms, World, args_of, copy_term, same_term};
use kat_value::Op;
use sqlite_items::Items;
use std::alloc::{AllocError, Global};

/// The reduced forms of the members that do not stay, in their order.
pub fn moving(alloc: Global, world: &World, list: &[Term]) -> Result<Terms, AllocError>
    ensures { IfOk result
        (λ ts. ts ≡ moving world.now.vars (norm_in world.now.vars) list.now list.now) }
{
    let mut moving = Items::new(alloc);
    for member in list {
        if let Some(new) = moved(alloc, world, list, member)? {
            moving.push(new)?;
        }
    }
    Ok(moving)
}

/// The members that stay, in their order.
pub fn staying(alloc: Global, world: &World, list: &[Term]) -> Result<Terms, AllocError>
    ensures { IfOk result
        (λ ts. ts ≡ staying world.now.vars (norm_in world.now.vars) list.now list.now) }
{
    let mut staying = Items::new(alloc);
    for member in list {
        if moved(alloc, world, list, member)?.is_none() {
            staying.push(copy_term(alloc, member)?)?;
        }
    }
    Ok(staying)
}

/// The reduced form of a member that does not stay: of an `or` that reducing changes.
fn moved(
    alloc: Global,
    world: &World,
    list: &[Term],
    member: &Term,
) -> Result<Option<Term>, AllocError>
    ensures { IfOk result
        (λ r. r ≡ (if stays world.now.vars (norm_in world.now.vars) list.now member.now then None
        else Some (reduced_by world.now.vars (norm_in world.now.vars) list.now member.now))) }
{
    if args_of(Op::Or, member).is_none() {
        return Ok(None);
    }
    let less = reduced(alloc, world, list, copy_term(alloc, member)?)?;
    if same_term(&less, member) {
        Ok(None)
    } else {
        Ok(Some(less))
    }
}

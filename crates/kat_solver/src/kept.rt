//! The settled world of the last question, from which the next one may go on.

ghost use Rattle.std.specs.Prelude.{◌≡◌};
ghost use Rattle.std.specs.Coded.{Coded-set};
ghost use Rattle.kat_known.specs.Normal.{norm_in};
ghost use Rattle.kat_solver.specs.Add.{settled_of};

use crate::add::all_added;
use crate::same::{rest_behind, same_types};
use crate::settled::{Settled, unsettled};
use kat_term::{Term, Terms, World, copy_terms};
use kat_value::Ty;
use sqlite_items::Items;
use std::alloc::{AllocError, Global};

/// Formulas over variables of these types, settled.
#[derive(Drop)]
pub struct Kept {
    vars: Items<Ty>,
    formulas: Terms,
    pub settled: Settled,
    ghost is: { settled ≡ settled_of vars (norm_in vars) formulas } by { Coded-set settled-code settled (settled_of vars (norm_in vars) formulas) },
}

impl Kept {
    ghost use Rattle.std.specs.Prelude.{◌++◌, IfOk, MatchOption};
    ghost use Rattle.kat_solver.specs.Same.{BeginsWith, IsOf};

    /// No formulas. No memory is taken.
    pub fn new(alloc: Global) -> Kept {
        Kept {
            vars: Items::new(alloc),
            formulas: Items::new(alloc),
            settled: unsettled(alloc),
        }
    }

    /// The formulas of a world. Where it begins with these, the others alone are added; else it is
    /// settled anew.
    pub fn next(self, alloc: Global, world: &World) -> Result<Kept, AllocError>
        ensures { IfOk result (λ k. IsOf k.vars k.formulas world.now) }
    {
        let Some(rest) = self.rest_of(world) else {
            return Kept::of(alloc, world);
        };
        let Kept {
            vars,
            mut formulas,
            settled,
        } = self;
        formulas.append(copy_terms(alloc, rest)?)?;
        let settled = all_added(alloc, world, settled, rest)?;
        Ok(Kept {
            vars,
            formulas,
            settled,
        })
    }

    /// The formulas of a world, settled anew.
    fn of(alloc: Global, world: &World) -> Result<Kept, AllocError>
        ensures { IfOk result (λ k. IsOf k.vars k.formulas world.now) }
    {
        let vars = Items::from_slice(alloc, world.vars())?;
        let formulas = copy_terms(alloc, world.formulas())?;
        let settled = all_added(alloc, world, unsettled(alloc), world.formulas())?;
        Ok(Kept {
            vars,
            formulas,
            settled,
        })
    }

    /// What a world has behind these formulas, where it is over these variables and begins with
    /// them.
    fn rest_of<'a>(&self, world: &'a World) -> Option<&'a [Term]>
        ensures { MatchOption result (BeginsWith self.now.vars self.now.formulas world.now → ⊥)
            (λ rest. IsOf self.now.vars (self.now.formulas ++ rest.now) world.now) }
    {
        if same_types(self.vars.as_slice(), world.vars()) {
            rest_behind(self.formulas.as_slice(), world.formulas())
        } else {
            None
        }
    }
}

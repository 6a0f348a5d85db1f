//! Worlds.

ghost use Rattle.std.specs.Prelude.{◌≡◌, ◌+◌, ◌<◌, IfOk, OnOk, OnErr, length, take};
ghost use Rattle.kat_term.specs.Fresh.{fresh_of};
ghost use Rattle.kat_term.specs.Growth.{AnswersFresh, ExtendsBy, NarrowsBy};
ghost use Rattle.kat_term.specs.Types.{IsTermOf};
ghost use Rattle.kat_term.specs.Worlds.{empty_world, with_formula};

use crate::copy::copy_terms;
use crate::fresh::{GrowError, fresh_value};
use crate::term::{Term, Terms};
use kat_value::{Ty, Types};
use sqlite_items::Items;
use std::alloc::{AllocError, Global};
use std::marker::Model;

/// The world of a path: the types of its variables, by their numbers, and the formulas that were
/// assumed, in order. It only grows. Contracts see it as these two lists.
#[derive(Drop)]
pub struct World {
    alloc: Global,
    vars: Items<Ty>,
    formulas: Terms,
}

impl Model for World {
    ghost use Rattle.std.specs.Prelude.{length, ◌≤◌};
    ghost use Rattle.std.specs.Coded.{codes};
    ghost use Rattle.kat_term.specs.Worlds.{World};
    ghost use Rattle.kat_term.specs.Limits.{max_vars};
    ghost use Rattle.kat_term.specs.contracts.term.Term as term;

    ghost Value = { World };

    ghost coded = { Prim.hlevel (codes, term.the_row.coded) };

    ghost view = { λ w. record { vars = w.vars; formulas = w.formulas } };

    ghost invariant = { λ w. length w.vars ≤ max_vars };
}

impl World {
    /// A world with no variable and no formula.
    pub fn new(alloc: Global) -> Result<World, AllocError>
        ensures { IfOk result (λ w. w ≡ empty_world) }
    {
        Ok(World {
            alloc,
            vars: Items::new(alloc),
            formulas: Items::new(alloc),
        })
    }

    /// An equal world.
    pub fn copy(&self) -> Result<World, AllocError>
        ensures { IfOk result (λ w. w ≡ self.now) }
    {
        Ok(World {
            alloc: self.alloc,
            vars: Items::from_slice(self.alloc, self.vars.as_slice())?,
            formulas: copy_terms(self.alloc, self.formulas.as_slice())?,
        })
    }

    /// The types of the variables, by their numbers.
    pub fn vars(&self) -> &[Ty]
        ensures { result.now ≡ self.now.vars }
    {
        self.vars.as_slice()
    }

    /// The formulas that were assumed, in order.
    pub fn formulas(&self) -> &[Term]
        ensures { result.now ≡ self.now.formulas }
    {
        self.formulas.as_slice()
    }

    /// Assumes a formula. The valuations that fit are then those that fitted and make it true.
    pub fn assume(&mut self, formula: Term) -> Result<(), AllocError>
        ensures assumed { OnOk result (self.new ≡ with_formula self.old formula) }
        ensures fits { OnOk result (NarrowsBy self.old self.new formula) }
        ensures kept { OnErr result (self.new ≡ self.old) }
    {
        self.formulas.push(formula)?;
        Ok(())
    }

    /// Adds a fresh value of a type: unit, a record of fresh values, or a new variable. It answers
    /// `Vars` exactly where the world would have more than 100,000 variables.
    pub fn grow(&mut self, types: &Types, ty: &Ty) -> Result<Term, GrowError>
        ensures fresh { AnswersFresh result self.old.vars self.new.vars
            (fresh_of types.now ty.now (length self.old.vars)) }
        ensures formulas { self.new.formulas ≡ self.old.formulas }
        ensures typed { IfOk result (λ t. IsTermOf types.now self.new.vars ty.now t) }
        ensures extends { IfOk result (λ t. ExtendsBy types.now ty.now self.old self.new t) }
        ensures kept { OnErr result (self.new ≡ self.old) }
    {
        let before = self.vars.len();
        match fresh_value(self.alloc, &mut self.vars, types, types.len(), *ty) {
            Ok(term) => Ok(term),
            Err(error) => {
                cut(&mut self.vars, before);
                Err(error)
            }
        }
    }
}

/// Takes the last variables away, so that this many are left.
fn cut(vars: &mut Items<Ty>, count: usize)
    ensures { vars.new ≡ take count vars.old }
{
    while vars.len() > count {
        let _last = vars.pop();
    }
}

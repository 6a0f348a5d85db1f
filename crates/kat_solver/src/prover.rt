//! The prover.

ghost use Rattle.kat_solver.specs.Means.{SolverLaws};

use crate::kept::Kept;
use crate::laws::solver_laws;
use crate::left::left_in;
use crate::normed::rewrite_in;
use kat_term::{Answer, NormError, Prover, Term, World};
use std::alloc::{AllocError, Global};
use std::mem::replace;

/// A prover by rules alone. It settles the formulas of a world, and asks of what is settled again
/// where the next question is asked in an equal world. Where the next world is over variables of
/// the same types and begins with the same formulas, settling goes on from them.
#[derive(Drop)]
pub struct RuleProver {
    alloc: Global,
    kept: Kept,
    ghost laws: { ∥ SolverLaws ∥₁ },
}

impl RuleProver {
    ghost use Rattle.std.specs.Prelude.{◌≡◌, OnOk};
    ghost use Rattle.kat_known.specs.Normal.{norm_in};
    ghost use Rattle.kat_solver.specs.Add.{settled_of};

    /// A prover. It takes no memory.
    pub fn new(alloc: Global) -> RuleProver {
        solver_laws();
        RuleProver {
            alloc,
            kept: Kept::new(alloc),
        }
    }

    /// Settles the formulas of a world that are not settled. On want of memory none are.
    fn keep(&mut self, world: &World) -> Result<(), AllocError>
        ensures { OnOk result (self.new.kept.settled
            ≡ settled_of world.now.vars (norm_in world.now.vars) world.now.formulas) }
    {
        let kept = replace(&mut self.kept, Kept::new(self.alloc));
        self.kept = kept.next(self.alloc, world)?;
        Ok(())
    }
}

impl Prover for RuleProver {
    ghost use Rattle.kat_solver.specs.Left.{left_of, normal_of};
    ghost use Rattle.kat_solver.specs.Owed.{holds_owed, keeps_owed, limits_owed, residues_owed};

    ghost normal = { λ _. normal_of };

    ghost left = { λ _. left_of };

    /// The normal form of a term under the substitution of the settled formulas; that of a
    /// contradiction is empty. `Nodes`, `Depth` and `Rules` come exactly where a limit is passed.
    fn norm(&mut self, world: &World, term: Term) -> Result<Term, NormError> {
        self.keep(world)?;
        rewrite_in(self.alloc, world, &self.kept.settled, term)
    }

    /// What is left of a goal.
    fn prove(&mut self, world: &World, goal: &Term) -> Result<Answer, AllocError> {
        self.keep(world)?;
        left_in(self.alloc, world, &self.kept.settled, goal)
    }

    ghost limits = { λ prover. limits_owed prover.laws };

    ghost keeps = { λ prover. keeps_owed prover.laws };

    ghost holds = { λ prover. holds_owed prover.laws };

    ghost residues = { λ prover. residues_owed prover.laws };
}

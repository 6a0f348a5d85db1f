//! Provers: what is asked of them, and the laws of their answers.

ghost use Rattle.std.specs.Prelude.{◌≡◌, IfOk};
ghost use Rattle.kat_term.specs.Provers.{Normal, Left, AnswersNorm, PassesNoLimit, LimitsOfNorm, NormKeeps, AnswersHold, ResiduesAreFormulas};

use crate::term::Term;
use crate::world::World;
use std::alloc::AllocError;
use thiserror::Error;

/// What a prover answers to a goal.
#[derive(Debug, Drop)]
pub enum Answer {
    /// The goal is true under every valuation of the formulas.
    Proved,
    /// There is no valuation of the formulas.
    Contradiction,
    /// What is left to be shown, a formula of the world.
    Residue(Term),
}

/// Why a term has no normal form.
#[derive(Clone, Copy, Debug, PartialEq, Eq, Error)]
pub enum NormError {
    /// A term on the way has more than 65,536 nodes.
    #[error("a term has too many nodes")]
    Nodes,
    /// A term on the way is deeper than 512.
    #[error("a term is too deep")]
    Depth,
    /// More than 1,000,000 rules would be used.
    #[error("too many rules are used")]
    Rules,
    /// Memory ran out.
    #[error("out of memory")]
    Memory,
}

impl From<AllocError> for NormError {
    ghost use Rattle.std.specs.Prelude.{◌≡◌};
    ghost use Rattle.kat_term.specs.declared.prover.NormError.TheVariants.{Memory};

    ghost from_gives = { λ _ e. e ≡ Memory };

    fn from(_error: AllocError) -> NormError {
        NormError::Memory
    }
}

/// A prover over worlds. Each states what it leaves of a goal; what its answers say are laws of
/// that, which stand without a call.
pub trait Prover {
    /// The normal form of a term in a world, or the limit that it passes.
    ghost normal: { Self → Normal };

    /// What is left of a goal in a world.
    ghost left: { Self → Left };

    /// The normal form of a term under what the formulas of the world settle.
    fn norm(&mut self, world: &World, term: Term) -> Result<Term, NormError>
        ensures normal { AnswersNorm result (normal self.old world.now term) }
        ensures kept { normal self.new ≡ normal self.old }
        ensures left { left self.new ≡ left self.old };

    /// What is left of a goal whose normal form passes no limit.
    fn prove(&mut self, world: &World, goal: &Term) -> Result<Answer, AllocError>
        requires { PassesNoLimit (normal self.old world.now goal.now) }
        ensures answer { IfOk result (λ answer. answer ≡ left self.old world.now goal.now) }
        ensures kept { normal self.new ≡ normal self.old }
        ensures left { left self.new ≡ left self.old };

    /// A limit that a normal form passes is one that `norm` names.
    ghost limits: { (prover : Self) → LimitsOfNorm (normal prover) };

    /// A normal form has the type of its term, and its value where the formulas are true.
    ghost keeps: { (prover : Self) → NormKeeps (normal prover) };

    /// What is proved is valid, and a contradiction has no valuation.
    ghost holds: { (prover : Self) → AnswersHold (left prover) };

    /// A residue is a formula of the world.
    ghost residues: { (prover : Self) → ResiduesAreFormulas (normal prover) (left prover) };
}

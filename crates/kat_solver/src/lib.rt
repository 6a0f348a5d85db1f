//! Formulas settled, and what is left of a goal in them.
#![tactic(auto)]

mod add;
mod agenda;
mod frames;
mod kept;
mod laws;
mod left;
mod moving;
mod normed;
mod pairs;
mod prove;
mod prover;
mod same;
mod search;
mod settled;

pub use laws::{answers_mean, settled_worlds_fit, solver_laws};
pub use prover::RuleProver;

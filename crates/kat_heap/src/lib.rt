//! Symbolic execution on what a path owns: its walk, and each move of it. A walk has a world, a
//! list of chunks, names with terms, a last value and the jobs that are still to do. The
//! definitions of the moves, of what a walk stands for and of when jobs are met stand in `specs/`;
//! their code and the laws that join them are to come.
#![tactic(auto)]

mod laws;
mod limits;
mod mode;

pub use laws::jobs_are_met_backwards;
pub use limits::MAX_STEPS;
pub use mode::Mode;

//! Symbolic execution of statements and items over the moves of `kat_heap`: one step of a path,
//! where each item starts, what one path comes to by its choices, and the verdict on an item and on
//! a specification. The definitions stand in `specs/`; their code and the laws that join them are
//! to come.
#![tactic(auto)]

mod laws;
mod limits;

pub use laws::{examples_come_out, paths_are_met};
pub use limits::{MAX_DEPTH_OF_CALLS, MAX_PATHS};

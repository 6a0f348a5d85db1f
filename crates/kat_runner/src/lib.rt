//! The run of a machine: each cycle in turn, and the text of its states written as it goes. What is
//! written is exactly the text of the boundaries of the run that the meaning has, and the end is
//! that run's; the line of a run that ran out of calls or failed is left to the caller.
#![tactic(auto)]

mod runner;
mod shown;
mod text;

pub use runner::{RunEnd, run};

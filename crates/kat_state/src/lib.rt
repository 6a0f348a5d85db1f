//! The state of a machine: a value for each register and a number for each cell. It starts with the
//! first value of each type, and is read, set and written from outside without taking memory.
#![tactic(auto)]

mod first_values;
mod state;

pub use kat_syntax::Poke;
pub use state::{PokeError, State};

//! One cycle of a machine, as its meaning has it: a call of the step function from a state, with so
//! many calls allowed. Expressions are evaluated and statements run on the tree as it stands; where
//! a failure stands is worked out on the way back.
#![tactic(auto)]

mod acts;
mod arms;
mod eval;
mod exec;
mod locals;
mod memory;
mod one_cycle;
mod registers;
mod running;
mod sites;

pub use one_cycle::{CycleEnd, cycle};

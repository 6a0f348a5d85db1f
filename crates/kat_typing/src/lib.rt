//! The typing check: a specification is typed, or has a first fault, found by one walk over its
//! declarations with hash tables of all that is declared.
#![tactic(auto)]

mod cells;
mod checking;
mod contract;
mod decl;
mod first;
mod lemma;
mod limits;
mod names;
mod once;
mod phases;

pub use checking::{TypeError, check};
pub use first::{TypeFault, first_type_fault};

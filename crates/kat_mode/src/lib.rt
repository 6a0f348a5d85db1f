//! The check of modes: each assertion is read once, from left to right, with the set of names that
//! are unbound. The set is a table with a flag for each name, and the list of the names that turned
//! from bound to unbound or back. So a branch of an `if` is taken back by turning its names again,
//! and no set is ever copied: each name that turns costs a few look-ups, and as many again for each
//! `if` that it stands in.
#![tactic(auto)]

mod assertion;
mod checking;
mod decl;
mod expr;
mod first;
mod inputs;
mod laws;
mod stop;
mod unbound;
mod values;

pub use checking::{ModeError, check_modes};
pub use first::{ModeFault, first_mode_fault};
pub use laws::moded_names_are_bound;

//! Statements and assertions. A tree that fits its sort is read as the one form that it describes,
//! with no refusal; only memory may run out.
#![tactic(auto)]

mod assertions;
mod statements;

pub use assertions::assertion_in;
pub use statements::{stm_in, stms_in};

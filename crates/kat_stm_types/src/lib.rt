//! Typing of statements and assertions: what is known of each, and the least of their faults.
#![tactic(auto)]

mod arms;
mod assertion;
mod branches;
mod stm;
mod uses;

pub use assertion::judge_assertion;
pub use stm::judge_stm;
pub use uses::judge_truth;

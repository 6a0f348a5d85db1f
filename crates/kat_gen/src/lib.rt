//! A large valid specification from a number: as many registers, each with a function that counts
//! it up to its own number and a contract, under a step function that calls all of them. Its
//! definition in `specs/` is data, form by form; its text is written piece by piece, and is proved
//! to be the canonical text of that definition, so that it reads back as it.
#![tactic(auto)]

mod counter;
mod laws;
mod machine;
mod spec;
#[cfg(test)]
mod tests;

pub use laws::{generated_has_its_form, generated_has_so_many};
pub use spec::spec_of;

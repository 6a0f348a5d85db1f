//! The job that the words after the program's name ask for. The words are read by one command of
//! `clap`, and what the command finds in them is then held against what each job wants.
#![tactic(auto)]

mod asked;
mod command;
mod devices;
pub mod laws;
mod limits;
mod numbers;
#[cfg(test)]
mod tests;
mod words;

pub use asked::{Job, WordsError};
pub use devices::Devices;
pub use words::job;

//! A table gives each name a number: its position in the order in which the names were added. No
//! name stands twice, so a name and its position find each other.
#![tactic(auto)]

mod names;

pub use names::{NameError, Table, Unknown};

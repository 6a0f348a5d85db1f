//! What belongs to the machines that are shipped. So far it is the rule of physical memory
//! protection (PMP): which accesses the entries allow, in the privileged manual's words.
#![tactic(auto)]

mod laws;
mod pmp;
#[cfg(test)]
mod tests;

pub use laws::the_least_match_decides;
pub use pmp::{Access, Entry, Priv, pmp_allows};

//! What is claimed of a specification, examined: laws of the definitions of `kat_syntax` on
//! fragments, assertions, contracts, phases and security, and small machines that are secure or not.
//! A function here does nothing: its contract is the law.
#![tactic(auto)]

mod laws;

pub use laws::{
    contracts_go_by_budgets, fragments_join, holders_have_places, only_names_read_count,
    outside_writes_keep, runs_go_by_events, security_says_what_it_should,
};

//! A typed machine is never stuck: an expression without faults of typing has a value of its type,
//! a statement keeps types, and so do calls, cycles and runs, which fail only at statements that
//! fail of themselves. A function here does nothing: its contract is the law.
#![tactic(auto)]

mod laws;

pub use laws::{
    cycles_are_not_stuck, runs_are_not_stuck, typed_calls_are_not_stuck,
    typed_expressions_have_values, typed_statements_are_not_stuck,
};

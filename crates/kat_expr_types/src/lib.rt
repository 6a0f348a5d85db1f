//! Typing of types and expressions: what is known of each, and the least of their faults.
#![tactic(auto)]

mod args;
mod expr;
mod faults;
mod laws;
mod scope;
mod setting;
mod written;

pub use args::judge_given;
pub use expr::judge_expr;
pub use faults::{Fault, Faults};
pub use laws::typing_laws;
pub use scope::{Base, Scope, judge_hiding, local_type};
pub use setting::{Known, Setting, Standing, judge_known, judge_memory, judge_wanting};
pub use written::judge_type;

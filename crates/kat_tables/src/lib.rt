//! The tables that typing asks: what the declarations of a specification declare, by name and kind,
//! and what may be named in each declaration.
#![tactic(auto)]

mod around;
mod declare;
mod forms;
mod kinds;
mod params;
mod placed;
mod protected;
mod range;
mod seen;
mod tables;
mod widths;

pub use around::Around;
pub use params::{FunctionSeen, Params, ProofSeen, RecordSeen};
pub use range::{Memory, Range};
pub use seen::{CtorSeen, RegisterSeen};
pub use tables::Tables;
pub use widths::is_below;

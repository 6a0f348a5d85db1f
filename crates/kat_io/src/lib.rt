//! Files to read and a sink to write, as two traits whose contracts tell the bytes where they are
//! known and count what went wrong, so that a program above can be proved over memory and over the
//! host alike. `memory` has both over lists, for tests and examples; `host` has them over the
//! runtime's files and a std writer.
#![tactic(auto)]

mod host;
mod laws;
mod memory;
mod read_log;
mod reading;
#[cfg(test)]
mod tests;
mod writing;

pub use host::{HostFiles, HostSink};
pub use laws::writes_join;
pub use memory::{MemoryFiles, MemorySink, Named};
pub use reading::{Files, ReadError};
pub use writing::{Sink, SinkError};

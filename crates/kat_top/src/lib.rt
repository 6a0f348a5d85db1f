//! The whole program behind one call: from the words and the bytes of the files to the bytes that
//! are written and the status. A job is a list of inputs, judged in order, and what is done with
//! them (`specs/Jobs`); `inputs` loads them, `jobs` does what is done, `say` writes it, and `fault`
//! has the line of each fault.
#![tactic(auto)]

mod fault;
mod inputs;
mod jobs;
mod laws;
mod program;
mod say;
mod status;

pub use fault::{Fault, TreeKind, fault_text};
pub use laws::{one_answer, text_tells_told_run};
pub use program::top;
pub use status::Status;

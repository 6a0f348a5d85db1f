//! What holds of every typed specification, and that no code needs: images stand for states of its
//! machine and come back where they are printed, runs keep to them, and the text of a run tells the
//! run. A function here does nothing: its contract is the law.
#![tactic(auto)]

mod faults;
mod images;
mod runs;
mod text;

pub use faults::clean_declarations;
pub use images::{images_are_states, printed_images_come_back};
pub use runs::{machines_have_names, runs_keep_states, starts_are_states, text_tells_its_run};
pub use text::{text_tells_its_end, text_tells_states};

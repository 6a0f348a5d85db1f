//! The canonical text of a specification: one space between two trees, none inside the ends of
//! brackets, numbers in decimal, one newline at the end. It is pushed onto one text while the
//! specification is gone over, and no tree of text is made.
#![tactic(auto)]

mod assertions;
mod declarations;
mod expressions;
mod laws;
mod parts;
mod print;
mod statements;
mod terms;
mod types;
mod values;

pub use laws::{one_text, reads_back};
pub use print::print_spec;
pub use terms::print_term;
pub use values::{print_value, push_register_line, push_value};

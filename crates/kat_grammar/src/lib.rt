//! The grammar of forms: a tree fits the table of forms exactly where it is the tree of a form.
//! Here stand its laws alone, and what readers of forms use of trees that fit. No code reads a
//! tree.
#![tactic(auto)]

mod laws;

pub use laws::{form_laws, one_description, small_lists, written_fits};

//! Shapes: what each tree of a text is read as, by one table of forms, and the first tree that has
//! no form there.
//!
//! A sort says what a tree is read as; a form of a sort is told by a word, or by where the list
//! stands, and says what the list's parts are read as. `judge` goes over a text once. What is right
//! and what the first misfit is stands in `specs/Places`, by the places of trees in preorder and
//! with no word of how the text is gone over.
#![tactic(auto)]

mod form;
mod judging;
mod laws;
mod misfit;
mod sort;
mod table;
mod token;
mod version;
mod wanted;

pub use judging::{first_word, judge};
pub use laws::{fitting, one_judgement, readings};
pub use misfit::Misfit;
pub use sort::Sort;
pub use wanted::Wanted;

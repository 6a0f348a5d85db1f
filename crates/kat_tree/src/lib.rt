//! Tree text: the bytes of a specification as one tree of numbers, names and lists in brackets. Its
//! grammar stands in `specs/`, apart from the reader, which goes over the characters once and gives
//! the tree that they spell, or the first fault with its offset in bytes.
#![tactic(auto)]

mod error;
mod laws;
mod number;
mod progress;
mod read;
mod reader;
mod stack;
mod tree;
mod word;

pub use error::TreeError;
pub use laws::{
    layers, one_outcome, one_tree, places, spelled_is_writable, trees_fit_their_text,
    written_is_spelled, written_layers,
};
pub use number::number_of_word;
pub use progress::MOST_OPEN;
pub use read::read_tree;
pub use tree::{Token, Tree, Trees};

#[cfg(test)]
mod tests;

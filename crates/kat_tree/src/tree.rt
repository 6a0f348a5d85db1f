//! Trees.

use kat_text::Text;
use sqlite_items::Items;

/// What stands at an atom.
#[derive(Debug, Drop)]
pub enum Token {
    /// A number below 2^64, in decimal digits or, behind `0x`, in hexadecimal ones.
    Number(u64),
    /// A name: `_` or a character of XID_Start, and then characters of XID_Continue.
    Name(Text),
}

/// Trees side by side, which contracts see as a list.
pub type Trees = Items<Tree>;

/// A tree of tree text. Trees are numbered in preorder from 0, lists and atoms alike.
#[derive(Debug, Drop)]
pub enum Tree {
    Atom(Token),
    List(Trees),
}

//! Where something stands in a specification.

/// A tree of a declaration. Both numbers count from 0: declarations in the order of the text, and the trees of
/// one declaration in preorder, the declaration itself being tree 0.
#[derive(Clone, Copy, Debug, PartialEq, Eq, Drop)]
pub struct Place {
    pub decl: u32,
    pub tree: u32,
}

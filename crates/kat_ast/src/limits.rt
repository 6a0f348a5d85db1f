//! The limits of specifications.

use kat_tree::MOST_OPEN;

/// The most brackets that the text of a declaration nests: one less than a text may, for that of
/// the specification around it.
pub const DEEPEST_DECL: usize = MOST_OPEN - 1;

/// A declaration has fewer trees than this.
pub const DECL_TREES_BOUND: u64 = 1 << 32;

//! The limits on specifications.

/// The most declarations that a specification may have.
pub const MOST_DECLARATIONS: usize = 4096;

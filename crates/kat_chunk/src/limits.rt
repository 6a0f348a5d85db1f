//! The limit on chunks.

/// The most chunks that a path has at once.
pub const MAX_CHUNKS: usize = 1_024;

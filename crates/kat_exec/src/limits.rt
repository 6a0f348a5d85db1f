//! The limits on paths and on depth of calls.

/// The greatest depth of calls, the body that the item runs having depth 1.
pub const MAX_DEPTH_OF_CALLS: u32 = 64;

/// The most ended paths of an item.
pub const MAX_PATHS: u32 = 20_000;

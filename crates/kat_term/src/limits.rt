//! The limits on terms and worlds.

/// The most variables of a world.
pub const MAX_VARS: usize = 100_000;

/// The most nodes of a term, counted as a tree.
pub const MAX_NODES: u32 = 65_536;

/// The greatest depth of a term; one without parts has depth 1.
pub const MAX_DEPTH: u32 = 512;

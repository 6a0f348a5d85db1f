//! The limit on steps.

/// The most steps of a path.
pub const MAX_STEPS: u32 = 1_000_000;

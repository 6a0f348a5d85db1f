//! How far the numbers among the words may go.

/// How many digits a number may have, leading zeros among them.
pub(crate) const MOST_DIGITS: usize = 20;

/// The most cycles that a run may be asked for.
pub(crate) const MOST_CYCLES: u64 = 1_000_000;

/// The most calls that a cycle may be given.
pub(crate) const MOST_CALLS: u64 = 64;

/// The most devices in a list.
pub(crate) const MOST_DEVICES: usize = 16;

/// The greatest number of a device.
pub(crate) const MOST_DEVICE: u64 = 0xffff_ffff;

/// The greatest number that `gen` takes.
pub(crate) const MOST_GENERATED: u64 = 500;

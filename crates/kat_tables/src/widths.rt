//! The numbers that a width holds.

ghost use Rattle.std.specs.Prelude.{◌≡◌, ◌^◌, nat_lt};

/// Whether a number is one of so many bits.
pub fn is_below(width: u64, number: u64) -> bool
    ensures { result ≡ nat_lt number (2 ^ width) }
{
    width >= 64 || number < 1 << width
}

//! The widths of bits, and the numbers of a width.

ghost use Rattle.std.specs.Prelude.{◌≡◌, ◌≤◌, ◌^◌, IsTrue, nat_lt};
ghost use Rattle.kat_value.specs.Widths.{is_number, widest, is_width};

/// The greatest width of bits.
pub const WIDEST: u32 = 64;

/// Whether this is a width of bits: 1 to 64.
pub fn is_width(width: u64) -> bool
    ensures value { result ≡ is_width width }
    ensures small { IsTrue result → width ≤ widest }
{
    1 <= width && width <= u64::from(WIDEST)
}

/// Whether this is a width, and the number one of that many bits.
pub fn is_number(width: u32, number: u64) -> bool
    ensures { result ≡ is_number width number }
{
    is_width(u64::from(width)) && is_below(width, number)
}

/// The same of a width that a text tells, which may be any number.
pub fn is_literal(width: u64, number: u64) -> bool
    ensures value { result ≡ is_number width number }
    ensures width { IsTrue result → width ≤ widest }
{
    is_width(width) && is_below(width as u32, number)
}

/// Whether a number is below 2 to the power of this.
fn is_below(width: u32, number: u64) -> bool
    ensures { result ≡ nat_lt number (2 ^ width) }
{
    number.unbounded_shr(width) == 0
}

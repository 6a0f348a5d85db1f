//! The operations on bits, on machine words.

ghost use Rattle.std.specs.Prelude.{◌≡◌, ◌+◌, ◌-◌, ◌*◌, ◌/◌, ◌%◌, ◌^◌, ◌<◌, ◌≤◌, ℕ, min, nat_lt, if◌then◌else◌};
ghost use Rattle.kat_value.specs.Numbers.{IsNumber, AreNumbers, signed, sign_extended, truth_of_op, number_of_op, CanApply, width_of_op};
ghost use Rattle.kat_value.specs.Widths.{IsWidth, widest};

use crate::op::Op;
use crate::width::WIDEST;

/// The number that an operation from `Eq` to `Sext` gives for the numbers `a` and `b` of `width`
/// bits, 1 to 64.
///
/// A comparison gives 1 or 0. For `Cat` the width is that of `b`, and both fit 64 bits together. An
/// operation with one argument does not look at `b`. A slice is within the width, and an extension
/// is no shorter. It takes no memory.
pub fn apply(op: Op, width: u32, a: u64, b: u64) -> u64
    requires { CanApply op width a b }
    ensures value { result ≡ number_of_op op width a b }
    ensures within { result < 2 ^ width_of_op op width }
    ensures joined { op ≡ Op.Cat → (v : ℕ) → a < 2 ^ v → result < 2 ^ (v + width) }
{
    match op {
        Op::Eq | Op::Ult | Op::Ule | Op::Slt | Op::Sle => u64::from(holds(op, width, a, b)),
        Op::Add => low_bits(width, a.wrapping_add(b)),
        Op::Sub => low_bits(width, a.wrapping_sub(b)),
        Op::Mul => low_bits(width, a.wrapping_mul(b)),
        Op::Band => a & b,
        Op::Bor => a | b,
        Op::Bxor => a ^ b,
        Op::Bnot => ones(width) - a,
        Op::Shl => shifted_up(width, a, b),
        Op::Shr => shifted_down(width, a, b),
        Op::Sar => shifted_down_signed(width, a, b),
        Op::Slice { hi, lo } => bits_between(hi, lo, a),
        Op::Cat => a.unbounded_shl(width) | b,
        Op::Zext { .. } => a,
        Op::Sext { width: wide } => sign_extended(width, wide, a),
        Op::Not | Op::And | Op::Or | Op::Ite | Op::Get { .. } => unreachable!(),
    }
}

/// Whether a comparison holds of two numbers of `width` bits; not where the operation is none.
pub fn holds(op: Op, width: u32, a: u64, b: u64) -> bool
    requires { AreNumbers width a b }
    ensures { result ≡ truth_of_op op width a b }
{
    match op {
        Op::Eq => a == b,
        Op::Ult => a < b,
        Op::Ule => a <= b,
        Op::Slt => signed(width, a) < signed(width, b),
        Op::Sle => signed(width, a) <= signed(width, b),
        _ => false,
    }
}

/// As many ones as the width.
fn ones(width: u32) -> u64
    requires { IsWidth width }
    ensures { result + 1 ≡ 2 ^ width }
{
    u64::MAX >> (WIDEST - width)
}

/// The weight of the top bit of that many.
fn top_bit(width: u32) -> u64
    requires { IsWidth width }
    ensures { result ≡ 2 ^ (width - 1) }
{
    1 << (width - 1)
}

/// The lowest bits of a word.
fn low_bits(width: u32, word: u64) -> u64
    requires { IsWidth width }
    ensures { result ≡ word % 2 ^ width }
{
    word & ones(width)
}

/// The bits of a number from `lo` to `hi`, both included.
fn bits_between(hi: u64, lo: u64, number: u64) -> u64
    requires ordered { lo ≤ hi }
    requires high { hi < widest }
    ensures { result ≡ (number / 2 ^ lo) % 2 ^ (hi - lo + 1) }
{
    low_bits((hi - lo + 1) as u32, number >> lo)
}

/// The whole number that the bits say in two's complement.
fn signed(width: u32, number: u64) -> i64
    requires { IsNumber width number }
    ensures { result ≡ signed width number }
{
    if number < top_bit(width) {
        number as i64
    } else {
        -1 - (ones(width) - number) as i64
    }
}

/// A number with copies of its top bit above it, up to `wide` bits.
fn sign_extended(width: u32, wide: u64, number: u64) -> u64
    requires number { IsNumber width number }
    requires longer { width ≤ wide }
    requires high { wide ≤ widest }
    ensures { result ≡ sign_extended width wide number }
{
    if number < top_bit(width) {
        number
    } else {
        number + (ones(wide as u32) - ones(width))
    }
}

/// The lowest bits of a number moved up by `by` places; 0 where all of them go.
fn shifted_up(width: u32, number: u64, by: u64) -> u64
    requires { IsNumber width number }
    ensures { result ≡ (if nat_lt by width then (number * 2 ^ by) % 2 ^ width else 0) }
{
    if by < u64::from(width) {
        low_bits(width, number << by)
    } else {
        0
    }
}

/// A number moved down by `by` places; 0 where all of them go.
fn shifted_down(width: u32, number: u64, by: u64) -> u64
    requires { IsNumber width number }
    ensures { result ≡ (if nat_lt by width then number / 2 ^ by else 0) }
{
    if by < u64::from(width) {
        number >> by
    } else {
        0
    }
}

/// A number moved down by `by` places, with copies of its top bit in those that it leaves.
fn shifted_down_signed(width: u32, number: u64, by: u64) -> u64
    requires { IsNumber width number }
    ensures { let k = min by width in result ≡ sign_extended width (width + k) number / 2 ^ k }
{
    let places = by.min(u64::from(width)) as u32;
    if number < top_bit(width) {
        number.unbounded_shr(places)
    } else {
        // What is moved down is the complement, whose top bit is 0.
        let complement = ones(width) - number;
        ones(width) - complement.unbounded_shr(places)
    }
}

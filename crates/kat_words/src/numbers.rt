//! The numbers that words spell.

ghost use Rattle.std.specs.Prelude.{◌≡◌, ◌^◌, ◌<◌, ◌≤◌, IfSome};
ghost use Rattle.kat_words.specs.Numbers.{number_within};

use crate::limits::MOST_DIGITS;

/// The number that a word's decimal digits spell, if it is from low to high.
pub(crate) fn number_within(low: u64, high: u64, word: &str) -> Option<u64>
    requires { high < 2 ^ 32 }
    ensures number { result ≡ number_within low high word.now }
    ensures within { IfSome result (λ n. (low ≤ n) × (n ≤ high)) }
{
    let digits = word.as_bytes();
    if digits.is_empty() || digits.len() > MOST_DIGITS {
        return None;
    }
    let mut number: u64 = 0;
    for digit in digits {
        if !digit.is_ascii_digit() {
            return None;
        }
        number = number * 10 + u64::from(*digit - b'0');
        if number > high {
            return None;
        }
    }
    if number < low { None } else { Some(number) }
}

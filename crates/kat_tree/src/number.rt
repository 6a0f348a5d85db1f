//! The numbers of words.

ghost use Rattle.std.specs.Prelude.{◌≡◌, ◌≤◌, ℕ, List, Some, IfSome};
ghost use Rattle.std.specs.Iterator.{AlwaysYields, IsFinite};
ghost use Rattle.std.specs.Str.{chars};
ghost use Rattle.kat_tree.specs.declared.tree.Token.TheVariants.{Number};
ghost use Rattle.kat_tree.specs.Number.{with_digit, digits_number, word_number};
ghost use Rattle.kat_tree.specs.Spelling.{SpellsToken};

/// The number that a word spells as a token of tree text: decimal digits, or `0x` and at least one
/// hexadecimal digit of either case, and below 2^64. `None` exactly where the word spells no
/// number.
pub fn number_of_word(word: &str) -> Option<u64>
    ensures found { IfSome result (λ n. SpellsToken (chars word.now) (Number n)) }
    ensures only { (n : ℕ) → SpellsToken (chars word.now) (Number n) → result ≡ Some n }
{
    match word.strip_prefix("0x") {
        Some(digits) => digits_number(16, digits.chars()),
        None => digits_number(10, word.chars()),
    }
}

/// The same of a word's characters.
pub(crate) fn word_number(word: &[char]) -> Option<u64>
    ensures { result ≡ word_number word.now }
{
    match word {
        ['0', 'x', digits @ ..] => digits_number(16, digits.iter().copied()),
        _ => digits_number(10, word.iter().copied()),
    }
}

/// The number of at least one digit, if each is a digit of the base and the number is below 2^64.
fn digits_number<I: Iterator<Item = char> + Drop>(base: u32, digits: I) -> Option<u64>
    requires least { 2 ≤ base }
    requires most { base ≤ 36 }
    requires can { I.can_next digits }
    requires ends { IsFinite (I.remaining digits) }
    ensures { (cs : List ℕ) →
        AlwaysYields I.next_gives (λ c. c) digits cs → result ≡ digits_number base cs }
{
    let mut digits = digits;
    let mut number = with_digit(base, 0, digits.next()?)?;
    while let Some(digit) = digits.next() {
        number = with_digit(base, number, digit)?;
    }
    Some(number)
}

/// The number with one digit more, if that is a digit of the base and the number stays below 2^64.
fn with_digit(base: u32, number: u64, digit: char) -> Option<u64>
    requires least { 2 ≤ base }
    requires most { base ≤ 36 }
    ensures { result ≡ with_digit base number digit }
{
    let value = digit.to_digit(base)?;
    number
        .checked_mul(u64::from(base))?
        .checked_add(u64::from(value))
}

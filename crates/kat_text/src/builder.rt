//! A text that is written piece by piece.

ghost use Rattle.std.specs.Prelude.{◌≡◌, ◌++◌, [], ◌∷◌, ◌/◌, ◌%◌, ◌^◌, ◌<◌, OnOk, OnErr};
ghost use Rattle.std.specs.Fmt.{decimal};
ghost use Rattle.std.specs.String.{string_bytes};
ghost use Rattle.kat_text.specs.Hexadecimal.{hex_digit, hex_digits};

use crate::text::Text;
use std::alloc::{AllocError, Global};
use std::marker::Model;

/// A text that grows at its end. Contracts see it as its bytes.
///
/// Each `push_` adds one piece, and fails only for want of memory; the text is then as it was.
#[derive(Drop)]
pub struct TextBuilder {
    text: String,
}

impl Model for TextBuilder {
    ghost use Rattle.std.specs.Prelude.{List, ℕ};
    ghost use Rattle.std.specs.String.{string_bytes};

    ghost Value = { List ℕ };

    ghost view = { λ b. string_bytes b.text };
}

impl TextBuilder {
    /// Nothing yet; no memory is taken.
    pub fn new(alloc: Global) -> TextBuilder
        ensures { result ≡ [] }
    {
        TextBuilder {
            text: String::new(alloc),
        }
    }

    /// Gives the text as a `String`; no memory is taken.
    pub fn into_string(self) -> String
        ensures { string_bytes result ≡ self }
    {
        self.text
    }

    /// Gives the text; no memory is taken.
    pub fn into_text(self) -> Text
        ensures { result ≡ self }
    {
        Text::from_string(self.text)
    }

    /// Lends the text.
    pub fn as_str(&self) -> &str
        ensures { result.now ≡ self.now }
    {
        self.text.as_str()
    }

    /// Lends the text's bytes.
    pub fn as_bytes(&self) -> &[u8]
        ensures { result.now ≡ self.now }
    {
        self.text.as_bytes()
    }

    /// Begins again with nothing, in the memory that was taken.
    pub fn clear(&mut self)
        ensures { self.new ≡ [] }
    {
        self.text.clear()
    }

    /// A piece of text.
    pub fn push_text(&mut self, piece: &str) -> Result<(), AllocError>
        ensures pushed { OnOk result (self.new ≡ self.old ++ piece.now) }
        ensures kept { OnErr result (self.new ≡ self.old) }
    {
        self.text.push_str(piece)
    }

    /// A space.
    pub fn push_space(&mut self) -> Result<(), AllocError>
        ensures pushed { OnOk result (self.new ≡ self.old ++ 32 ∷ []) }
        ensures kept { OnErr result (self.new ≡ self.old) }
    {
        self.text.push_str(" ")
    }

    /// A newline.
    pub fn push_newline(&mut self) -> Result<(), AllocError>
        ensures pushed { OnOk result (self.new ≡ self.old ++ 10 ∷ []) }
        ensures kept { OnErr result (self.new ≡ self.old) }
    {
        self.text.push_str("\n")
    }

    /// An opening bracket.
    pub fn push_open(&mut self) -> Result<(), AllocError>
        ensures pushed { OnOk result (self.new ≡ self.old ++ 40 ∷ []) }
        ensures kept { OnErr result (self.new ≡ self.old) }
    {
        self.text.push_str("(")
    }

    /// A closing bracket.
    pub fn push_close(&mut self) -> Result<(), AllocError>
        ensures pushed { OnOk result (self.new ≡ self.old ++ 41 ∷ []) }
        ensures kept { OnErr result (self.new ≡ self.old) }
    {
        self.text.push_str(")")
    }

    /// A number in decimal digits.
    pub fn push_decimal(&mut self, number: u64) -> Result<(), AllocError>
        ensures pushed { OnOk result (self.new ≡ self.old ++ decimal number) }
        ensures kept { OnErr result (self.new ≡ self.old) }
    {
        let mut buffer = itoa::Buffer::new();
        self.text.push_str(buffer.format(number))
    }

    /// The last so many hexadecimal digits of a number, zeros in front where it has fewer.
    pub fn push_hexadecimal(&mut self, number: u64, digits: u32) -> Result<(), AllocError>
        ensures pushed { OnOk result (self.new ≡ self.old ++ hex_digits digits number) }
        ensures kept { OnErr result (self.new ≡ self.old) }
    {
        self.text.reserve(digits as usize)?;
        for done in 0..digits {
            self.text.push(digit_at(number, digits - 1 - done))?;
        }
        Ok(())
    }

    /// An opening bracket and the word behind it.
    pub fn push_head(&mut self, word: &str) -> Result<(), AllocError>
        ensures pushed { OnOk result (self.new ≡ self.old ++ 40 ∷ word.now) }
        ensures kept { OnErr result (self.new ≡ self.old) }
    {
        self.push_both("(", word)
    }

    /// A space and the word behind it.
    pub fn push_part(&mut self, word: &str) -> Result<(), AllocError>
        ensures pushed { OnOk result (self.new ≡ self.old ++ 32 ∷ word.now) }
        ensures kept { OnErr result (self.new ≡ self.old) }
    {
        self.push_both(" ", word)
    }

    /// A space and a number in decimal digits behind it.
    pub fn push_decimal_part(&mut self, number: u64) -> Result<(), AllocError>
        ensures pushed { OnOk result (self.new ≡ self.old ++ 32 ∷ decimal number) }
        ensures kept { OnErr result (self.new ≡ self.old) }
    {
        let mut buffer = itoa::Buffer::new();
        self.push_both(" ", buffer.format(number))
    }

    /// Two pieces, both or neither.
    fn push_both(&mut self, first: &str, second: &str) -> Result<(), AllocError>
        ensures pushed { OnOk result (self.new ≡ self.old ++ first.now ++ second.now) }
        ensures kept { OnErr result (self.new ≡ self.old) }
    {
        self.text.reserve(first.len() + second.len())?;
        self.text.push_str(first)?;
        self.text.push_str(second)
    }
}

/// The hexadecimal digit of a number at a place, the last one being at 0.
fn digit_at(number: u64, place: u32) -> char
    ensures value { result ≡ hex_digit ((number / 16 ^ place) % 16) }
    ensures ascii { result < 128 }
{
    char::from(hex_digit(sixteen_at(number, place)))
}

/// The same as a number.
fn sixteen_at(number: u64, place: u32) -> u8
    ensures { result ≡ (number / 16 ^ place) % 16 }
{
    if place < 16 {
        ((number >> (4 * place)) % 16) as u8
    } else {
        0
    }
}

/// `0` to `9` and `a` to `f`.
fn hex_digit(digit: u8) -> u8
    requires { digit < 16 }
    ensures value { result ≡ hex_digit digit }
    ensures ascii { result < 128 }
{
    if digit < 10 {
        b'0' + digit
    } else {
        b'a' + (digit - 10)
    }
}

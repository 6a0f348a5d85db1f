//! What of a line is not read yet.

ghost use Rattle.std.specs.Prelude.{◌≡◌, IsTrue, IsFalse, Some, None};
ghost use Rattle.std.specs.Option.{option_map};
ghost use Rattle.kat_image.specs.Words.{word_front, behind, head_front};

use memchr::memchr2;
use std::str;

/// What of a line is not read yet.
#[derive(Drop)]
pub(crate) struct Unread<'a> {
    pub rest: &'a [u8],
}

impl<'a> Unread<'a> {
    /// A whole text.
    pub fn new(text: &'a [u8]) -> Unread<'a>
        ensures { result.rest.now ≡ text.now }
    {
        Unread { rest: text }
    }

    /// Reads a word: up to a space, a closing bracket or the end.
    pub fn word(&mut self) -> Option<&'a str>
        ensures { option_map (λ word. (word.now, self.new.rest.now)) result
            ≡ word_front self.old.rest.now }
    {
        let end = memchr2(b' ', b')', self.rest).unwrap_or(self.rest.len());
        let (word, rest) = self.rest.split_at(end);
        self.rest = rest;
        match str::from_utf8(word) {
            Ok(word) => Some(word),
            Err(_) => None,
        }
    }

    /// Reads this byte, where it is the next one.
    pub fn byte(&mut self, byte: u8) -> bool
        ensures taken { IsTrue result → behind byte self.old.rest.now ≡ Some self.new.rest.now }
        ensures other { IsFalse result → behind byte self.old.rest.now ≡ None }
    {
        match self.rest.split_first() {
            Some((first, rest)) if *first == byte => {
                self.rest = rest;
                true
            }
            _ => false,
        }
    }

    /// Reads an opening bracket and the word behind it.
    pub fn head(&mut self) -> Option<&'a str>
        ensures { option_map (λ word. (word.now, self.new.rest.now)) result
            ≡ head_front self.old.rest.now }
    {
        if self.byte(b'(') { self.word() } else { None }
    }
}

//! The tokens of words.

ghost use Rattle.std.specs.Prelude.{◌≡◌, ◌++◌, IfOk, OnOk, encode_utf8_all};
ghost use Rattle.std.specs.String.{string_bytes};
ghost use Rattle.kat_tree.specs.Machine.{word_token};

use crate::number::word_number;
use crate::tree::Token;
use kat_text::Text;
use std::alloc::{AllocError, Global};

/// The token that a whole word spells: a number if it begins with a digit, else a name.
#[tactic(auto, unfolding(crate::specs::Machine::word_token))]
pub(crate) fn word_token(alloc: Global, word: &[char]) -> Result<Option<Token>, AllocError>
    ensures { IfOk result (λ token. token ≡ word_token word.now) }
{
    match word {
        ['0'..='9', ..] => match word_number(word) {
            None => Ok(None),
            Some(number) => Ok(Some(Token::Number(number))),
        },
        _ => Ok(Some(Token::Name(text_of(alloc, word)?))),
    }
}

/// The characters as a text.
fn text_of(alloc: Global, word: &[char]) -> Result<Text, AllocError>
    ensures { IfOk result (λ text. text ≡ encode_utf8_all word.now) }
{
    let mut text = String::new(alloc);
    for c in word {
        text.push(*c)?;
    }
    Ok(Text::from_string(text))
}

//! Atoms.

ghost use Rattle.std.specs.Prelude.{◌≡◌};
ghost use Rattle.kat_shapes.specs.Forms.{is_name, is_since, row_of, words_of, fits_token};

use crate::sort::Sort;
use crate::table::word_since;
use kat_tree::Token;
use kat_value::is_version;

/// Whether a number or a name stands for a sort, in a version of the text.
pub(crate) fn fits_token(version: u64, sort: Sort, token: &Token) -> bool
    ensures { result ≡ fits_token version sort token.now }
{
    match (sort, token) {
        (Sort::Version, Token::Number(n)) => is_version(*n),
        (Sort::Number, Token::Number(_)) => true,
        (Sort::Name, Token::Name(word)) => is_name(word.as_str()),
        (Sort::TypeName, Token::Name(word)) => word.as_str() != "true" && word.as_str() != "false",
        (Sort::Expression, Token::Name(_)) => true,
        (Sort::Word, _) => true,
        (_, Token::Number(_)) => false,
        (_, Token::Name(word)) => is_word_of(version, sort, word.as_str()),
    }
}

/// Whether a word may be a name.
fn is_name(word: &str) -> bool
    ensures { result ≡ is_name word.now }
{
    word != "true" && word != "false" && word != "unit"
}

/// Whether a word stands alone for a sort.
fn is_word_of(version: u64, sort: Sort, word: &str) -> bool
    ensures { result ≡ is_since version (row_of (words_of sort) word.now) }
{
    match word_since(sort, word) {
        Some(since) => since <= version,
        None => false,
    }
}

//! Why bytes are no tree.

ghost use Rattle.std.specs.Prelude.{◌≡◌};
ghost use Rattle.kat_tree.specs.declared.error.TreeError.TheVariants.{Memory};

use std::alloc::{AllocError, AllocFailed};
use thiserror::Error;

/// Why bytes were not read as a tree: the first fault from left to right. Offsets count bytes.
#[derive(Clone, Copy, Debug, PartialEq, Eq, Error)]
pub enum TreeError {
    /// The bytes are not UTF-8. The longest front of them that is text has this length. It comes
    /// before each other fault, also before one that stands earlier.
    #[error("the text is no longer UTF-8 at byte {0}")]
    NotText(u64),
    /// The text ends, at this length, before its tree does; also where it has no tree.
    #[error("the text ends at byte {0} before its tree does")]
    Unclosed(u64),
    /// A `)` here has nothing to close, or here stands more than blanks and comments after the
    /// tree.
    #[error("nothing may stand at byte {0}")]
    Stray(u64),
    /// Here stands no token: a character that begins none, or a word that begins with a digit and
    /// is no number below 2^64.
    #[error("no token stands at byte {0}")]
    BadToken(u64),
    /// A `(` here would be open beside as many as may be: `MOST_OPEN`.
    #[error("too many brackets are open at byte {0}")]
    Deep(u64),
    /// Memory ran out.
    #[error("out of memory")]
    Memory,
}

impl From<AllocError> for TreeError {
    ghost from_gives = { λ _ e. e ≡ Memory };

    fn from(_error: AllocError) -> TreeError {
        TreeError::Memory
    }
}

impl<T: Drop> From<AllocFailed<T>> for TreeError {
    ghost from_gives = { λ _ e. e ≡ Memory };

    fn from(_error: AllocFailed<T>) -> TreeError {
        TreeError::Memory
    }
}

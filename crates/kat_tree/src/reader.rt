//! The reading of a text, character by character.

ghost use Rattle.std.specs.Prelude.{◌≡◌};
ghost use Rattle.kat_tree.specs.Character.{is_blank, begins_word};
ghost use Rattle.kat_tree.specs.Machine.{Gives, begun, marked, stepped, ended};

use crate::error::TreeError;
use crate::progress::{Progress, closed, finished, opened, with_word};
use crate::tree::Tree;
use sqlite_items::Items;
use std::alloc::Global;
use unicode_ident::{is_xid_continue, is_xid_start};

/// What the characters that come next belong to.
#[derive(Drop)]
pub(crate) enum Mode {
    /// Nothing that has begun.
    Between,
    Comment,
    /// A word, with the offset at which it began and its characters so far.
    Word(u64, Items<char>),
}

/// The reading of a text, up to one of its characters.
#[derive(Drop)]
pub(crate) struct Reader {
    pub(crate) mode: Mode,
    pub(crate) progress: Progress,
}

/// The reading with one character more, which stands at this offset.
pub(crate) fn stepped(alloc: Global, reader: Reader, at: u64, c: char) -> Result<Reader, TreeError>
    ensures { Gives result (stepped at reader c) }
{
    let Reader { mode, progress } = reader;
    match mode {
        Mode::Between => begun(alloc, progress, at, c),
        Mode::Comment => Ok(Reader {
            mode: if c == '\n' {
                Mode::Between
            } else {
                Mode::Comment
            },
            progress,
        }),
        Mode::Word(start, word) => {
            let mut word = word;
            if is_xid_continue(c) {
                word.push(c)?;
                return Ok(Reader {
                    mode: Mode::Word(start, word),
                    progress,
                });
            }
            let progress = with_word(alloc, progress, start, word.as_slice())?;
            begun(alloc, progress, at, c)
        }
    }
}

/// The reading of a text that ends at this offset.
pub(crate) fn ended(alloc: Global, reader: Reader, at: u64) -> Result<Tree, TreeError>
    ensures { Gives result (ended at reader) }
{
    let Reader { mode, progress } = reader;
    match mode {
        Mode::Word(start, word) => {
            finished(with_word(alloc, progress, start, word.as_slice())?, at)
        }
        _ => finished(progress, at),
    }
}

/// A character at this offset that belongs to nothing before it.
#[tactic(auto, unfolding(crate::specs::Machine::begun))]
fn begun(alloc: Global, progress: Progress, at: u64, c: char) -> Result<Reader, TreeError>
    ensures { Gives result (begun at progress c) }
{
    if is_blank(c) {
        return Ok(Reader {
            mode: Mode::Between,
            progress,
        });
    }
    if c == ';' {
        return Ok(Reader {
            mode: Mode::Comment,
            progress,
        });
    }
    if begins_word(c) {
        let mut word = Items::new(alloc);
        word.push(c)?;
        return Ok(Reader {
            mode: Mode::Word(at, word),
            progress,
        });
    }
    Ok(Reader {
        mode: Mode::Between,
        progress: marked(alloc, progress, at, c)?,
    })
}

/// A bracket at this offset, or a character that begins nothing.
#[tactic(auto, unfolding(crate::specs::Machine::marked))]
fn marked(alloc: Global, progress: Progress, at: u64, c: char) -> Result<Progress, TreeError>
    ensures { Gives result (marked at progress c) }
{
    match c {
        '(' => opened(alloc, progress, at),
        ')' => closed(progress, at),
        _ => match progress {
            Progress::Whole(_) => Err(TreeError::Stray(at)),
            Progress::Open(_) => Err(TreeError::BadToken(at)),
        },
    }
}

/// A space, a tab, a newline or a carriage return.
fn is_blank(c: char) -> bool
    ensures { result ≡ is_blank c }
{
    matches!(c, ' ' | '\t' | '\n' | '\r')
}

/// A digit, `_` or a letter.
fn begins_word(c: char) -> bool
    ensures { result ≡ begins_word c }
{
    c.is_ascii_digit() || c == '_' || is_xid_start(c)
}

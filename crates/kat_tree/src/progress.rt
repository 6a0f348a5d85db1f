//! The tree of a text, as far as its tokens have been read.

ghost use Rattle.std.specs.Prelude.{◌≡◌, IfOk};
ghost use Rattle.kat_tree.specs.Machine.{Gives, with_tree, opened, closed, with_word, finished};

use crate::error::TreeError;
use crate::stack::Stack;
use crate::tree::{Tree, Trees};
use crate::word::word_token;
use sqlite_items::Items;
use std::alloc::{AllocError, Global};

/// As many brackets of a text may be open at once.
pub const MOST_OPEN: usize = 64;

/// How far the tree of a text has come.
#[derive(Drop)]
pub(crate) enum Progress {
    /// It has not ended: these lists are open, and with none it has not begun.
    Open(Stack<Trees>),
    Whole(Tree),
}

/// A `(` stands at this offset.
pub(crate) fn opened(alloc: Global, progress: Progress, at: u64) -> Result<Progress, TreeError>
    ensures { Gives result (opened at progress) }
{
    match progress {
        Progress::Whole(_) => Err(TreeError::Stray(at)),
        Progress::Open(lists) => {
            if lists.len() >= MOST_OPEN {
                return Err(TreeError::Deep(at));
            }
            let mut lists = lists;
            lists.push(Items::new(alloc))?;
            Ok(Progress::Open(lists))
        }
    }
}

/// A `)` stands at this offset.
pub(crate) fn closed(progress: Progress, at: u64) -> Result<Progress, TreeError>
    ensures { Gives result (closed at progress) }
{
    match progress {
        Progress::Whole(_) => Err(TreeError::Stray(at)),
        Progress::Open(lists) => {
            let mut lists = lists;
            match lists.pop() {
                None => Err(TreeError::Stray(at)),
                Some(list) => Ok(with_tree(lists, Tree::List(list))?),
            }
        }
    }
}

/// A word that began at this offset has ended.
pub(crate) fn with_word(
    alloc: Global,
    progress: Progress,
    at: u64,
    word: &[char],
) -> Result<Progress, TreeError>
    ensures { Gives result (with_word at word.now progress) }
{
    match progress {
        Progress::Whole(_) => Err(TreeError::Stray(at)),
        Progress::Open(lists) => match word_token(alloc, word)? {
            None => Err(TreeError::BadToken(at)),
            Some(token) => Ok(with_tree(lists, Tree::Atom(token))?),
        },
    }
}

/// The text ends at this offset.
pub(crate) fn finished(progress: Progress, at: u64) -> Result<Tree, TreeError>
    ensures { Gives result (finished at progress) }
{
    match progress {
        Progress::Whole(tree) => Ok(tree),
        Progress::Open(_) => Err(TreeError::Unclosed(at)),
    }
}

/// A tree ends: it is one more in the innermost list, or the tree of the text.
fn with_tree(lists: Stack<Trees>, tree: Tree) -> Result<Progress, AllocError>
    ensures { IfOk result (λ p. p ≡ with_tree tree lists) }
{
    let mut lists = lists;
    match lists.pop() {
        None => Ok(Progress::Whole(tree)),
        Some(list) => {
            let mut list = list;
            list.push(tree)?;
            lists.push(list)?;
            Ok(Progress::Open(lists))
        }
    }
}

//! Bytes read as a tree.

ghost use Rattle.std.specs.Prelude.{◌≢◌, Ok, Err, IfOk, IfErr};
ghost use Rattle.std.specs.Str.{chars};
ghost use Rattle.kat_tree.specs.Machine.{Gives, run, start};
ghost use Rattle.kat_tree.specs.Spelling.{Spells};
ghost use Rattle.kat_tree.specs.Faults.{IsFirstFault};
ghost use Rattle.kat_tree.specs.declared.error.TreeError.{TreeError};
ghost use Rattle.kat_tree.specs.declared.tree.Tree.{Tree};

use crate::error::TreeError;
use crate::progress::Progress;
use crate::reader::{Mode, Reader, ended, stepped};
use crate::stack::Stack;
use crate::tree::Tree;
use std::alloc::Global;

/// The tree that the bytes spell: UTF-8, and in it one tree with blanks and comments around it. An
/// error but `Memory` is the first fault of the bytes, as `TreeError` names it.
pub fn read_tree(alloc: Global, bytes: &[u8]) -> Result<Tree, TreeError>
    // What is read is what the bytes spell.
    ensures found { IfOk result (Spells bytes.now) }
    // What the bytes spell is read, unless memory runs out.
    ensures only { (tree : Tree) → Spells bytes.now tree → Gives result (Ok tree) }

    // A fault is the first one of the bytes.
    ensures fault { IfErr result
        (λ fault. fault ≢ TreeError.Memory → IsFirstFault bytes.now fault) }
    // The first fault of the bytes is the answer, unless memory runs out.
    ensures first { (fault : TreeError) → IsFirstFault bytes.now fault → Gives result (Err fault) }
{
    match str::from_utf8(bytes) {
        Ok(text) => read_text(alloc, text),
        Err(error) => Err(TreeError::NotText(error.valid_up_to() as u64)),
    }
}

/// The tree of a text, in one pass over its characters.
fn read_text(alloc: Global, text: &str) -> Result<Tree, TreeError>
    ensures { Gives result (run 0 start (chars text.now)) }
{
    let mut reader = Reader {
        mode: Mode::Between,
        progress: Progress::Open(Stack::new(alloc)),
    };
    let mut at = 0;
    let mut rest = text.chars();
    while let Some(c) = rest.next() {
        reader = stepped(alloc, reader, at, c)?;
        at += c.len_utf8() as u64;
    }
    ended(alloc, reader, at)
}

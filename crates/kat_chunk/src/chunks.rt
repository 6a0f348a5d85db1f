//! Lists of chunks.

ghost use Rattle.std.specs.Prelude.{◌≡◌, ◌<◌, ◌++◌, [], ◌∷◌, IfOk, OnOk, OnErr, length, remove, slice_get, slice_set, Some};
ghost use Rattle.kat_chunk.specs.Chunks.{AnswersAdded};

use crate::chunk::{Chunk, copy_chunk};
use crate::limits::MAX_CHUNKS;
use sqlite_items::Items;
use std::alloc::{AllocError, Global};
use std::marker::Model;
use thiserror::Error;

/// Why a chunk was not added.
#[derive(Clone, Copy, Debug, PartialEq, Eq, Error)]
pub enum AddError {
    /// There are 1,024 chunks already.
    #[error("a path has too many chunks")]
    Full,
    /// Memory ran out.
    #[error("out of memory")]
    Memory,
}

impl From<AllocError> for AddError {
    ghost use Rattle.std.specs.Prelude.{◌≡◌};
    ghost use Rattle.kat_chunk.specs.declared.chunks.AddError.TheVariants.{Memory};

    ghost from_gives = { λ _ e. e ≡ Memory };

    fn from(_error: AllocError) -> AddError {
        AddError::Memory
    }
}

/// The chunks of a path, at most 1,024, in the order in which they were made. Contracts see them as
/// a list.
#[derive(Drop)]
pub struct Chunks {
    alloc: Global,
    items: Items<Chunk>,
}

impl Model for Chunks {
    ghost use Rattle.std.specs.Prelude.{List, length, ◌≤◌};
    ghost use Rattle.std.specs.Coded.{codes};
    ghost use Rattle.kat_chunk.specs.Limits.{max_chunks};
    ghost use Rattle.kat_chunk.specs.declared.chunk.Chunk.{Chunk};
    ghost use Rattle.kat_term.specs.contracts.term.Term.{the_row as term};

    ghost Value = { List Chunk };

    ghost coded = { Prim.hlevel (codes, term.coded) };

    ghost view = { λ c. c.items };

    ghost invariant = { λ c. length c.items ≤ max_chunks };
}

impl Chunks {
    /// No chunk.
    pub fn new(alloc: Global) -> Result<Chunks, AllocError>
        ensures { IfOk result (λ c. c ≡ []) }
    {
        Ok(Chunks {
            alloc,
            items: Items::new(alloc),
        })
    }

    /// Equal chunks, in the same order.
    pub fn copy(&self) -> Result<Chunks, AllocError>
        ensures { IfOk result (λ c. c ≡ self.now) }
    {
        Ok(Chunks {
            alloc: self.alloc,
            items: copy_items(self.alloc, self.items.as_slice())?,
        })
    }

    /// The chunks, in the order in which they were made.
    pub fn as_slice(&self) -> &[Chunk]
        ensures { result.now ≡ self.now }
    {
        self.items.as_slice()
    }

    /// Adds a chunk at the end. It answers `Full` exactly where there are 1,024 already.
    #[tactic(auto, unfolding(crate::specs::Limits::max_chunks))]
    pub fn add(&mut self, chunk: Chunk) -> Result<(), AddError>
        ensures added { AnswersAdded result self.old self.new chunk }
        ensures kept { OnErr result (self.new ≡ self.old) }
    {
        if self.items.len() >= MAX_CHUNKS {
            return Err(AddError::Full);
        }
        self.items.push(chunk)?;
        Ok(())
    }

    /// Puts a chunk in the place of the one there.
    pub fn set(&mut self, at: usize, chunk: Chunk)
        requires { at < length self.old }
        ensures { self.new ≡ slice_set self.old at chunk }
    {
        self.items.set(at, chunk);
    }

    /// Takes the chunk at a place out; those behind it move up.
    pub fn remove(&mut self, at: usize) -> Chunk
        requires { at < length self.old }
        ensures chunk { slice_get self.old at ≡ Some result }
        ensures rest { self.new ≡ remove self.old at }
    {
        self.items.remove(at)
    }
}

/// Equal chunks, in the same order.
fn copy_items(alloc: Global, chunks: &[Chunk]) -> Result<Items<Chunk>, AllocError>
    ensures { IfOk result (λ cs. cs ≡ chunks.now) }
{
    let mut copies = Items::new(alloc);
    for chunk in chunks {
        copies.push(copy_chunk(alloc, chunk)?)?;
    }
    Ok(copies)
}

//! Chunks.

ghost use Rattle.std.specs.Prelude.{◌≡◌, IfOk};

use kat_term::{Term, Terms, copy_term, copy_terms};
use std::alloc::{AllocError, Global};

/// A part of a state that a path owns. Registers, predicates and regions are told by their
/// positions among those of the specification, in order of declaration.
#[derive(Drop)]
pub enum Chunk {
    /// A register with its value.
    Reg {
        reg: u32,
        value: Term,
    },
    /// A cell of the memory, by its index, with its value.
    Cell {
        key: Term,
        value: Term,
    },
    /// What a predicate says of its inputs and then its outputs.
    Pred {
        pred: u32,
        args: Terms,
    },
    /// The cells of a region, without those at the indices of its holes.
    Region {
        region: u32,
        args: Terms,
        holes: Terms,
    },
}

/// An equal chunk.
pub fn copy_chunk(alloc: Global, chunk: &Chunk) -> Result<Chunk, AllocError>
    ensures { IfOk result (λ c. c ≡ chunk.now) }
{
    match chunk {
        Chunk::Reg { reg, value } => Ok(Chunk::Reg {
            reg: *reg,
            value: copy_term(alloc, value)?,
        }),
        Chunk::Cell { key, value } => Ok(Chunk::Cell {
            key: copy_term(alloc, key)?,
            value: copy_term(alloc, value)?,
        }),
        Chunk::Pred { pred, args } => Ok(Chunk::Pred {
            pred: *pred,
            args: copy_terms(alloc, args.as_slice())?,
        }),
        Chunk::Region {
            region,
            args,
            holes,
        } => Ok(Chunk::Region {
            region: *region,
            args: copy_terms(alloc, args.as_slice())?,
            holes: copy_terms(alloc, holes.as_slice())?,
        }),
    }
}

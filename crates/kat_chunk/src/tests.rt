//! Lists of chunks where memory lasts, which no clause says of a call.

use crate::chunk::Chunk;
use crate::chunks::{AddError, Chunks};
use crate::limits::MAX_CHUNKS;
use kat_term::{Term, Terms, bits, same_term, truth, var};
use sqlite_items::Items;
use std::alloc::{AllocError, Global};
use std::test::Fail;

/// The kinds of chunks.
#[derive(Clone, Copy, Drop)]
enum Kind {
    Reg,
    Cell,
    Pred,
    Region,
}

/// A chunk of each kind, with a number that it has.
const EACH: &[(Kind, u32)] = &[
    (Kind::Reg, 7),
    (Kind::Cell, 3),
    (Kind::Pred, 2),
    (Kind::Region, 1),
];

/// The same behind another register in the place of the cell.
const SET: &[(Kind, u32)] = &[
    (Kind::Reg, 7),
    (Kind::Reg, 9),
    (Kind::Pred, 2),
    (Kind::Region, 1),
];

/// The same without the predicate.
const TAKEN: &[(Kind, u32)] = &[(Kind::Reg, 7), (Kind::Reg, 9), (Kind::Region, 1)];

/// These variables.
fn vars(alloc: Global, numbers: &[u32]) -> Result<Terms, AllocError> {
    let mut terms = Items::new(alloc);
    for number in numbers {
        terms.push(var(*number))?;
    }
    Ok(terms)
}

/// A chunk of this kind with this number.
fn chunk_of(alloc: Global, kind: Kind, number: u32) -> Result<Chunk, AllocError> {
    match kind {
        Kind::Reg => Ok(Chunk::Reg {
            reg: number,
            value: truth(true),
        }),
        Kind::Cell => Ok(Chunk::Cell {
            key: var(number),
            value: bits(8, 255),
        }),
        Kind::Pred => Ok(Chunk::Pred {
            pred: number,
            args: vars(alloc, &[4, 5])?,
        }),
        Kind::Region => Ok(Chunk::Region {
            region: number,
            args: vars(alloc, &[6])?,
            holes: vars(alloc, &[8, 9, 10])?,
        }),
    }
}

/// Whether terms are the same, one by one.
fn same_terms(a: &[Term], b: &[Term]) -> bool {
    if a.len() != b.len() {
        return false;
    }
    for (x, y) in a.iter().zip(b) {
        if !same_term(x, y) {
            return false;
        }
    }
    true
}

/// Whether two chunks are the same.
fn same_chunk(a: &Chunk, b: &Chunk) -> bool {
    match (a, b) {
        (Chunk::Reg { reg: r, value: x }, Chunk::Reg { reg: s, value: y }) => {
            r == s && same_term(x, y)
        }
        (Chunk::Cell { key: k, value: x }, Chunk::Cell { key: l, value: y }) => {
            same_term(k, l) && same_term(x, y)
        }
        (Chunk::Pred { pred: p, args: x }, Chunk::Pred { pred: q, args: y }) => {
            p == q && same_terms(x.as_slice(), y.as_slice())
        }
        (
            Chunk::Region {
                region: p,
                args: x,
                holes: h,
            },
            Chunk::Region {
                region: q,
                args: y,
                holes: i,
            },
        ) => {
            p == q
                && same_terms(x.as_slice(), y.as_slice())
                && same_terms(h.as_slice(), i.as_slice())
        }
        _ => false,
    }
}

/// Whether these are the chunks of these rows, in order.
fn are_chunks(alloc: Global, chunks: &[Chunk], rows: &[(Kind, u32)]) -> Result<bool, AllocError> {
    if chunks.len() != rows.len() {
        return Ok(false);
    }
    for (chunk, (kind, number)) in chunks.iter().zip(rows) {
        let expected = chunk_of(alloc, *kind, *number)?;
        if !same_chunk(chunk, &expected) {
            return Ok(false);
        }
    }
    Ok(true)
}

/// The list of these rows.
fn chunks_of(alloc: Global, rows: &[(Kind, u32)]) -> Result<Chunks, AddError> {
    let mut chunks = Chunks::new(alloc)?;
    for (kind, number) in rows {
        chunks.add(chunk_of(alloc, *kind, *number)?)?;
    }
    Ok(chunks)
}

/// Whether a list has what was added, and its copy the same.
fn adds_and_copies(alloc: Global) -> Result<bool, AddError> {
    let chunks = chunks_of(alloc, EACH)?;
    let copy = chunks.copy()?;
    Ok(are_chunks(alloc, chunks.as_slice(), EACH)? && are_chunks(alloc, copy.as_slice(), EACH)?)
}

/// Whether one chunk is put in the place of another, and one is taken out.
fn sets_and_removes(alloc: Global) -> Result<bool, AddError> {
    let mut chunks = chunks_of(alloc, EACH)?;
    if chunks.as_slice().len() != 4 {
        return Ok(false);
    }
    chunks.set(1, chunk_of(alloc, Kind::Reg, 9)?);
    let is_set = are_chunks(alloc, chunks.as_slice(), SET)?;
    let taken = chunks.remove(2);
    let is_taken = same_chunk(&taken, &chunk_of(alloc, Kind::Pred, 2)?);
    Ok(is_set && is_taken && are_chunks(alloc, chunks.as_slice(), TAKEN)?)
}

/// A list of as many chunks as there may be.
fn full(alloc: Global) -> Result<Chunks, AddError> {
    let mut chunks = Chunks::new(alloc)?;
    for number in 0..MAX_CHUNKS {
        chunks.add(chunk_of(alloc, Kind::Cell, number as u32)?)?;
    }
    Ok(chunks)
}

/// Whether a list refuses one more chunk, as full.
fn refuses(alloc: Global, chunks: &mut Chunks) -> Result<bool, AllocError> {
    let answer = chunks.add(chunk_of(alloc, Kind::Reg, 0)?);
    Ok(answer == Err(AddError::Full) && chunks.as_slice().len() == 1_024)
}

/// Whether a full list takes no chunk, takes one behind one that is removed, and then none again.
fn is_bounded(alloc: Global) -> Result<bool, AddError> {
    let mut chunks = full(alloc)?;
    let was_full = refuses(alloc, &mut chunks)?;
    if chunks.as_slice().is_empty() {
        return Ok(false);
    }
    chunks.remove(0);
    chunks.add(chunk_of(alloc, Kind::Reg, 5)?)?;
    Ok(was_full && refuses(alloc, &mut chunks)?)
}

#[test]
fn chunks_are_kept_in_order(rt: HostRuntime) -> Result<(), Fail> {
    assert!(rt; adds_and_copies(rt.alloc())?);
    assert!(rt; sets_and_removes(rt.alloc())?);
    Ok(())
}

#[test]
fn a_full_list_takes_no_chunk(rt: HostRuntime) -> Result<(), Fail> {
    assert!(rt; is_bounded(rt.alloc())?);
    Ok(())
}

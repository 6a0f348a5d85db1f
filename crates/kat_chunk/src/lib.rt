//! Chunks: what a path of symbolic execution owns of a state, one register, cell, predicate or
//! region each, over terms. A list of chunks stands for a fragment of a state where the fragment
//! has pairwise disjoint parts, one for each chunk; places that no chunk has are allowed, since the
//! logic is affine. The laws say what one chunk of a list has, what may stand in its place, and how
//! a cell comes out of a region and back.
#![tactic(auto)]

mod chunk;
mod chunks;
mod laws;
mod limits;
#[cfg(test)]
mod tests;

pub use chunk::{Chunk, copy_chunk};
pub use chunks::{AddError, Chunks};
pub use laws::{cells_of_regions, chunks_have_parts, parts_stay};
pub use limits::MAX_CHUNKS;

//! The memory, and the ranges of its cells.

ghost use Rattle.std.specs.Prelude.{◌≡◌};
ghost use Rattle.kat_syntax.specs.Memories.{is_within, overlap, range_of, range_of_cells, range_of_code};

use kat_syntax::{CellsKind, DeclForm};
use sqlite_items::Items;
use std::marker::Model;

/// A memory: the number of its declaration, the widths of its indices and cells, and its bounds.
#[derive(Clone, Copy, Drop)]
pub struct Memory {
    pub decl: u32,
    pub index_width: u64,
    pub cell_width: u64,
    pub lo: u64,
    pub hi: u64,
}

impl Model for Memory {
    ghost use Rattle.kat_syntax.specs.Memories.{Memory as MemorySeen};

    ghost Value = { MemorySeen };

    ghost view = { λ m. record {
      decl = m.decl;
      index_width = m.index_width;
      cell_width = m.cell_width;
      lo = m.lo;
      hi = m.hi;
    } };

    ghost inverse = { λ m. record {
      decl = m.decl;
      index_width = m.index_width;
      cell_width = m.cell_width;
      lo = m.lo;
      hi = m.hi;
    } };
}

/// The cells from `lo` to `hi` - 1 that a declaration has, and whether they are protected.
#[derive(Clone, Copy, Drop)]
pub struct Range {
    lo: u64,
    hi: u128,
    protected: bool,
}

impl Model for Range {
    ghost use Rattle.kat_syntax.specs.Memories.{Range as RangeSeen};

    ghost Value = { RangeSeen };

    ghost view = { λ r. record { lo = r.lo; hi = r.hi; protected = r.protected } };

    ghost inverse = { λ r. record { lo = r.lo; hi = r.hi; protected = r.protected } };
}

impl Range {
    /// The cells that a declaration has.
    pub fn of(decl: &DeclForm) -> Option<Range>
        ensures { result ≡ range_of decl.now }
    {
        match decl {
            DeclForm::Cells { kind, lo, hi } => Some(Range::of_cells(*kind, *lo, *hi)),
            DeclForm::Code { lo, values } => Some(Range::of_code(*lo, values)),
            _ => None,
        }
    }

    /// The cells of `(cells kind lo hi)`.
    pub fn of_cells(kind: CellsKind, lo: u64, hi: u64) -> Range
        ensures { result ≡ range_of_cells kind lo hi }
    {
        Range {
            lo,
            hi: hi as u128,
            protected: kind == CellsKind::Protected,
        }
    }

    /// The cells of `(code lo n ..)`.
    pub fn of_code(lo: u64, values: &Items<u64>) -> Range
        ensures { result ≡ range_of_code lo values.now }
    {
        Range {
            lo,
            hi: lo as u128 + values.len() as u128,
            protected: false,
        }
    }

    /// Whether it has a cell, and all of them are cells of this memory, where there is one.
    pub fn is_within(&self, memory: Option<Memory>) -> bool
        ensures { result ≡ is_within self.now memory }
    {
        match memory {
            None => (self.lo as u128) < self.hi,
            Some(memory) => {
                (self.lo as u128) < self.hi && memory.lo <= self.lo && self.hi <= memory.hi as u128
            }
        }
    }

    /// Whether two ranges have a cell in common.
    pub fn overlaps(&self, other: &Range) -> bool
        ensures { result ≡ overlap self.now other.now }
    {
        let lo = self.lo.max(other.lo) as u128;
        lo < self.hi && lo < other.hi
    }
}

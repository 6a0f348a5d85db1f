//! Typing of the memory and of the cells that have kinds or values.

ghost use Rattle.std.specs.Prelude.{◌≡◌, ◌^◌, nat_lt};
ghost use Rattle.std.specs.List.{list_all};
ghost use Rattle.kat_ast.specs.declared.decl.DeclForm.TheVariants as decl;
ghost use Rattle.kat_syntax.specs.TypeRules.{least_with};
ghost use Rattle.kat_syntax.specs.Memories.{has_bounds};
ghost use Rattle.kat_syntax.specs.TypingDeclarations.{are_cell_values, inner_faults, range_faults};

use kat_expr_types::{Faults, judge_memory};
use kat_syntax::{CellsKind, TypeRule};
use kat_tables::{Around, Range, is_below};
use kat_value::is_width;
use sqlite_items::Items;

/// The most cells of a memory.
const MOST_CELLS: u64 = 1_048_576;

/// A memory: the first, with widths, and bounds that its indices reach.
#[tactic(auto, using(crate::proofs::Noting::least_both))]
pub fn judge_memory_decl(
    around: &Around<'_, '_>,
    index_width: u64,
    cell_width: u64,
    lo: u64,
    hi: u64,
    faults: &mut Faults,
)
    ensures { faults.new ≡ least_with faults.old (inner_faults around.now
        (decl.Memory index_width cell_width lo hi)) }
{
    faults.unless(around.memory_before().is_none(), 0, TypeRule::MemoryMissing);
    faults.unless(is_width(index_width), 2, TypeRule::NoWidth);
    faults.unless(is_width(cell_width), 3, TypeRule::NoWidth);
    faults.unless(has_bounds(index_width, lo, hi), 0, TypeRule::MemoryBounds);
}

/// Whether a memory has bounds that its indices reach, at most 1,048,576 cells apart.
fn has_bounds(index_width: u64, lo: u64, hi: u64) -> bool
    ensures { result ≡ has_bounds index_width lo hi }
{
    lo < hi && is_below(index_width, hi - 1) && hi - lo <= MOST_CELLS
}

/// `(cells kind lo hi)`
pub fn judge_cells(around: &Around<'_, '_>, kind: CellsKind, lo: u64, hi: u64, faults: &mut Faults)
    ensures { faults.new ≡ least_with faults.old
        (inner_faults around.now (decl.Cells kind lo hi)) }
{
    judge_range(around, &Range::of_cells(kind, lo, hi), faults);
}

/// `(code lo n ..)`
#[tactic(auto, using(crate::proofs::Noting::least_both))]
pub fn judge_code(around: &Around<'_, '_>, lo: u64, values: &Items<u64>, faults: &mut Faults)
    ensures { faults.new ≡ least_with faults.old
        (inner_faults around.now (decl.Code lo values.now)) }
{
    judge_range(around, &Range::of_code(lo, values), faults);
    let are_values = are_cell_values(around, values.as_slice());
    faults.unless(are_values, 0, TypeRule::RangeOutside);
}

/// A range of cells: it needs a memory, is inside, and no cell is taken.
#[tactic(auto, using(crate::proofs::Noting::least_both))]
fn judge_range(around: &Around<'_, '_>, range: &Range, faults: &mut Faults)
    ensures { faults.new ≡ least_with faults.old (range_faults around.now range.now) }
{
    judge_memory(around, 0, faults);
    let is_within = range.is_within(around.memory_before());
    faults.unless(is_within, 0, TypeRule::RangeOutside);
    faults.unless(!around.is_taken(range), 0, TypeRule::CellTaken);
}

/// Whether each value is one of the cells of the memory before, where there is one.
fn are_cell_values(around: &Around<'_, '_>, values: &[u64]) -> bool
    ensures { result ≡ are_cell_values around.now values.now }
{
    match around.memory_before() {
        Some(memory) => are_below(memory.cell_width, values),
        None => true,
    }
}

/// Whether each number is one of so many bits.
fn are_below(width: u64, numbers: &[u64]) -> bool
    ensures { result ≡ list_all (λ n. nat_lt n (2 ^ width)) numbers.now }
{
    for number in numbers {
        if !is_below(width, *number) {
            return false;
        }
    }
    true
}

//! The protected cells, found by halving.

ghost use Rattle.std.specs.Prelude.{◌≡◌, ◌≤◌, true, false, nat_le, List, length, IfOk};
ghost use Rattle.std.specs.List.{list_any};
ghost use Rattle.std.specs.List.Sorted.{IsNonDecreasingBy, IsPartitionPoint, IsPermutation};
ghost use Rattle.kat_ast.specs.declared.decl.DeclForm.{DeclForm};
ghost use Rattle.kat_syntax.specs.Memories.{protects, ranges_of};
ghost use Rattle.kat_tables.specs.Protected.{IsProtected, raised, reach_of, reaches_of};

use kat_syntax::{CellsKind, Decl, DeclForm};
use sqlite_items::Items;
use std::alloc::{AllocError, Global};

/// The cells from `lo` to `hi` - 1.
#[derive(Clone, Copy, Drop)]
pub struct Reach {
    lo: u64,
    hi: u64,
}

/// The protected ranges by their first cells, each with the greatest end of those up to it.
#[derive(Drop)]
pub struct Protected {
    reaches: Items<Reach>,
}

impl Protected {
    /// The protected ranges of declarations.
    pub fn of(alloc: Global, decls: &[Decl]) -> Result<Protected, AllocError>
        ensures { IfOk result (λ table. IsProtected decls.now table.reaches) }
    {
        let mut reaches = reaches_of(alloc, decls)?;
        sort_by_first(&mut reaches);
        let reaches = raised(alloc, &reaches)?;
        Ok(Protected { reaches })
    }

    /// Whether some declaration protects this cell.
    pub fn has(&self, cell: u64) -> bool
        ensures { (decls : List DeclForm) → IsProtected decls self.now.reaches →
            result ≡ list_any (protects cell) (ranges_of decls) }
    {
        let reaches = self.reaches.as_slice();
        let begun = begun_at(reaches, cell);
        begun > 0 && cell < reaches[begun - 1].hi
    }
}

/// How many ranges begin at this cell or before it.
fn begun_at(reaches: &[Reach], cell: u64) -> usize
    ensures within { result ≤ length reaches.now }
    ensures point { IsNonDecreasingBy (λ (reach : Reach). reach.lo) reaches.now →
        IsPartitionPoint (λ (reach : Reach). nat_le reach.lo cell ≡ true)
        (λ (reach : Reach). nat_le reach.lo cell ≡ false) reaches.now result }
{
    reaches.partition_point(|reach| reach.lo <= cell)
}

/// Sorts ranges by their first cells.
fn sort_by_first(reaches: &mut [Reach])
    ensures sorted { IsNonDecreasingBy (λ (reach : Reach). reach.lo) reaches.new }
    ensures permutation { IsPermutation reaches.old reaches.new }
{
    reaches.sort_unstable_by_key(|reach| reach.lo);
}

/// The ranges, each with the greatest end of those up to it.
fn raised(alloc: Global, reaches: &[Reach]) -> Result<Items<Reach>, AllocError>
    ensures { IfOk result (λ all. all ≡ raised 0 reaches.now) }
{
    let mut all = Items::new(alloc);
    let mut hi: u64 = 0;
    for reach in reaches {
        hi = hi.max(reach.hi);
        all.push(Reach { lo: reach.lo, hi })?;
    }
    Ok(all)
}

/// The protected cells of declarations, in order.
fn reaches_of(alloc: Global, decls: &[Decl]) -> Result<Vec<Reach>, AllocError>
    ensures { IfOk result (λ reaches. reaches.items ≡ reaches_of decls.now) }
{
    let mut reaches = Vec::new(alloc);
    for decl in decls {
        if let Some(reach) = reach_of(decl.form()) {
            reaches.push(reach)?;
        }
    }
    Ok(reaches)
}

/// The protected cells that a declaration has.
fn reach_of(form: &DeclForm) -> Option<Reach>
    ensures { result ≡ reach_of form.now }
{
    match form {
        DeclForm::Cells {
            kind: CellsKind::Protected,
            lo,
            hi,
        } => Some(Reach { lo: *lo, hi: *hi }),
        _ => None,
    }
}

//! The counts that have limits.

ghost use Rattle.std.specs.Prelude.{◌≡◌, ℕ, ◌+◌, ◌-◌, ◌<◌, ◌^◌, ◌&&◌, nat_le, nat_lt, List, map, sum, slice_get, unwrap_or, Some, OnOk};
ghost use Rattle.kat_ast.specs.declared.decl.DeclForm.{DeclForm};
ghost use Rattle.kat_syntax.specs.Memories.{protected_by, code_of_decl};
ghost use Rattle.kat_syntax.specs.TypesWritten.{greatest, part_sizes, size_here, size_of_name};
ghost use Rattle.kat_syntax.specs.TypingDeclarations.{is_in_limits, fields_of_decl};
ghost use Rattle.kat_typing.specs.Totals.{IsTotals, most_u64, next, sizes_before};

use kat_syntax::{CellsKind, DeclForm, MOST_DECLARATIONS, Param, RegisterKind, is_type_decl};
use kat_tables::Around;
use kat_value::Ty;
use sqlite_items::Items;
use std::alloc::{AllocError, Global};

/// The most protected places, registers and cells together.
const MOST_PROTECTED: u64 = 64;

/// The most code cells.
const MOST_CODE: u64 = 256;

/// The most fields of a record.
const MOST_FIELDS: usize = 32;

/// The greatest size of a type.
const GREATEST_SIZE: u64 = 256;

/// What is counted over the declarations so far: the places that are protected, the code cells, and
/// the sizes of the declared types. Each count stands still at the greatest u64.
#[derive(Drop)]
pub struct Totals {
    pub protected: u64,
    pub code: u64,
    pub sizes: Items<u64>,
}

impl Totals {
    /// Of no declarations.
    pub fn new(alloc: Global) -> Totals
        ensures { (decls : List DeclForm) →
            IsTotals (record { decls = decls; number = 0 }) result }
    {
        Totals {
            protected: 0,
            code: 0,
            sizes: Items::new(alloc),
        }
    }

    /// With a declaration more, the one that is looked at.
    pub fn push(&mut self, around: &Around<'_, '_>, decl: &DeclForm) -> Result<(), AllocError>
        requires totals { IsTotals around.now self.old }
        requires here { slice_get around.now.decls around.now.number ≡ Some decl.now }
        ensures { OnOk result (IsTotals (next around.now) self.new) }
    {
        push_size(&mut self.sizes, around, decl)?;
        self.protected = self.protected.saturating_add(protected_by(decl));
        self.code = self.code.saturating_add(code_of_decl(decl));
        Ok(())
    }
}

/// With the size of one type more, if the declaration that is looked at declares one.
fn push_size(
    sizes: &mut Items<u64>,
    around: &Around<'_, '_>,
    decl: &DeclForm,
) -> Result<(), AllocError>
    requires sizes { sizes.old ≡ map most_u64 (sizes_before around.now) }
    requires here { slice_get around.now.decls around.now.number ≡ Some decl.now }
    ensures { OnOk result (sizes.new ≡ map most_u64 (sizes_before (next around.now))) }
{
    if is_type_decl(decl) {
        let size = size_of_decl(around, sizes.as_slice(), decl);
        sizes.push(size)?;
    }
    Ok(())
}

/// Whether no count passes its limit with this declaration.
pub fn is_in_limits(around: &Around<'_, '_>, totals: &Totals, decl: &DeclForm) -> bool
    requires { IsTotals around.now totals.now }
    ensures { result ≡ is_in_limits around.now decl.now }
{
    around.number() as usize != MOST_DECLARATIONS
        && !passes(totals.protected, protected_by(decl), MOST_PROTECTED)
        && !passes(totals.code, code_of_decl(decl), MOST_CODE)
        && fields_of_decl(decl) <= MOST_FIELDS
        && size_of_decl(around, totals.sizes.as_slice(), decl) <= GREATEST_SIZE
}

/// Whether a count passes its limit.
fn passes(before: u64, more: u64, limit: u64) -> bool
    requires { limit < 2 ^ 64 - 1 }
    ensures { (whole : ℕ) → before ≡ most_u64 whole →
        result ≡ (nat_le whole limit && nat_lt limit (whole + more)) }
{
    before <= limit && limit < before.saturating_add(more)
}

/// How many places a declaration protects.
fn protected_by(decl: &DeclForm) -> u64
    ensures { result ≡ protected_by decl.now }
{
    match decl {
        DeclForm::Register {
            kind: RegisterKind::Protected,
            ..
        } => 1,
        DeclForm::Cells {
            kind: CellsKind::Protected,
            lo,
            hi,
        } => hi.saturating_sub(*lo),
        _ => 0,
    }
}

/// How many code cells a declaration has.
fn code_of_decl(decl: &DeclForm) -> u64
    ensures { result ≡ code_of_decl decl.now }
{
    match decl {
        DeclForm::Code { values, .. } => values.len() as u64,
        _ => 0,
    }
}

/// How many fields a record type has.
fn fields_of_decl(decl: &DeclForm) -> usize
    ensures { result ≡ fields_of_decl decl.now }
{
    match decl {
        DeclForm::Record { fields, .. } => fields.len(),
        _ => 0,
    }
}

/// The size of the type that a declaration declares: 1, for a record also the sum over its fields,
/// for a union also the largest payload.
fn size_of_decl(around: &Around<'_, '_>, sizes: &[u64], decl: &DeclForm) -> u64
    requires { sizes.now ≡ map most_u64 (sizes_before around.now) }
    ensures { result ≡ most_u64 (size_here around.now decl.now) }
{
    match decl {
        DeclForm::Union { ctors, .. } => greatest(around, sizes, ctors).saturating_add(1),
        DeclForm::Record { fields, .. } => sum(around, sizes, fields).saturating_add(1),
        _ => 1,
    }
}

/// The greatest size of parts.
fn greatest(around: &Around<'_, '_>, sizes: &[u64], parts: &Items<Param>) -> u64
    ensures { (whole : List ℕ) → sizes.now ≡ map most_u64 whole → result ≡ most_u64
        (greatest (part_sizes around.now.decls around.now.number whole parts.now)) }
{
    let mut greatest: u64 = 0;
    for part in parts.as_slice() {
        greatest = greatest.max(size_of_part(around, sizes, part));
    }
    greatest
}

/// The sum of the sizes of parts.
fn sum(around: &Around<'_, '_>, sizes: &[u64], parts: &Items<Param>) -> u64
    ensures { (whole : List ℕ) → sizes.now ≡ map most_u64 whole → result ≡ most_u64
        (sum (part_sizes around.now.decls around.now.number whole parts.now)) }
{
    let mut total: u64 = 0;
    for part in parts.as_slice() {
        total = total.saturating_add(size_of_part(around, sizes, part));
    }
    total
}

/// The size of a part's type.
fn size_of_part(around: &Around<'_, '_>, sizes: &[u64], part: &Param) -> u64
    ensures { (whole : List ℕ) → sizes.now ≡ map most_u64 whole → result ≡ most_u64
        (size_of_name around.now.decls around.now.number whole part.now.ty) }
{
    match around.type_here(&part.ty) {
        Some(Ty::Union(of)) | Some(Ty::Rec(of)) => size_at(sizes, of),
        _ => 1,
    }
}

/// The size of the type at a position, 1 if there is none.
fn size_at(sizes: &[u64], of: u32) -> u64
    ensures { result ≡ unwrap_or (slice_get sizes.now of) 1 }
{
    sizes.get(of as usize).copied().unwrap_or(1)
}

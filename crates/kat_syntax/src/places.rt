//! The places of a machine: its memory, and the registers and cells that are written from outside.

ghost use Rattle.std.specs.Prelude.{◌≡◌, ◌<◌, ◌^◌, length, IfOk};
ghost use Rattle.kat_ast.specs.declared.decl.DeclForm.{DeclForm};
ghost use Rattle.kat_syntax.specs.Declares.{type_heads};
ghost use Rattle.kat_syntax.specs.DeclaredTypes.{IsHeads};
ghost use Rattle.kat_syntax.specs.OutsideWrites.{outside_places, width_of};
ghost use Rattle.kat_syntax.specs.States.{memory_of, register_types};

use crate::declared_types::DeclaredTypes;
use crate::type_table::named_type;
use kat_ast::{CellsKind, Decl, DeclForm, RegisterKind, TypeName};
use kat_value::Ty;
use sqlite_items::Items;
use std::alloc::{AllocError, Global};
use std::marker::Model;

/// A memory: the number of its declaration, the widths of its indices and cells, and its bounds.
#[derive(Clone, Copy, Drop)]
pub struct Memory {
    pub decl: u32,
    pub index_width: u64,
    pub cell_width: u64,
    pub lo: u64,
    pub hi: u64,
}

impl Model for Memory {
    ghost use Rattle.kat_syntax.specs.Memories.{Memory as MemorySeen};

    ghost Value = { MemorySeen };

    ghost view = { λ m. record {
      decl = m.decl;
      index_width = m.index_width;
      cell_width = m.cell_width;
      lo = m.lo;
      hi = m.hi;
    } };

    ghost inverse = { λ m. record {
      decl = m.decl;
      index_width = m.index_width;
      cell_width = m.cell_width;
      lo = m.lo;
      hi = m.hi;
    } };
}

/// A place that is written from outside.
#[derive(Clone, Copy, Debug, PartialEq, Eq, Drop)]
pub enum OutsidePlace {
    /// The register at this position, of so many bits.
    Register { at: u32, width: u64 },
    /// The cells from `lo` to `hi` - 1.
    Cells { lo: u64, hi: u64 },
}

/// An outside write: of a number, to the outside place of this ordinal in order of declaration, at
/// this offset in it. A register has the offset 0 alone.
#[derive(Clone, Copy, Debug, PartialEq, Eq, Drop)]
pub struct Poke {
    pub ordinal: u32,
    pub offset: u64,
    pub bits: u64,
}

/// The memory, where there is one.
pub fn memory_of(decls: &[Decl]) -> Option<Memory>
    requires { length decls.now < 2 ^ 32 }
    ensures { result ≡ memory_of decls.now }
{
    for (number, decl) in decls.iter().enumerate() {
        if let DeclForm::Memory {
            index_width,
            cell_width,
            lo,
            hi,
        } = decl.form()
        {
            return Some(Memory {
                decl: number as u32,
                index_width: *index_width,
                cell_width: *cell_width,
                lo: *lo,
                hi: *hi,
            });
        }
    }
    None
}

/// The places that are written from outside, in order of declaration.
pub fn outside_places(alloc: Global, decls: &[Decl]) -> Result<Items<OutsidePlace>, AllocError>
    requires { length decls.now < 2 ^ 32 }
    ensures { IfOk result (λ places. places ≡ outside_places decls.now) }
{
    let mut places = Items::new(alloc);
    let mut at: u32 = 0;
    for decl in decls {
        match decl.form() {
            DeclForm::Register { ty, kind, .. } => {
                if let RegisterKind::Outside = kind {
                    let width = width_of(ty);
                    places.push(OutsidePlace::Register { at, width })?;
                }
                at += 1;
            }
            DeclForm::Cells {
                kind: CellsKind::Outside,
                lo,
                hi,
            } => places.push(OutsidePlace::Cells { lo: *lo, hi: *hi })?,
            _ => {}
        }
    }
    Ok(places)
}

/// The width of bits; 0 of another type.
fn width_of(ty: &TypeName) -> u64
    ensures { result ≡ width_of ty.now }
{
    match ty {
        TypeName::Bits(width) => *width,
        _ => 0,
    }
}

/// The types of the registers, in order of declaration.
pub fn register_types(
    alloc: Global,
    declared: &DeclaredTypes,
    decls: &[Decl],
) -> Result<Items<Ty>, AllocError>
    requires few { length decls.now < 2 ^ 32 }
    requires heads { IsHeads (type_heads decls.now) declared.now.named declared.now.numbers }
    ensures { IfOk result (λ types. types ≡ register_types decls.now) }
{
    let mut types = Items::new(alloc);
    for (number, decl) in decls.iter().enumerate() {
        if let DeclForm::Register { ty, .. } = decl.form() {
            types.push(named_type(declared, number as u32, ty))?;
        }
    }
    Ok(types)
}

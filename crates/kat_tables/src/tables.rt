//! The tables of what the declarations declare.

ghost use Rattle.std.specs.Prelude.{◌≡◌, ◌<◌, ◌^◌, length, slice_get, IfOk, OnOk};
ghost use Rattle.std.specs.Option.{option_copied};
ghost use Rattle.kat_syntax.specs.Memories.{memory_from};

use crate::declare::kinds_of;
use crate::kinds::Kinds;
use crate::protected::Protected;
use crate::range::Memory;
use kat_syntax::{Decl, DeclForm, DeclaredTypes};
use kat_value::Types;
use sqlite_items::Items;
use std::alloc::{AllocError, Global};
use std::marker::Model;

/// Declarations, with tables of what they declare: the types, all names, the memory and the
/// protected ranges.
#[derive(Drop)]
pub struct Tables<'a> {
    pub decls: &'a [Decl],
    pub heads: DeclaredTypes,
    pub kinds: Kinds<'a>,
    pub memory: Option<Memory>,
    pub protected: Protected,
    /// No types: no operation that is written reads them.
    pub no_types: Types,
}

impl<'a> Model for Tables<'a> {
    ghost use Rattle.std.specs.Prelude.{List};
    ghost use Rattle.std.specs.Coded.{codes};
    ghost use Rattle.kat_ast.specs.declared.decl.DeclForm.{DeclForm};
    ghost use Rattle.kat_ast.specs.contracts.expr.Expr.{the_row as expr};
    ghost use Rattle.kat_ast.specs.contracts.stm.Stm.{the_row as stm};
    ghost use Rattle.kat_ast.specs.contracts.assertion.Assertion.{the_row as assertion};

    ghost Value = { List DeclForm };

    ghost coded = { Prim.hlevel (codes, expr.coded, stm.coded, assertion.coded) };

    ghost use Rattle.kat_tables.specs.Tables.{IsTables};

    ghost view = { λ t. t.decls.now };

    ghost invariant = { λ t.
        IsTables t.decls.now t.heads t.kinds t.memory t.protected t.no_types };
}

impl<'a> Tables<'a> {
    /// The tables of declarations. 2^32 declarations are taken for more than memory holds.
    pub fn of(alloc: Global, decls: &'a [Decl]) -> Result<Tables<'a>, AllocError>
        ensures tables { IfOk result (λ tables. tables ≡ decls.now) }
        ensures few { OnOk result (length decls.now < 2 ^ 32) }
    {
        if decls.len() > u32::MAX as usize {
            return Err(AllocError);
        }
        let protected = Protected::of(alloc, decls)?;
        let heads = DeclaredTypes::of(alloc, decls)?;
        let kinds = kinds_of(alloc, &heads, decls)?;
        Ok(Tables {
            decls,
            heads,
            kinds,
            memory: memory_of(decls),
            protected,
            no_types: Items::new(alloc),
        })
    }

    /// The form of the declaration of this number.
    pub fn form(&self, decl: u32) -> Option<&'a DeclForm>
        ensures { option_copied result ≡ slice_get self.now decl }
    {
        let decls = self.decls;
        Some(decls.get(decl as usize)?.form())
    }
}

/// The first memory.
fn memory_of(decls: &[Decl]) -> Option<Memory>
    requires { length decls.now < 2 ^ 32 }
    ensures { result ≡ memory_from 0 decls.now }
{
    for (number, decl) in decls.iter().enumerate() {
        if let DeclForm::Memory {
            index_width,
            cell_width,
            lo,
            hi,
        } = decl.form()
        {
            return Some(Memory {
                decl: number as u32,
                index_width: *index_width,
                cell_width: *cell_width,
                lo: *lo,
                hi: *hi,
            });
        }
    }
    None
}

//! The declared types: by name, and by position.

ghost use Rattle.std.specs.Prelude.{◌≡◌, ◌<◌, ◌^◌, length, IfOk, slice_get};
ghost use Rattle.std.specs.Option.{option_map};
ghost use Rattle.kat_syntax.specs.Declares.{is_type_decl, type_heads, type_before, type_of_name};
ghost use Rattle.kat_syntax.specs.DeclaredTypes.{IsHeads, head_before, type_declared};

use crate::named::Named;
use kat_ast::{Decl, DeclForm, TypeName};
use kat_text::Text;
use kat_value::{Ty, bits_of};
use sqlite_items::Items;
use std::alloc::{AllocError, Global};

/// The declared types, found by their names and by their positions.
#[derive(Drop)]
pub struct DeclaredTypes {
    /// The first declared type of each name.
    pub named: Named<DeclaredType>,
    /// The numbers of the declarations of types, by position.
    pub numbers: Items<u32>,
}

/// A declared type: the number of its declaration, and the type that it is.
#[derive(Clone, Copy, Drop)]
pub struct DeclaredType {
    pub decl: u32,
    pub ty: Ty,
}

impl DeclaredTypes {
    ghost use Rattle.kat_ast.specs.declared.decl.DeclForm.{DeclForm};
    ghost use Rattle.std.specs.Prelude.{List};

    /// The declared types.
    pub fn of(alloc: Global, decls: &[Decl]) -> Result<DeclaredTypes, AllocError>
        requires { length decls.now < 2 ^ 32 }
        ensures { IfOk result (λ heads. IsHeads (type_heads decls.now) heads.named heads.numbers) }
    {
        let mut named = Named::new(alloc)?;
        let mut numbers: Items<u32> = Items::new(alloc);
        for (decl, form) in decls.iter().enumerate() {
            let position = numbers.len() as u32;
            match type_declared(position, form.form()) {
                Some((name, ty)) => {
                    let decl = decl as u32;
                    named.add(name, DeclaredType { decl, ty })?;
                    numbers.push(decl)?;
                }
                None => {}
            }
        }
        Ok(DeclaredTypes { named, numbers })
    }

    /// The type of this name that is declared before the declaration of this number.
    pub fn type_before(&self, decl: u32, name: &Text) -> Option<Ty>
        ensures { (decls : List DeclForm) →
            IsHeads (type_heads decls) self.now.named self.now.numbers →
            result ≡ type_before decls decl name.now }
    {
        match self.named.find(name) {
            Some(head) => if_before(head, decl),
            None => None,
        }
    }

    /// The type that a written type is, in the declaration of this number.
    pub fn type_of_name(&self, decl: u32, name: &TypeName) -> Option<Ty>
        ensures { (decls : List DeclForm) →
            IsHeads (type_heads decls) self.now.named self.now.numbers →
            result ≡ type_of_name decls decl name.now }
    {
        match name {
            TypeName::Unit => Some(Ty::Unit),
            TypeName::Bool => Some(Ty::Bool),
            TypeName::Bits(width) => bits_of(*width),
            TypeName::Named(name) => self.type_before(decl, name),
        }
    }

    /// The number of the declaration of the type at this position.
    pub fn number_at(&self, position: u32) -> Option<u32>
        ensures { result ≡ slice_get self.now.numbers position }
    {
        self.numbers.get(position as usize).copied()
    }
}

/// The type that a head is, where it is declared before the declaration of this number.
fn if_before(head: DeclaredType, decl: u32) -> Option<Ty>
    ensures { result ≡ head_before decl head }
{
    if head.decl < decl {
        Some(head.ty)
    } else {
        None
    }
}

/// The type that a declaration declares, at this position, with its name.
fn type_declared(position: u32, decl: &DeclForm) -> Option<(&Text, Ty)>
    ensures { option_map (λ found. (found.0.now, found.1)) result
        ≡ type_declared position decl.now }
{
    match decl {
        DeclForm::Enum { name, .. } => Some((name, Ty::Enum(position))),
        DeclForm::Union { name, .. } => Some((name, Ty::Union(position))),
        DeclForm::Record { name, .. } => Some((name, Ty::Rec(position))),
        _ => None,
    }
}

/// Whether a declaration declares a type: an enum, a union or a record.
pub fn is_type_decl(decl: &DeclForm) -> bool
    ensures { result ≡ is_type_decl decl.now }
{
    matches!(
        decl,
        DeclForm::Enum { .. } | DeclForm::Union { .. } | DeclForm::Record { .. }
    )
}

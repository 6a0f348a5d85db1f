//! The table of declared types, with the names of their members, constructors and fields.

ghost use Rattle.std.specs.Prelude.{◌≡◌, ◌<◌, ◌^◌, List, length, IfOk};
ghost use Rattle.kat_ast.specs.declared.decl.DeclForm.{DeclForm};
ghost use Rattle.kat_syntax.specs.Declares.{type_heads};
ghost use Rattle.kat_syntax.specs.DeclaredTypes.{IsHeads};
ghost use Rattle.kat_syntax.specs.TypeTable.{named_type, fields_of, type_declared_by, types_of_decls};

use crate::declared_types::DeclaredTypes;
use kat_ast::{Decl, DeclForm, Param, TypeName};
use kat_text::Text;
use kat_value::{Field, Ty, TypeDecl, Types};
use sqlite_items::Items;
use std::alloc::{AllocError, Global};

/// The declared types, in order of declaration. 2^32 declarations are taken for more than memory
/// holds.
pub fn types_of_decls(alloc: Global, decls: &[Decl]) -> Result<Types, AllocError>
    ensures { IfOk result (λ types. types ≡ types_of_decls decls.now) }
{
    if decls.len() > u32::MAX as usize {
        return Err(AllocError);
    }
    let declared = DeclaredTypes::of(alloc, decls)?;
    table_of(alloc, &declared, decls)
}

/// The declared types, by what their names mean.
fn table_of(alloc: Global, declared: &DeclaredTypes, decls: &[Decl]) -> Result<Types, AllocError>
    requires few { length decls.now < 2 ^ 32 }
    requires heads { IsHeads (type_heads decls.now) declared.now.named declared.now.numbers }
    ensures { IfOk result (λ types. types ≡ types_of_decls decls.now) }
{
    let mut types = Items::new(alloc);
    for (number, decl) in decls.iter().enumerate() {
        if let Some(ty) = type_declared_by(alloc, declared, number as u32, decl.form())? {
            types.push(ty)?;
        }
    }
    Ok(types)
}

/// The type that a declaration of this number declares.
fn type_declared_by(
    alloc: Global,
    declared: &DeclaredTypes,
    number: u32,
    decl: &DeclForm,
) -> Result<Option<TypeDecl>, AllocError>
    ensures { (decls : List DeclForm) →
        IsHeads (type_heads decls) declared.now.named declared.now.numbers →
        IfOk result (λ ty. ty ≡ type_declared_by decls number decl.now) }
{
    match decl {
        DeclForm::Enum { name, members } => {
            let members = copies(alloc, members)?;
            let name = name.copy()?;
            Ok(Some(TypeDecl::Enum { name, members }))
        }
        DeclForm::Union { name, ctors } => {
            let ctors = fields_of(alloc, declared, number, ctors)?;
            let name = name.copy()?;
            Ok(Some(TypeDecl::Union { name, ctors }))
        }
        DeclForm::Record { name, fields } => {
            let fields = fields_of(alloc, declared, number, fields)?;
            let name = name.copy()?;
            Ok(Some(TypeDecl::Rec { name, fields }))
        }
        _ => Ok(None),
    }
}

/// Names with their types, in the declaration of this number.
fn fields_of(
    alloc: Global,
    declared: &DeclaredTypes,
    number: u32,
    params: &Items<Param>,
) -> Result<Items<Field>, AllocError>
    ensures { (decls : List DeclForm) →
        IsHeads (type_heads decls) declared.now.named declared.now.numbers →
        IfOk result (λ fields. fields ≡ fields_of decls number params.now) }
{
    let mut fields = Items::new(alloc);
    for param in params.as_slice() {
        let ty = named_type(declared, number, &param.ty);
        let name = param.name.copy()?;
        fields.push(Field { name, ty })?;
    }
    Ok(fields)
}

/// The type that a written type is, in the declaration of this number: without values where it is
/// none.
pub fn named_type(declared: &DeclaredTypes, number: u32, name: &TypeName) -> Ty
    ensures { (decls : List DeclForm) →
        IsHeads (type_heads decls) declared.now.named declared.now.numbers →
        result ≡ named_type decls number name.now }
{
    declared.type_of_name(number, name).unwrap_or(Ty::Bits(0))
}

/// The same names in memory of their own.
fn copies(alloc: Global, names: &Items<Text>) -> Result<Items<Text>, AllocError>
    ensures { IfOk result (λ copies. copies ≡ names.now) }
{
    let mut copies = Items::new(alloc);
    for name in names.as_slice() {
        copies.push(name.copy()?)?;
    }
    Ok(copies)
}

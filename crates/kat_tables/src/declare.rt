//! What the declarations declare, noted one after another.

ghost use Rattle.std.specs.Prelude.{◌+◌, ◌<◌, ◌^◌, ◌++◌, List, length, map, IfOk, OnOk};
ghost use Rattle.kat_ast.specs.Declarations.{trees_of_decl};
ghost use Rattle.kat_ast.specs.Types.{trees_of_params};
ghost use Rattle.kat_ast.specs.declared.decl.DeclForm.{DeclForm};
ghost use Rattle.kat_syntax.specs.Declares.{type_heads, declared_by, declared_in, members_from, ctors_from};
ghost use Rattle.kat_syntax.specs.DeclaredTypes.{IsHeads};
ghost use Rattle.kat_tables.specs.Meanings.{Noted, noted, IsKinds};

use crate::kinds::Kinds;
use crate::placed::Meaning;
use crate::seen::{CtorSeen, RegisterSeen, Stand};
use kat_ast::count_type;
use kat_syntax::{Decl, DeclForm, DeclaredTypes, Param, is_type_decl, places_are_of_the_tree};
use kat_text::Text;
use sqlite_items::Items;
use std::alloc::{AllocError, Global};

/// All that is declared.
pub fn kinds_of<'a>(
    alloc: Global,
    heads: &DeclaredTypes,
    decls: &'a [Decl],
) -> Result<Kinds<'a>, AllocError>
    requires few { length decls.now < 2 ^ 32 }
    requires heads { IsHeads (type_heads decls.now) heads.now.named heads.now.numbers }
    ensures { IfOk result (λ kinds. IsKinds (map noted (declared_by decls.now)) kinds) }
{
    places_are_of_the_tree();
    let mut kinds = Kinds::new(alloc);
    let mut position: u32 = 0;
    for (decl, form) in decls.iter().enumerate() {
        let form = form.form();
        declare(&mut kinds, heads, decl as u32, position, form)?;
        if is_type_decl(form) {
            position += 1;
        }
    }
    Ok(kinds)
}

/// Notes what a declaration of this number declares, the next type having this position.
fn declare<'a>(
    kinds: &mut Kinds<'a>,
    heads: &DeclaredTypes,
    decl: u32,
    position: u32,
    form: &'a DeclForm,
) -> Result<(), AllocError>
    requires { trees_of_decl form.now < 2 ^ 32 }
    ensures { (all : List Noted) (decls : List DeclForm) → IsKinds all kinds.old →
        IsHeads (type_heads decls) heads.now.named heads.now.numbers →
        OnOk result (IsKinds
        (all ++ map noted (declared_in decls decl position form.now)) kinds.new) }
{
    let at = Stand { decl, tree: 2 };
    match form {
        DeclForm::Enum { name, members } => {
            kinds.add(at, name, Meaning::AType)?;
            declare_members(kinds, decl, position, members)
        }
        DeclForm::Union { name, ctors } => {
            kinds.add(at, name, Meaning::AType)?;
            declare_ctors(kinds, heads, decl, position, ctors)
        }
        DeclForm::Record { name, .. } => kinds.add(at, name, Meaning::AType),
        DeclForm::Register { name, ty, kind } => {
            let ty = heads.type_of_name(decl, ty);
            kinds.add(
                at,
                name,
                Meaning::ARegister(RegisterSeen { kind: *kind, ty }),
            )
        }
        DeclForm::Region { name, .. } => kinds.add(at, name, Meaning::ARegion),
        DeclForm::Predicate { name, .. } => kinds.add(at, name, Meaning::APredicate),
        DeclForm::Fun { name, .. } => kinds.add(at, name, Meaning::AFunction),
        DeclForm::Lemma { name, .. } => kinds.add(at, name, Meaning::ALemma),
        DeclForm::Block(block) => kinds.add(at, &block.name, Meaning::ABlock),
        _ => Ok(()),
    }
}

/// Notes the members of the enum at this position.
fn declare_members<'a>(
    kinds: &mut Kinds<'a>,
    decl: u32,
    position: u32,
    members: &'a Items<Text>,
) -> Result<(), AllocError>
    requires { 4 + length members.now < 2 ^ 32 }
    ensures { (all : List Noted) → IsKinds all kinds.old →
        OnOk result (IsKinds
        (all ++ map noted (members_from decl position 4 members.now)) kinds.new) }
{
    kinds.reserve(members.len())?;
    let mut tree: u32 = 4;
    for member in members.as_slice() {
        kinds.add(Stand { decl, tree }, member, Meaning::AMember(position))?;
        tree += 1;
    }
    Ok(())
}

/// Notes the constructors of the union at this position.
fn declare_ctors<'a>(
    kinds: &mut Kinds<'a>,
    heads: &DeclaredTypes,
    decl: u32,
    of: u32,
    ctors: &'a Items<Param>,
) -> Result<(), AllocError>
    requires { 3 + trees_of_params ctors.now < 2 ^ 32 }
    ensures { (all : List Noted) (decls : List DeclForm) → IsKinds all kinds.old →
        IsHeads (type_heads decls) heads.now.named heads.now.numbers →
        OnOk result (IsKinds
        (all ++ map noted (ctors_from decls decl of 4 ctors.now)) kinds.new) }
{
    let mut at: u32 = 4;
    for ctor in ctors.as_slice() {
        let payload = heads.type_of_name(decl, &ctor.ty);
        let stand = Stand { decl, tree: at + 1 };
        kinds.add(stand, &ctor.name, Meaning::ACtor(CtorSeen { of, payload }))?;
        at += 2 + count_type(&ctor.ty);
    }
    Ok(())
}

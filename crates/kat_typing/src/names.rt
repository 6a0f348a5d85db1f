//! The names that a declaration declares itself, and the types of its constructors and fields.

ghost use Rattle.std.specs.Prelude.{◌≡◌, ◌+◌, ◌<◌, ◌^◌, [], length, slice_get, Some, OnOk};
ghost use Rattle.kat_ast.specs.Types.{trees_of_params};
ghost use Rattle.kat_ast.specs.Declarations.{trees_of_decl};
ghost use Rattle.kat_ast.specs.declared.decl.DeclForm.{DeclForm};
ghost use Rattle.kat_syntax.specs.declared.type_rule.TypeRule.TheVariants.{NameTaken};
ghost use Rattle.kat_syntax.specs.TypeRules.{least_with, unless};
ghost use Rattle.kat_syntax.specs.Declares.{declared_by, members_from, ctors_from};
ghost use Rattle.kat_syntax.specs.Around.{first_named};
ghost use Rattle.kat_syntax.specs.TypingDeclarations.{taken_names, own_names, stands_at, ctor_faults, field_faults};

use kat_ast::count_type;
use kat_expr_types::{Faults, judge_type};
use kat_syntax::{DeclForm, Named, Param, TypeRule};
use kat_tables::Around;
use kat_text::Text;
use sqlite_items::Items;
use std::alloc::{AllocError, Global};

/// Notes the faults of the names that a declaration declares, of which each has to be the first of
/// its name.
pub fn judge_names(around: &Around<'_, '_>, decl: &DeclForm, faults: &mut Faults)
    requires small { trees_of_decl decl.now < 2 ^ 32 }
    requires here { slice_get around.now.decls around.now.number ≡ Some decl.now }
    ensures { faults.new ≡ least_with faults.old
        (taken_names around.now (own_names around.now decl.now)) }
{
    if !around.names_differ() {
        judge_each_name(around, decl, faults);
    }
}

/// Notes the faults of the names that a declaration declares, one after another.
#[tactic(auto, using(crate::proofs::Noting::least_both))]
fn judge_each_name(around: &Around<'_, '_>, decl: &DeclForm, faults: &mut Faults)
    requires { trees_of_decl decl.now < 2 ^ 32 }
    ensures { faults.new ≡ least_with faults.old
        (taken_names around.now (own_names around.now decl.now)) }
{
    // Where the names before were found, so that each is looked for next to them.
    let mut near = 0;
    match decl {
        DeclForm::Enum { name, members } => {
            judge_own(around, &mut near, 2, name, faults);
            judge_members(around, &mut near, members, faults);
        }
        DeclForm::Union { name, ctors } => {
            judge_own(around, &mut near, 2, name, faults);
            judge_ctor_names(around, &mut near, ctors, faults);
        }
        DeclForm::Record { name, .. }
        | DeclForm::Register { name, .. }
        | DeclForm::Region { name, .. }
        | DeclForm::Predicate { name, .. }
        | DeclForm::Fun { name, .. }
        | DeclForm::Lemma { name, .. } => judge_own(around, &mut near, 2, name, faults),
        DeclForm::Block(block) => judge_own(around, &mut near, 2, &block.name, faults),
        _ => {}
    }
}

/// Notes the fault of a name that a declaration declares at this tree, where an earlier one stands.
fn judge_own(around: &Around<'_, '_>, near: &mut usize, tree: u32, name: &Text, faults: &mut Faults)
    ensures { let first = first_named (declared_by around.now.decls) name.now in
        faults.new ≡ least_with faults.old
        (unless (stands_at around.now.number tree first) tree NameTaken) }
{
    faults.unless(
        around.declares_first(near, tree, name),
        tree,
        TypeRule::NameTaken,
    );
}

/// The members of an enum.
#[tactic(auto, using(crate::proofs::Noting::least_both))]
fn judge_members(
    around: &Around<'_, '_>,
    near: &mut usize,
    members: &Items<Text>,
    faults: &mut Faults,
)
    requires { 4 + length members.now < 2 ^ 32 }
    ensures { faults.new ≡ least_with faults.old
        (taken_names around.now (members_from around.now.number 0 4 members.now)) }
{
    let mut tree: u32 = 4;
    for member in members.as_slice() {
        judge_own(around, near, tree, member, faults);
        tree += 1;
    }
}

/// The names of constructors.
#[tactic(auto, using(crate::proofs::Noting::least_both))]
fn judge_ctor_names(
    around: &Around<'_, '_>,
    near: &mut usize,
    ctors: &Items<Param>,
    faults: &mut Faults,
)
    requires { 3 + trees_of_params ctors.now < 2 ^ 32 }
    ensures { faults.new ≡ least_with faults.old (taken_names around.now
        (ctors_from around.now.decls around.now.number 0 4 ctors.now)) }
{
    let mut at: u32 = 4;
    for ctor in ctors.as_slice() {
        judge_own(around, near, at + 1, &ctor.name, faults);
        at += 2 + count_type(&ctor.ty);
    }
}

/// The types of constructors.
#[tactic(auto, using(crate::proofs::Noting::least_both))]
pub fn judge_ctors(around: &Around<'_, '_>, ctors: &Items<Param>, faults: &mut Faults)
    requires { 3 + trees_of_params ctors.now < 2 ^ 32 }
    ensures { faults.new ≡ least_with faults.old (ctor_faults around.now 4 ctors.now) }
{
    let mut at: u32 = 4;
    for ctor in ctors.as_slice() {
        judge_type(around, at + 2, &ctor.ty, faults);
        at += 2 + count_type(&ctor.ty);
    }
}

/// Fields: their names, each once, and their types.
#[tactic(auto, using(crate::proofs::Noting::least_both))]
pub fn judge_fields(
    alloc: Global,
    around: &Around<'_, '_>,
    fields: &Items<Param>,
    faults: &mut Faults,
) -> Result<(), AllocError>
    requires { 3 + trees_of_params fields.now < 2 ^ 32 }
    ensures { OnOk result (faults.new ≡ least_with faults.old
        (field_faults around.now [] 4 fields.now)) }
{
    let mut names: Named<()> = Named::new(alloc)?;
    let mut at: u32 = 4;
    for field in fields.as_slice() {
        let is_new = names.find(&field.name).is_none();
        faults.unless(is_new, at + 1, TypeRule::NameTaken);
        judge_type(around, at + 2, &field.ty, faults);
        names.add(&field.name, ())?;
        at += 2 + count_type(&field.ty);
    }
    Ok(())
}

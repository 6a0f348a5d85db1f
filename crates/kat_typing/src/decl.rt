//! Typing of declarations, among all of them.

ghost use Rattle.std.specs.Prelude.{◌≡◌, ◌+◌, ◌<◌, ◌^◌, true, slice_get, Some, OnOk};
ghost use Rattle.kat_ast.specs.Types.{trees_of_type, trees_of_params};
ghost use Rattle.kat_ast.specs.Expressions.{trees_of_expr};
ghost use Rattle.kat_ast.specs.Statements.{trees_of_stm};
ghost use Rattle.kat_ast.specs.Declarations.{trees_of_decl};
ghost use Rattle.kat_ast.specs.declared.decl.DeclForm.TheVariants as decl;
ghost use Rattle.kat_syntax.specs.Tables.{Name};
ghost use Rattle.kat_syntax.specs.TypeRules.{least_with};
ghost use Rattle.kat_syntax.specs.TypingDeclarations.{decl_faults, inner_faults, may_be_of, region_faults, function_faults};
ghost use Rattle.kat_typing.specs.Kinds.{is_any_predicate};
ghost use Rattle.kat_typing.specs.Totals.{IsTotals};

use crate::cells::{judge_cells, judge_code, judge_memory_decl};
use crate::contract::judge_contract;
use crate::lemma::judge_lemma;
use crate::limits::{Totals, is_in_limits};
use crate::names::{judge_ctors, judge_fields, judge_names};
use crate::once::{judge_boot, judge_step, judge_untrusted};
use crate::phases::{judge_block, judge_dispatch};
use kat_ast::{count_params, count_type};
use kat_expr_types::{Base, Faults, Scope, Setting, judge_hiding, judge_memory, judge_type};
use kat_stm_types::{judge_assertion, judge_stm, judge_truth};
use kat_syntax::{DeclForm, Expr, Param, RegisterKind, Stm, TypeName, TypeRule};
use kat_tables::Around;
use kat_text::Text;
use kat_value::{Ty, agree};
use std::alloc::{AllocError, Global};

/// Notes all faults of a declaration. The totals are those of the declarations before.
pub fn judge_decl<'d>(
    alloc: Global,
    around: &Around<'_, 'd>,
    totals: &Totals,
    decl: &'d DeclForm,
    faults: &mut Faults,
) -> Result<(), AllocError>
    requires totals { IsTotals around.now totals.now }
    requires small { trees_of_decl decl.now < 2 ^ 32 }
    requires here { slice_get around.now.decls around.now.number ≡ Some decl.now }
    ensures { OnOk result (faults.new ≡ least_with faults.old (decl_faults around.now decl.now)) }
{
    judge_names(around, decl, faults);
    faults.unless(is_in_limits(around, totals, decl), 0, TypeRule::TooMany);
    judge_inner(alloc, around, decl, faults)
}

/// Notes the faults of a declaration beside those of its own names and of the limits.
fn judge_inner<'d>(
    alloc: Global,
    around: &Around<'_, 'd>,
    decl: &'d DeclForm,
    faults: &mut Faults,
) -> Result<(), AllocError>
    requires { trees_of_decl decl.now < 2 ^ 32 }
    ensures { OnOk result (faults.new ≡ least_with faults.old (inner_faults around.now decl.now)) }
{
    match decl {
        DeclForm::Enum { .. } => {}
        DeclForm::Union { ctors, .. } => judge_ctors(around, ctors, faults),
        DeclForm::Record { fields, .. } => return judge_fields(alloc, around, fields, faults),
        DeclForm::Register { ty, kind, .. } => judge_register(around, ty, *kind, faults),
        DeclForm::Memory {
            index_width,
            cell_width,
            lo,
            hi,
        } => judge_memory_decl(around, *index_width, *cell_width, *lo, *hi, faults),
        DeclForm::Cells { kind, lo, hi } => judge_cells(around, *kind, *lo, *hi, faults),
        DeclForm::Code { lo, values } => judge_code(around, *lo, values, faults),
        DeclForm::Region {
            params,
            index,
            guard,
            ..
        } => return judge_region(alloc, around, params.as_slice(), index, guard, faults),
        DeclForm::Predicate { .. } => return judge_predicate(alloc, around, decl, faults),
        DeclForm::Fun {
            params,
            result,
            body,
            ..
        } => return judge_function(alloc, around, params.as_slice(), result, body, faults),
        DeclForm::Contract { .. } => return judge_contract(alloc, around, decl, faults),
        DeclForm::Lemma { .. } => return judge_lemma(alloc, around, decl, faults),
        DeclForm::Step(name) => judge_step(around, name, faults),
        DeclForm::Dispatch { cases, otherwise } => {
            return judge_dispatch(alloc, around, cases, otherwise, faults);
        }
        DeclForm::Untrusted(holds) => return judge_untrusted(alloc, around, holds, faults),
        DeclForm::Block(block) => return judge_block(alloc, around, block, faults),
        DeclForm::Boot(name) => judge_boot(around, name, faults),
    }
    Ok(())
}

/// `(register x T kind)`
fn judge_register(around: &Around<'_, '_>, ty: &TypeName, kind: RegisterKind, faults: &mut Faults)
    requires { 3 + trees_of_type ty.now < 2 ^ 32 }
    ensures { (x : Name) → faults.new ≡ least_with faults.old
        (inner_faults around.now (decl.Register x ty.now kind)) }
{
    judge_type(around, 3, ty, faults);
    let is_of_kind = may_be_of(kind, around.type_here(ty));
    faults.unless(is_of_kind, 3, TypeRule::OutsideNotBits);
}

/// Whether a register of this kind may be of this type, where it is known.
fn may_be_of(kind: RegisterKind, ty: Option<Ty>) -> bool
    ensures { result ≡ may_be_of kind ty }
{
    kind != RegisterKind::Outside || matches!(ty, None | Some(Ty::Bits(_)))
}

/// A region: it needs a memory; its parameters, its index and its guard.
fn judge_region<'d>(
    alloc: Global,
    around: &Around<'_, 'd>,
    params: &'d [Param],
    index: &Text,
    guard: &Expr,
    faults: &mut Faults,
) -> Result<(), AllocError>
    requires { 4 + trees_of_params params.now + trees_of_expr guard.now < 2 ^ 32 }
    ensures { OnOk result (faults.new ≡ least_with faults.old
        (region_faults around.now params.now index.now guard.now)) }
{
    judge_memory(around, 0, faults);
    let base = Base::empty(alloc)?.judge_params(around, 4, params, faults)?;
    let outer = Scope::Base(&base);
    let index_at = 3 + count_params(params);
    judge_hiding(around, &outer, index_at, index, faults);
    let scope = outer.with(index, around.index_type());
    judge_truth(&Setting::plain(around, &scope), index_at + 1, guard, faults);
    Ok(())
}

/// A predicate: its inputs and outputs, and its definition.
fn judge_predicate<'d>(
    alloc: Global,
    around: &Around<'_, 'd>,
    decl: &'d DeclForm,
    faults: &mut Faults,
) -> Result<(), AllocError>
    requires small { trees_of_decl decl.now < 2 ^ 32 }
    requires predicate { is_any_predicate decl.now ≡ true }
    ensures { OnOk result (faults.new ≡ least_with faults.old (inner_faults around.now decl.now)) }
{
    let DeclForm::Predicate {
        inputs,
        outputs,
        definition,
        ..
    } = decl
    else {
        unreachable!()
    };
    let inputs = inputs.as_slice();
    let outputs = outputs.as_slice();
    let inner = Base::empty(alloc)?.judge_params(around, 4, inputs, faults)?;
    let outputs_at = 3 + count_params(inputs);
    let base = inner.judge_params(around, outputs_at + 1, outputs, faults)?;
    let scope = Scope::Base(&base);
    let setting = Setting::plain(around, &scope);
    let definition_at = outputs_at + count_params(outputs);
    judge_assertion(&setting, definition_at, definition, faults);
    Ok(())
}

/// A function: its parameters, the type of its result, and its body, which is of it.
fn judge_function<'d>(
    alloc: Global,
    around: &Around<'_, 'd>,
    params: &'d [Param],
    ty: &TypeName,
    body: &Stm,
    faults: &mut Faults,
) -> Result<(), AllocError>
    requires { 3 + trees_of_params params.now + trees_of_type ty.now
        + trees_of_stm body.now < 2 ^ 32 }
    ensures { OnOk result (faults.new ≡ least_with faults.old
        (function_faults around.now params.now ty.now body.now)) }
{
    let base = Base::empty(alloc)?.judge_params(around, 4, params, faults)?;
    let type_at = 3 + count_params(params);
    judge_type(around, type_at, ty, faults);
    let body_at = type_at + count_type(ty);
    let scope = Scope::Base(&base);
    let known = judge_stm(around, &scope, body_at, body, faults);
    let is_of_type = agree(around.type_here(ty), known.ty);
    faults.unless(is_of_type, body_at, TypeRule::BodyOther);
    Ok(())
}

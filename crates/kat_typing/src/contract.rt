//! Typing of contracts.

ghost use Rattle.std.specs.Prelude.{◌≡◌, ◌+◌, ◌<◌, ◌^◌, ◌&&◌, not, true, OnOk, IfOk};
ghost use Rattle.std.specs.Option.{option_copied};
ghost use Rattle.std.specs.List.{list_any};
ghost use Rattle.kat_ast.specs.Declarations.{trees_of_decl};
ghost use Rattle.kat_syntax.specs.declared.type_rule.TypeRule.TheVariants.{ContractTwice};
ghost use Rattle.kat_syntax.specs.TypeRules.{least_with, unless};
ghost use Rattle.kat_syntax.specs.TypingDeclarations.{inner_faults, is_contract, is_second, params_seen, result_seen};
ghost use Rattle.kat_typing.specs.Kinds.{is_any_contract};

use kat_ast::count_params;
use kat_expr_types::{Base, Faults, Scope, Setting, judge_hiding, judge_known};
use kat_stm_types::judge_assertion;
use kat_syntax::{Decl, DeclForm, TypeRule};
use kat_tables::{Around, FunctionSeen};
use kat_text::Text;
use kat_value::Ty;
use std::alloc::{AllocError, Global};

/// A contract: its function, its names, and both assertions, with the result's name in the second
/// alone.
pub fn judge_contract<'d>(
    alloc: Global,
    around: &Around<'_, 'd>,
    decl: &'d DeclForm,
    faults: &mut Faults,
) -> Result<(), AllocError>
    requires small { trees_of_decl decl.now < 2 ^ 32 }
    requires contract { is_any_contract decl.now ≡ true }
    ensures { OnOk result (faults.new ≡ least_with faults.old (inner_faults around.now decl.now)) }
{
    let DeclForm::Contract {
        function,
        names,
        pre,
        result: value,
        post,
    } = decl
    else {
        unreachable!()
    };
    let seen = around.function(function);
    judge_known(seen.is_some(), 2, faults);
    judge_second(around, seen.is_some(), function, faults);
    let names = names.as_slice();
    let base = params_seen(alloc, seen.as_ref())?.judge_params(around, 4, names, faults)?;
    let scope = Scope::Base(&base);
    let pre_at = 3 + count_params(names);
    let pre_trees = judge_assertion(&Setting::plain(around, &scope), pre_at + 2, pre, faults);
    let res_at = pre_at + 2 + pre_trees;
    judge_hiding(around, &scope, res_at + 2, value, faults);
    let inner = scope.with(value, result_seen(seen.as_ref()));
    judge_assertion(&Setting::plain(around, &inner), res_at + 5, post, faults);
    Ok(())
}

/// The parameters of a function that is known.
fn params_seen<'t, 'd>(
    alloc: Global,
    seen: Option<&FunctionSeen<'t, 'd>>,
) -> Result<Base<'t, 'd>, AllocError>
    ensures { IfOk result (λ base. base ≡ params_seen (option_copied seen.entry)) }
{
    match seen {
        Some(seen) => Base::of_seen(alloc, seen.params()),
        None => Base::empty(alloc),
    }
}

/// The type of a function that is known.
fn result_seen(seen: Option<&FunctionSeen<'_, '_>>) -> Option<Ty>
    ensures { result ≡ result_seen (option_copied seen.entry) }
{
    seen?.ty()
}

/// Notes the fault of a contract whose function is known and has one already.
fn judge_second(around: &Around<'_, '_>, is_known: bool, function: &Text, faults: &mut Faults)
    ensures { faults.new ≡ least_with faults.old (unless
        (not (is_known && is_second (is_contract function.now) around.now)) 0 ContractTwice) }
{
    let is_second = is_known && has_contract(around.before(), function);
    faults.unless(!is_second, 0, TypeRule::ContractTwice);
}

/// Whether one of the declarations is a contract of this function.
fn has_contract(decls: &[Decl], name: &Text) -> bool
    ensures { result ≡ list_any (is_contract name.now) decls.now }
{
    for decl in decls {
        if is_contract(name, decl.form()) {
            return true;
        }
    }
    false
}

/// Whether a declaration is a contract of this function.
fn is_contract(name: &Text, decl: &DeclForm) -> bool
    ensures { result ≡ is_contract name.now decl.now }
{
    match decl {
        DeclForm::Contract { function, .. } => name.same(function),
        _ => false,
    }
}

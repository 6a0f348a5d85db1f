//! Typing of lemmas.

ghost use Rattle.std.specs.Prelude.{◌≡◌, ◌+◌, ◌<◌, ◌^◌, true, sum_by, OnOk};
ghost use Rattle.kat_ast.specs.Statements.{trees_of_stm};
ghost use Rattle.kat_ast.specs.Declarations.{trees_of_decl};
ghost use Rattle.kat_syntax.specs.TypeRules.{least_with};
ghost use Rattle.kat_syntax.specs.TypingDeclarations.{inner_faults, is_proof, proof_step_faults};
ghost use Rattle.kat_expr_types.specs.Scopes.{scope_of};
ghost use Rattle.kat_typing.specs.Kinds.{is_lemma};

use kat_ast::count_params;
use kat_expr_types::{Base, Faults, Scope, Setting};
use kat_stm_types::{judge_assertion, judge_stm};
use kat_syntax::{DeclForm, Stm, TypeRule};
use kat_tables::Around;
use sqlite_items::Items;
use std::alloc::{AllocError, Global};

/// A lemma: its parameters and names, both assertions, and its steps.
pub fn judge_lemma<'d>(
    alloc: Global,
    around: &Around<'_, 'd>,
    decl: &'d DeclForm,
    faults: &mut Faults,
) -> Result<(), AllocError>
    requires small { trees_of_decl decl.now < 2 ^ 32 }
    requires lemma { is_lemma decl.now ≡ true }
    ensures { OnOk result (faults.new ≡ least_with faults.old (inner_faults around.now decl.now)) }
{
    let DeclForm::Lemma {
        params,
        names,
        pre,
        post,
        steps,
        ..
    } = decl
    else {
        unreachable!()
    };
    let params = params.as_slice();
    let names = names.as_slice();
    let inner = Base::empty(alloc)?.judge_params(around, 4, params, faults)?;
    let names_at = 3 + count_params(params);
    let base = inner.judge_params(around, names_at + 1, names, faults)?;
    let scope = Scope::Base(&base);
    let setting = Setting::plain(around, &scope);
    let pre_at = names_at + count_params(names);
    let pre_trees = judge_assertion(&setting, pre_at + 2, pre, faults);
    let post_at = pre_at + 2 + pre_trees;
    let post_trees = judge_assertion(&setting, post_at + 2, post, faults);
    judge_steps(around, &scope, post_at + 4 + post_trees, steps, faults);
    Ok(())
}

/// The steps of a lemma, the first standing at this tree.
fn judge_steps<'s, 't, 'd>(
    around: &'s Around<'t, 'd>,
    scope: &'s Scope<'s, 't, 'd>,
    at: u32,
    steps: &Items<Stm>,
    faults: &mut Faults,
)
    requires { at + sum_by trees_of_stm steps.now < 2 ^ 32 }
    ensures { faults.new ≡ least_with faults.old
        (proof_step_faults around.now (scope_of scope.now) at steps.now) }
{
    let mut next = at;
    for step in steps.as_slice() {
        faults.unless(is_proof(step), next, TypeRule::NotProof);
        next += judge_stm(around, scope, next, step, faults).trees;
    }
}

/// Whether a statement is a proof statement.
fn is_proof(stm: &Stm) -> bool
    ensures { result ≡ is_proof stm.now }
{
    matches!(
        stm,
        Stm::Open { .. } | Stm::Close { .. } | Stm::Lemma { .. }
    )
}

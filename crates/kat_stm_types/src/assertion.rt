//! Typing of assertions.

ghost use Rattle.std.specs.Prelude.{◌≡◌, ◌+◌, ◌<◌, ◌^◌, sum_by};
ghost use Rattle.kat_ast.specs.declared.assertion.Assertion.TheVariants as assertion;
ghost use Rattle.kat_ast.specs.Types.{trees_of_type};
ghost use Rattle.kat_ast.specs.Expressions.{trees_of_expr, trees_of_exprs};
ghost use Rattle.kat_ast.specs.Assertions.{trees_of_assertion};
ghost use Rattle.kat_stm_types.specs.Judging.{Counts, judged_here};

use crate::uses::{judge_cell_parts, judge_register_value, judge_truth, judge_use};
use kat_ast::count_type;
use kat_expr_types::{
    Faults, Setting, judge_given, judge_hiding, judge_known, judge_memory, judge_type, typing_laws,
};
use kat_syntax::{Assertion, Expr, TypeName};
use kat_text::Text;
use sqlite_items::Items;

/// Notes the faults of an assertion that stands at this tree, and answers how many trees it has.
#[cycle(assertion)]
#[tactic(auto, using(crate::proofs::Assertions::trees_judged))]
pub fn judge_assertion(
    setting: &Setting<'_, '_, '_>,
    at: u32,
    assertion: &Assertion,
    faults: &mut Faults,
) -> u32
    requires { at + trees_of_assertion assertion.now < 2 ^ 32 }
    ensures trees { result ≡ trees_of_assertion assertion.now }
    ensures judged { Counts (judged_here setting.now assertion.now) at
        result faults.old faults.new }
{
    match assertion {
        Assertion::Pure(test) => judge_pure(setting, at, test, faults),
        Assertion::Register { register, value } => {
            judge_points_to(setting, at, register, value, faults)
        }
        Assertion::Cell { index, value } => judge_cell(setting, at, index, value, faults),
        Assertion::Star(parts) => judge_star(setting, at, parts, faults),
        Assertion::If {
            test,
            then,
            otherwise,
        } => judge_if(setting, at, test, then.get(), otherwise.get(), faults),
        Assertion::Exists { name, ty, body } => {
            judge_exists(setting, at, name, ty, body.get(), faults)
        }
        Assertion::Predicate { predicate, args } => {
            judge_predicate(setting, at, predicate, args, faults)
        }
        Assertion::Region { region, args } => judge_region(setting, at, region, args, faults),
    }
}

fn judge_pure(setting: &Setting<'_, '_, '_>, at: u32, test: &Expr, faults: &mut Faults) -> u32
    requires { at + 2 + trees_of_expr test.now < 2 ^ 32 }
    ensures { Counts (judged_here setting.now (assertion.Pure test.now)) at
        result faults.old faults.new }
{
    2 + judge_truth(setting, at + 2, test, faults)
}

fn judge_points_to(
    setting: &Setting<'_, '_, '_>,
    at: u32,
    register: &Text,
    value: &Expr,
    faults: &mut Faults,
) -> u32
    requires { at + 3 + trees_of_expr value.now < 2 ^ 32 }
    ensures { Counts (judged_here setting.now (assertion.Register register.now value.now)) at
        result faults.old faults.new }
{
    judge_register_value(setting, at, register, value, faults)
}

fn judge_cell(
    setting: &Setting<'_, '_, '_>,
    at: u32,
    index: &Expr,
    value: &Expr,
    faults: &mut Faults,
) -> u32
    requires { at + 2 + trees_of_expr index.now + trees_of_expr value.now < 2 ^ 32 }
    ensures { Counts (judged_here setting.now (assertion.Cell index.now value.now)) at
        result faults.old faults.new }
{
    judge_cell_parts(setting, at, index, value, faults)
}

#[cycle(assertion)]
fn judge_star(
    setting: &Setting<'_, '_, '_>,
    at: u32,
    parts: &Items<Assertion>,
    faults: &mut Faults,
) -> u32
    requires { at + 2 + sum_by trees_of_assertion parts.now < 2 ^ 32 }
    ensures { Counts (judged_here setting.now (assertion.Star parts.now)) at
        result faults.old faults.new }
{
    typing_laws();
    let mut trees: u32 = 2;
    for part in parts.as_slice() {
        trees += judge_assertion(setting, at + trees, part, faults);
    }
    trees
}

#[cycle(assertion)]
fn judge_if(
    setting: &Setting<'_, '_, '_>,
    at: u32,
    test: &Expr,
    then: &Assertion,
    otherwise: &Assertion,
    faults: &mut Faults,
) -> u32
    requires { at + 2 + trees_of_expr test.now + trees_of_assertion then.now
        + trees_of_assertion otherwise.now < 2 ^ 32 }
    ensures { Counts (judged_here setting.now (assertion.If test.now then.now otherwise.now)) at
        result faults.old faults.new }
{
    typing_laws();
    let tested = 2 + judge_truth(setting, at + 2, test, faults);
    let first = judge_assertion(setting, at + tested, then, faults);
    let second = judge_assertion(setting, at + tested + first, otherwise, faults);
    tested + first + second
}

#[cycle(assertion)]
fn judge_exists(
    setting: &Setting<'_, '_, '_>,
    at: u32,
    name: &Text,
    ty: &TypeName,
    body: &Assertion,
    faults: &mut Faults,
) -> u32
    requires { at + 4 + trees_of_type ty.now + trees_of_assertion body.now < 2 ^ 32 }
    ensures { Counts (judged_here setting.now (assertion.Exists name.now ty.now body.now)) at
        result faults.old faults.new }
{
    typing_laws();
    let (around, scope) = (setting.around, setting.scope);
    judge_hiding(around, scope, at + 3, name, faults);
    judge_type(around, at + 4, ty, faults);
    let inner = scope.with(name, around.type_here(ty));
    let within = Setting::new(around, setting.standing, &inner);
    let before = 4 + count_type(ty);
    before + judge_assertion(&within, at + before, body, faults)
}

fn judge_predicate(
    setting: &Setting<'_, '_, '_>,
    at: u32,
    predicate: &Text,
    args: &Items<Expr>,
    faults: &mut Faults,
) -> u32
    requires { at + 3 + trees_of_exprs args.now < 2 ^ 32 }
    ensures { Counts (judged_here setting.now (assertion.Predicate predicate.now args.now)) at
        result faults.old faults.new }
{
    match setting.around.predicate(predicate) {
        Some(seen) => {
            let wanted = seen.inputs_and_outputs();
            judge_use(setting, at, Some(&seen), Some(&wanted), args, faults)
        }
        None => judge_use(setting, at, None, None, args, faults),
    }
}

fn judge_region(
    setting: &Setting<'_, '_, '_>,
    at: u32,
    region: &Text,
    args: &Items<Expr>,
    faults: &mut Faults,
) -> u32
    requires { at + 3 + trees_of_exprs args.now < 2 ^ 32 }
    ensures { Counts (judged_here setting.now (assertion.Region region.now args.now)) at
        result faults.old faults.new }
{
    typing_laws();
    judge_memory(setting.around, at, faults);
    let found = setting.around.region(region);
    judge_known(found.is_some(), at + 2, faults);
    judge_given(setting, at, found.as_ref(), args, faults)
}

//! Typing of statements.

ghost use Rattle.std.specs.Prelude.{◌+◌, ◌<◌, ◌^◌};
ghost use Rattle.kat_ast.specs.declared.stm.Stm.TheVariants as stm;
ghost use Rattle.kat_ast.specs.Expressions.{trees_of_expr, trees_of_exprs};
ghost use Rattle.kat_ast.specs.Statements.{trees_of_stm, trees_of_stms};
ghost use Rattle.kat_syntax.specs.TypesWritten as written;
ghost use Rattle.kat_syntax.specs.TypingStatements.{known_of_stm};
ghost use Rattle.kat_expr_types.specs.Scopes.{scope_of};
ghost use Rattle.kat_expr_types.specs.Judging.{Tells};

use crate::arms::{judge_case, judge_match};
use crate::branches::Branches;
use crate::uses::{judge_cell_parts, judge_register_value, judge_truth, judge_use};
use kat_expr_types::{
    Faults, Known, Scope, Setting, judge_expr, judge_given, judge_hiding, judge_known,
    judge_memory, judge_wanting,
};
use kat_syntax::{Expr, Stm, TypeRule};
use kat_tables::Around;
use kat_text::Text;
use kat_value::Ty;
use sqlite_items::Items;

/// Notes the faults of a statement that stands at this tree.
#[cycle(stm)]
pub fn judge_stm<'s, 't, 'd>(
    around: &'s Around<'t, 'd>,
    scope: &'s Scope<'s, 't, 'd>,
    at: u32,
    stm: &Stm,
    faults: &mut Faults,
) -> Known
    requires { at + trees_of_stm stm.now < 2 ^ 32 }
    ensures { Tells (known_of_stm around.now stm.now (scope_of scope.now)) at
        result faults.old faults.new }
{
    match stm {
        Stm::Ret(value) => judge_ret(around, scope, at, value, faults),
        Stm::Let { name, first, then } => {
            judge_let(around, scope, at, name, first.get(), then.get(), faults)
        }
        Stm::Seq(parts) => judge_seq(around, scope, at, parts, faults),
        Stm::If {
            test,
            then,
            otherwise,
        } => judge_if(around, scope, at, test, then.get(), otherwise.get(), faults),
        Stm::Case { value, arms } => judge_case(around, scope, at, value, arms, faults),
        Stm::Match { value, arms } => judge_match(around, scope, at, value, arms, faults),
        Stm::Read(register) => judge_read(around, at, register, faults),
        Stm::Write { register, value } => judge_write(around, scope, at, register, value, faults),
        Stm::Load(index) => judge_load(around, scope, at, index, faults),
        Stm::Store { index, value } => judge_store(around, scope, at, index, value, faults),
        Stm::Call { function, args } => judge_call(around, scope, at, function, args, faults),
        Stm::Check(test) => judge_check(around, scope, at, test, faults),
        Stm::Fail => Known::new(2, None),
        Stm::Open { predicate, inputs } | Stm::Close { predicate, inputs } => {
            judge_predicate(around, scope, at, predicate, inputs, faults)
        }
        Stm::Lemma { lemma, args } => judge_lemma(around, scope, at, lemma, args, faults),
    }
}

fn judge_ret<'s, 't, 'd>(
    around: &'s Around<'t, 'd>,
    scope: &'s Scope<'s, 't, 'd>,
    at: u32,
    value: &Expr,
    faults: &mut Faults,
) -> Known
    requires { at + 2 + trees_of_expr value.now < 2 ^ 32 }
    ensures { Tells (known_of_stm around.now (stm.Ret value.now) (scope_of scope.now)) at
        result faults.old faults.new }
{
    let known = judge_expr(&Setting::plain(around, scope), at + 2, value, faults);
    Known::new(2 + known.trees, known.ty)
}

#[cycle(stm)]
fn judge_let<'s, 't, 'd>(
    around: &'s Around<'t, 'd>,
    scope: &'s Scope<'s, 't, 'd>,
    at: u32,
    name: &Text,
    first: &Stm,
    then: &Stm,
    faults: &mut Faults,
) -> Known
    requires { at + 3 + trees_of_stm first.now + trees_of_stm then.now < 2 ^ 32 }
    ensures { Tells (known_of_stm around.now (stm.Let name.now first.now then.now)
        (scope_of scope.now)) at result faults.old faults.new }
{
    judge_hiding(around, scope, at + 2, name, faults);
    let value = judge_stm(around, scope, at + 3, first, faults);
    let inner = (&*scope).with(&*name, value.ty);
    let known = judge_stm(&*around, &inner, at + 3 + value.trees, then, faults);
    Known::new(3 + value.trees + known.trees, known.ty)
}

#[cycle(stm)]
fn judge_seq<'s, 't, 'd>(
    around: &'s Around<'t, 'd>,
    scope: &'s Scope<'s, 't, 'd>,
    at: u32,
    parts: &Items<Stm>,
    faults: &mut Faults,
) -> Known
    requires { at + 2 + trees_of_stms parts.now < 2 ^ 32 }
    ensures { Tells (known_of_stm around.now (stm.Seq parts.now) (scope_of scope.now)) at
        result faults.old faults.new }
{
    let mut known = Known::new(2, None);
    for part in parts.as_slice() {
        let one = judge_stm(around, scope, at + known.trees, part, faults);
        known = Known::new(known.trees + one.trees, one.ty);
    }
    known
}

#[cycle(stm)]
fn judge_if<'s, 't, 'd>(
    around: &'s Around<'t, 'd>,
    scope: &'s Scope<'s, 't, 'd>,
    at: u32,
    test: &Expr,
    then: &Stm,
    otherwise: &Stm,
    faults: &mut Faults,
) -> Known
    requires { at + 2 + trees_of_expr test.now + trees_of_stm then.now
        + trees_of_stm otherwise.now < 2 ^ 32 }
    ensures { Tells (known_of_stm around.now (stm.If test.now then.now otherwise.now)
        (scope_of scope.now)) at result faults.old faults.new }
{
    let tested = 2 + judge_truth(&Setting::plain(around, scope), at + 2, test, faults);
    let first = judge_stm(around, scope, at + tested, then, faults);
    let second = judge_stm(around, scope, at + tested + first.trees, otherwise, faults);
    let branches = Branches::none().with(0, first).with(0, second);
    faults.unless(branches.agrees, at, TypeRule::BranchesDiffer);
    Known::new(tested + branches.trees, branches.ty())
}

fn judge_read(around: &Around<'_, '_>, at: u32, register: &Text, faults: &mut Faults) -> Known
    requires { at + 3 < 2 ^ 32 }
    ensures { (scope : written.Scope) →
        Tells (known_of_stm around.now (stm.Read register.now) scope) at
        result faults.old faults.new }
{
    judge_known(around.register(register).is_some(), at + 2, faults);
    Known::new(3, around.type_of_register(register))
}

fn judge_write<'s, 't, 'd>(
    around: &'s Around<'t, 'd>,
    scope: &'s Scope<'s, 't, 'd>,
    at: u32,
    register: &Text,
    value: &Expr,
    faults: &mut Faults,
) -> Known
    requires { at + 3 + trees_of_expr value.now < 2 ^ 32 }
    ensures { Tells (known_of_stm around.now (stm.Write register.now value.now)
        (scope_of scope.now)) at result faults.old faults.new }
{
    let setting = Setting::plain(around, scope);
    let trees = judge_register_value(&setting, at, register, value, faults);
    Known::new(trees, Some(Ty::Unit))
}

fn judge_load<'s, 't, 'd>(
    around: &'s Around<'t, 'd>,
    scope: &'s Scope<'s, 't, 'd>,
    at: u32,
    index: &Expr,
    faults: &mut Faults,
) -> Known
    requires { at + 2 + trees_of_expr index.now < 2 ^ 32 }
    ensures { Tells (known_of_stm around.now (stm.Load index.now) (scope_of scope.now)) at
        result faults.old faults.new }
{
    judge_memory(around, at, faults);
    let known = judge_expr(&Setting::plain(around, scope), at + 2, index, faults);
    judge_wanting(around.index_type(), at + 2, known.ty, faults);
    Known::new(2 + known.trees, around.cell_type())
}

fn judge_store<'s, 't, 'd>(
    around: &'s Around<'t, 'd>,
    scope: &'s Scope<'s, 't, 'd>,
    at: u32,
    index: &Expr,
    value: &Expr,
    faults: &mut Faults,
) -> Known
    requires { at + 2 + trees_of_expr index.now + trees_of_expr value.now < 2 ^ 32 }
    ensures { Tells (known_of_stm around.now (stm.Store index.now value.now)
        (scope_of scope.now)) at result faults.old faults.new }
{
    let setting = Setting::plain(around, scope);
    let trees = judge_cell_parts(&setting, at, index, value, faults);
    Known::new(trees, Some(Ty::Unit))
}

fn judge_call<'s, 't, 'd>(
    around: &'s Around<'t, 'd>,
    scope: &'s Scope<'s, 't, 'd>,
    at: u32,
    function: &Text,
    args: &Items<Expr>,
    faults: &mut Faults,
) -> Known
    requires { at + 3 + trees_of_exprs args.now < 2 ^ 32 }
    ensures { Tells (known_of_stm around.now (stm.Call function.now args.now)
        (scope_of scope.now)) at result faults.old faults.new }
{
    let setting = Setting::plain(around, scope);
    match around.function(function) {
        Some(seen) => {
            let trees = judge_given(&setting, at, Some(seen.params()), args, faults);
            Known::new(trees, seen.ty())
        }
        None => {
            judge_known(false, at + 2, faults);
            Known::new(judge_given(&setting, at, None, args, faults), None)
        }
    }
}

fn judge_check<'s, 't, 'd>(
    around: &'s Around<'t, 'd>,
    scope: &'s Scope<'s, 't, 'd>,
    at: u32,
    test: &Expr,
    faults: &mut Faults,
) -> Known
    requires { at + 2 + trees_of_expr test.now < 2 ^ 32 }
    ensures { Tells (known_of_stm around.now (stm.Check test.now) (scope_of scope.now)) at
        result faults.old faults.new }
{
    let trees = judge_truth(&Setting::plain(around, scope), at + 2, test, faults);
    Known::new(2 + trees, Some(Ty::Unit))
}

/// `(open p e ..)` or `(close p e ..)`
fn judge_predicate<'s, 't, 'd>(
    around: &'s Around<'t, 'd>,
    scope: &'s Scope<'s, 't, 'd>,
    at: u32,
    predicate: &Text,
    inputs: &Items<Expr>,
    faults: &mut Faults,
) -> Known
    requires { at + 3 + trees_of_exprs inputs.now < 2 ^ 32 }
    ensures opens { Tells (known_of_stm around.now (stm.Open predicate.now inputs.now)
        (scope_of scope.now)) at result faults.old faults.new }
    ensures closes { Tells (known_of_stm around.now (stm.Close predicate.now inputs.now)
        (scope_of scope.now)) at result faults.old faults.new }
{
    let setting = Setting::plain(around, scope);
    let trees = match around.predicate(predicate) {
        Some(seen) => judge_use(
            &setting,
            at,
            Some(&seen),
            Some(&seen.inputs()),
            inputs,
            faults,
        ),
        None => judge_use(&setting, at, None, None, inputs, faults),
    };
    Known::new(trees, Some(Ty::Unit))
}

fn judge_lemma<'s, 't, 'd>(
    around: &'s Around<'t, 'd>,
    scope: &'s Scope<'s, 't, 'd>,
    at: u32,
    lemma: &Text,
    args: &Items<Expr>,
    faults: &mut Faults,
) -> Known
    requires { at + 3 + trees_of_exprs args.now < 2 ^ 32 }
    ensures { Tells (known_of_stm around.now (stm.Lemma lemma.now args.now)
        (scope_of scope.now)) at result faults.old faults.new }
{
    let setting = Setting::plain(around, scope);
    let trees = match around.lemma(lemma) {
        Some(seen) => judge_use(
            &setting,
            at,
            Some(&seen),
            Some(&seen.inputs()),
            args,
            faults,
        ),
        None => judge_use(&setting, at, None, None, args, faults),
    };
    Known::new(trees, Some(Ty::Unit))
}

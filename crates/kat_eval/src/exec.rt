//! What statements do. The interpreter runs the tree as it stands; where a failure stands is worked
//! out only when one comes, on the way back, so that a cycle that completes pays nothing for it.
//! Native recursion follows the nesting of the text and of calls.

ghost use Rattle.std.specs.Prelude.{◌<◌, IfOk, IfSome, Option};
ghost use Rattle.kat_ast.specs.declared.stm.Stm.TheVariants.{Let, Seq, If, Case, Match, Call};
ghost use Rattle.kat_ast.specs.Statements.{trees_of_stm};
ghost use Rattle.kat_ast.specs.Limits.{decl_trees_bound};
ghost use Rattle.kat_syntax.specs.Functions.{IsCallable, IsFunctionSeen};
ghost use Rattle.kat_syntax.specs.Tables.{Function};
ghost use Rattle.kat_eval.specs.Locals.{locals_of};
ghost use Rattle.kat_eval.specs.Running.{HasRun, HasCalled};

use crate::acts::{check, give};
use crate::arms::{case_arm, made_in, match_arm, member_in};
use crate::eval::{eval, eval_all, eval_truth};
use crate::locals::{Frame, Locals};
use crate::memory::{load, store};
use crate::registers::{read, write};
use crate::running::{CallEnd, Running, Site, StmEnd};
use crate::sites::{
    behind_branch, behind_first, behind_test, in_case_arm, in_match_arm, in_sequence,
};
use kat_syntax::{CaseArm, Checked, Expr, FunctionSeen, MatchArm, Stm, statements_do_their_parts};
use kat_text::Text;
use kat_value::{Value, Values};
use sqlite_items::{Boxed, Items};
use std::alloc::{AllocError, Global};

/// Runs a statement. After an answer other than `Done` what is running is given up.
#[cycle(statements)]
pub fn exec(
    alloc: Global,
    stm: &Stm,
    checked: &Checked,
    locals: &Locals<'_, '_>,
    running: &mut Running,
) -> Result<StmEnd, AllocError>
    requires { trees_of_stm stm.now < decl_trees_bound }
    ensures { IfOk result
        (HasRun checked.now stm.now (locals_of locals.now) running.old running.new) }
{
    match stm {
        Stm::Ret(value) => give(alloc, value, checked, locals, running),
        Stm::Let { name, first, then } => bind(alloc, name, first, then, checked, locals, running),
        Stm::Seq(parts) => sequence(alloc, parts, checked, locals, running),
        Stm::If {
            test,
            then,
            otherwise,
        } => branch(alloc, test, then, otherwise, checked, locals, running),
        Stm::Case { value, arms } => case(alloc, value, arms, checked, locals, running),
        Stm::Match { value, arms } => matched(alloc, value, arms, checked, locals, running),
        Stm::Read(register) => read(alloc, checked, running, register),
        Stm::Write { register, value } => write(alloc, register, value, checked, locals, running),
        Stm::Load(index) => load(alloc, index, checked, locals, running),
        Stm::Store { index, value } => store(alloc, index, value, checked, locals, running),
        Stm::Call { function, args } => call(alloc, function, args, checked, locals, running),
        Stm::Check(test) => check(alloc, test, checked, locals, running),
        Stm::Fail => Ok(StmEnd::Fail(Site::Here(0))),
        Stm::Open { .. } | Stm::Close { .. } | Stm::Lemma { .. } => Ok(StmEnd::Done(Value::Unit)),
    }
}

/// Runs the first part of a `let`, and then the other, which sees the value of the first.
#[cycle(statements)]
fn bind(
    alloc: Global,
    name: &Text,
    first: &Boxed<Stm>,
    then: &Boxed<Stm>,
    checked: &Checked,
    locals: &Locals<'_, '_>,
    running: &mut Running,
) -> Result<StmEnd, AllocError>
    requires { trees_of_stm (Let name.now first.now then.now) < decl_trees_bound }
    ensures { IfOk result (HasRun checked.now (Let name.now first.now then.now)
        (locals_of locals.now) running.old running.new) }
{
    statements_do_their_parts();
    let first = first.get();
    match exec(alloc, first, checked, locals, running)? {
        StmEnd::Done(value) => {
            let inner = (&*locals).with(&*name, &value);
            let end = exec(alloc, then.get(), checked, &inner, running)?;
            Ok(behind_first(end, first))
        }
        StmEnd::Out => Ok(StmEnd::Out),
        StmEnd::Fail(site) => Ok(StmEnd::Fail(site).inside(3)),
        StmEnd::Stuck => Ok(StmEnd::Stuck),
    }
}

/// Runs the parts of a `seq`: every value but the last is dropped.
#[cycle(statements)]
fn sequence(
    alloc: Global,
    parts: &Items<Stm>,
    checked: &Checked,
    locals: &Locals<'_, '_>,
    running: &mut Running,
) -> Result<StmEnd, AllocError>
    requires { trees_of_stm (Seq parts.now) < decl_trees_bound }
    ensures { IfOk result (HasRun checked.now (Seq parts.now)
        (locals_of locals.now) running.old running.new) }
{
    statements_do_their_parts();
    let mut last = StmEnd::Stuck;
    for (number, part) in parts.as_slice().iter().enumerate() {
        last = match exec(alloc, part, checked, locals, running)? {
            StmEnd::Done(value) => StmEnd::Done(value),
            end => return Ok(in_sequence(end, &parts.as_slice()[..number])),
        };
    }
    Ok(last)
}

/// Runs the part of an `if` that its condition chooses.
#[cycle(statements)]
fn branch(
    alloc: Global,
    test: &Expr,
    then: &Boxed<Stm>,
    otherwise: &Boxed<Stm>,
    checked: &Checked,
    locals: &Locals<'_, '_>,
    running: &mut Running,
) -> Result<StmEnd, AllocError>
    requires { trees_of_stm (If test.now then.now otherwise.now) < decl_trees_bound }
    ensures { IfOk result (HasRun checked.now (If test.now then.now otherwise.now)
        (locals_of locals.now) running.old running.new) }
{
    statements_do_their_parts();
    match eval_truth(alloc, test, checked, locals)? {
        Some(true) => {
            let end = exec(alloc, then.get(), checked, locals, running)?;
            Ok(behind_test(end, test))
        }
        Some(false) => {
            let end = exec(alloc, otherwise.get(), checked, locals, running)?;
            Ok(behind_branch(end, test, then.get()))
        }
        None => Ok(StmEnd::Stuck),
    }
}

/// Runs the arm of a `case` that is for the member.
#[cycle(statements)]
fn case(
    alloc: Global,
    value: &Expr,
    arms: &Items<CaseArm<Stm>>,
    checked: &Checked,
    locals: &Locals<'_, '_>,
    running: &mut Running,
) -> Result<StmEnd, AllocError>
    requires { trees_of_stm (Case value.now arms.now) < decl_trees_bound }
    ensures { IfOk result (HasRun checked.now (Case value.now arms.now)
        (locals_of locals.now) running.old running.new) }
{
    statements_do_their_parts();
    let Some(member_value) = eval(alloc, value, checked, locals)? else {
        return Ok(StmEnd::Stuck);
    };
    let Some(member) = member_in(checked.types(), &member_value) else {
        return Ok(StmEnd::Stuck);
    };
    let Some(found) = case_arm(arms.as_slice(), member) else {
        return Ok(StmEnd::Stuck);
    };
    let end = exec(alloc, &found.arm.body, checked, locals, running)?;
    Ok(in_case_arm(end, value, &arms.as_slice()[..found.at]))
}

/// Runs the arm of a `match` that is for the constructor, with the payload named.
#[cycle(statements)]
fn matched(
    alloc: Global,
    value: &Expr,
    arms: &Items<MatchArm<Stm>>,
    checked: &Checked,
    locals: &Locals<'_, '_>,
    running: &mut Running,
) -> Result<StmEnd, AllocError>
    requires { trees_of_stm (Match value.now arms.now) < decl_trees_bound }
    ensures { IfOk result (HasRun checked.now (Match value.now arms.now)
        (locals_of locals.now) running.old running.new) }
{
    statements_do_their_parts();
    let Some(made_value) = eval(alloc, value, checked, locals)? else {
        return Ok(StmEnd::Stuck);
    };
    let Some(made) = made_in(checked.types(), &made_value) else {
        return Ok(StmEnd::Stuck);
    };
    let Some(found) = match_arm(arms.as_slice(), made.ctor) else {
        return Ok(StmEnd::Stuck);
    };
    let inner = (&*locals).with(&found.arm.payload, made.payload);
    let end = exec(alloc, &found.arm.body, checked, &inner, running)?;
    Ok(in_match_arm(end, value, &arms.as_slice()[..found.at]))
}

/// Runs a call: its arguments, and then the function.
#[cycle(statements)]
fn call(
    alloc: Global,
    function: &Text,
    args: &Items<Expr>,
    checked: &Checked,
    locals: &Locals<'_, '_>,
    running: &mut Running,
) -> Result<StmEnd, AllocError>
    requires { trees_of_stm (Call function.now args.now) < decl_trees_bound }
    ensures { IfOk result (HasRun checked.now (Call function.now args.now)
        (locals_of locals.now) running.old running.new) }
{
    statements_do_their_parts();
    let Some(values) = eval_all(alloc, args.as_slice(), checked, locals)? else {
        return Ok(StmEnd::Stuck);
    };
    let function = checked.function(function);
    let end = call_function(alloc, function, values, checked, running)?;
    Ok(end.of_statement())
}

/// Spends a call and runs the body of the function, if there is one, with these values for its
/// parameters.
#[cycle(statements)]
pub fn call_function(
    alloc: Global,
    function: Option<FunctionSeen<'_>>,
    values: Values,
    checked: &Checked,
    running: &mut Running,
) -> Result<CallEnd, AllocError>
    requires { IfSome function IsCallable }
    ensures { IfOk result (λ end. (found : Option Function) → IsFunctionSeen function.entry found →
        HasCalled checked.now found values running.old running.new end) }
{
    if running.left == 0 {
        return Ok(CallEnd::Out);
    }
    running.left -= 1;
    let Some(function) = function else {
        return Ok(CallEnd::Stuck);
    };
    let Some(frame) = Frame::new(function, values) else {
        return Ok(CallEnd::Stuck);
    };
    let locals = Locals::of(&frame);
    let end = exec(alloc, function.body, checked, &locals, running)?;
    Ok(end.of_function(function))
}

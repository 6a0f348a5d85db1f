//! Giving a value and checking a condition.

ghost use Rattle.std.specs.Prelude.{IfOk};
ghost use Rattle.kat_ast.specs.declared.stm.Stm.TheOpen.{Ret, Check};
ghost use Rattle.kat_eval.specs.Locals.{locals_of};
ghost use Rattle.kat_eval.specs.Running.{HasActed};

use crate::eval::{eval, eval_truth};
use crate::locals::Locals;
use crate::running::{Running, Site, StmEnd};
use kat_syntax::{Checked, Expr};
use kat_value::Value;
use std::alloc::{AllocError, Global};

/// Gives the value of an expression.
pub fn give(
    alloc: Global,
    value: &Expr,
    checked: &Checked,
    locals: &Locals<'_, '_>,
    running: &Running,
) -> Result<StmEnd, AllocError>
    ensures { IfOk result (HasActed checked.now (Ret value.now)
        (locals_of locals.now) running.now running.now) }
{
    match eval(alloc, value, checked, locals)? {
        Some(value) => Ok(StmEnd::Done(value)),
        None => Ok(StmEnd::Stuck),
    }
}

/// Fails where the condition is false.
pub fn check(
    alloc: Global,
    test: &Expr,
    checked: &Checked,
    locals: &Locals<'_, '_>,
    running: &Running,
) -> Result<StmEnd, AllocError>
    ensures { IfOk result (HasActed checked.now (Check test.now)
        (locals_of locals.now) running.now running.now) }
{
    match eval_truth(alloc, test, checked, locals)? {
        Some(true) => Ok(StmEnd::Done(Value::Unit)),
        Some(false) => Ok(StmEnd::Fail(Site::Here(0))),
        None => Ok(StmEnd::Stuck),
    }
}

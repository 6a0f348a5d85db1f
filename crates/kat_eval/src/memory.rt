//! Loading and storing a cell.

ghost use Rattle.std.specs.Prelude.{◌≡◌, IfOk};
ghost use Rattle.kat_ast.specs.declared.stm.Stm.TheOpen.{Load, Store};
ghost use Rattle.kat_eval.specs.Locals.{locals_of};
ghost use Rattle.kat_eval.specs.Running.{HasActed};

use crate::eval::eval_number;
use crate::locals::Locals;
use crate::running::{Running, Site, StmEnd};
use kat_syntax::{Checked, Expr};
use kat_value::Value;
use std::alloc::{AllocError, Global};

/// Gives the number in a cell; fails outside the memory.
pub fn load(
    alloc: Global,
    index: &Expr,
    checked: &Checked,
    locals: &Locals<'_, '_>,
    running: &Running,
) -> Result<StmEnd, AllocError>
    ensures { IfOk result (HasActed checked.now (Load index.now)
        (locals_of locals.now) running.now running.now) }
{
    let _spec = checked.spec();
    let Some(memory) = checked.memory() else {
        return Ok(StmEnd::Stuck);
    };
    let Some(i) = eval_number(alloc, memory.index_width, index, checked, locals)? else {
        return Ok(StmEnd::Stuck);
    };
    match running.state.cell(i) {
        Some(number) => Ok(StmEnd::Done(Value::Bits {
            width: memory.cell_width as u32,
            number,
        })),
        None => Ok(StmEnd::Fail(Site::Here(0))),
    }
}

/// Sets a cell, notes its index, and gives unit; fails outside the memory.
pub fn store(
    alloc: Global,
    index: &Expr,
    value: &Expr,
    checked: &Checked,
    locals: &Locals<'_, '_>,
    running: &mut Running,
) -> Result<StmEnd, AllocError>
    ensures { IfOk result (HasActed checked.now (Store index.now value.now)
        (locals_of locals.now) running.old running.new) }
{
    let Some(memory) = checked.memory() else {
        return Ok(StmEnd::Stuck);
    };
    let Some(i) = eval_number(alloc, memory.index_width, index, checked, locals)? else {
        return Ok(StmEnd::Stuck);
    };
    let Some(number) = eval_number(alloc, memory.cell_width, value, checked, locals)? else {
        return Ok(StmEnd::Stuck);
    };
    if running.state.cell(i).is_none() {
        return Ok(StmEnd::Fail(Site::Here(0)));
    }
    running.stores.push(i)?;
    running.state.set_cell(i, number);
    Ok(StmEnd::Done(Value::Unit))
}

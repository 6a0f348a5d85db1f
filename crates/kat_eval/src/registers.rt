//! Reading and writing a register by its name.

ghost use Rattle.std.specs.Prelude.{◌≡◌, true, false, IfOk, Some, None};
ghost use Rattle.kat_ast.specs.declared.stm.Stm.TheOpen.{Read, Write};
ghost use Rattle.kat_syntax.specs.Evaluation.{Locals as LocalsSeen};
ghost use Rattle.kat_syntax.specs.States.{written};
ghost use Rattle.kat_eval.specs.Locals.{locals_of};
ghost use Rattle.kat_eval.specs.Running.{HasActed};

use crate::eval::eval;
use crate::locals::Locals;
use crate::running::{Running, StmEnd};
use kat_state::State;
use kat_syntax::{Checked, Expr};
use kat_text::Text;
use kat_value::{Value, copy_value, fits};
use std::alloc::{AllocError, Global};

/// Gives a copy of a register's value.
pub fn read(
    alloc: Global,
    checked: &Checked,
    running: &Running,
    register: &Text,
) -> Result<StmEnd, AllocError>
    ensures { IfOk result (λ end. (locals : LocalsSeen) →
        HasActed checked.now (Read register.now) locals running.now running.now end) }
{
    let Some(at) = checked.register(register) else {
        return Ok(StmEnd::Stuck);
    };
    match running.state.registers().get(at as usize) {
        Some(value) => Ok(StmEnd::Done(copy_value(alloc, value)?)),
        None => Ok(StmEnd::Stuck),
    }
}

/// Sets a register to a value of its type, and gives unit.
pub fn write(
    alloc: Global,
    register: &Text,
    value: &Expr,
    checked: &Checked,
    locals: &Locals<'_, '_>,
    running: &mut Running,
) -> Result<StmEnd, AllocError>
    ensures { IfOk result (HasActed checked.now (Write register.now value.now)
        (locals_of locals.now) running.old running.new) }
{
    let Some(value) = eval(alloc, value, checked, locals)? else {
        return Ok(StmEnd::Stuck);
    };
    if set_register(checked, &mut running.state, register, value) {
        Ok(StmEnd::Done(Value::Unit))
    } else {
        Ok(StmEnd::Stuck)
    }
}

/// Sets the register of this name, where there is one and the value is of its type; whether it did.
fn set_register(checked: &Checked, state: &mut State, register: &Text, value: Value) -> bool
    ensures set { result ≡ true →
        written checked.now.decls register.now value state.old ≡ Some state.new }
    ensures not_set { result ≡ false →
        written checked.now.decls register.now value state.old ≡ None }
{
    let Some(at) = checked.register(register) else {
        return false;
    };
    let Some(ty) = checked.register_types().get(at as usize) else {
        return false;
    };
    if !fits(checked.types(), ty, &value) {
        return false;
    }
    if (at as usize) < state.registers().len() {
        state.set_reg(at, value);
    }
    true
}

//! The state that was printed last: what a cycle changed is copied to it, and nothing else.

ghost use Rattle.std.specs.Prelude.{◌≡◌, ℕ, OnOk, IfOk, length, false};
ghost use Rattle.std.specs.List.{Contains};
ghost use Rattle.std.specs.List.Sorted.{IsStrictlyIncreasing};
ghost use Rattle.kat_syntax.specs.Machine.{MachineState};
ghost use Rattle.kat_runner.specs.Runner.{ChangesOnlyStored, is_stored};

use kat_state::State;
use kat_value::{copy_value, same_value};
use std::alloc::{AllocError, Global};

/// Makes a state equal to the next one; `stored` are the indices that the cycle between them
/// stored.
pub fn update(
    alloc: Global,
    shown: &mut State,
    next: &State,
    stored: &[u64],
) -> Result<(), AllocError>
    requires { ChangesOnlyStored stored.now shown.old next.now }
    ensures { OnOk result (shown.new ≡ next.now) }
{
    update_cells(shown, next, stored);
    update_registers(alloc, shown, next)
}

/// The indices that were stored, each once, in order.
pub fn sorted(alloc: Global, stores: &[u64]) -> Result<Vec<u64>, AllocError>
    ensures rises { IfOk result (λ all. IsStrictlyIncreasing all.items) }
    ensures keeps { IfOk result (λ all. (index : ℕ) →
        is_stored all.items index ≡ false → is_stored stores.now index ≡ false) }
{
    let mut all = Vec::from_slice(alloc, stores)?;
    all.sort_unstable();
    all.dedup();
    Ok(all)
}

/// Makes the registers equal to those of the next state, and copies those that differ. 2^32 are
/// taken for more than memory holds.
fn update_registers(alloc: Global, shown: &mut State, next: &State) -> Result<(), AllocError>
    requires { length next.now.registers ≡ length shown.old.registers }
    ensures { OnOk result (shown.new
        ≡ record shown.old { registers = next.now.registers }) }
{
    let count = next.registers().len();
    if count > u32::MAX as usize {
        return Err(AllocError);
    }
    for at in 0..count {
        let value = &next.registers()[at];
        if !same_value(&shown.registers()[at], value) {
            shown.set_reg(at as u32, copy_value(alloc, value)?);
        }
    }
    Ok(())
}

/// Makes the cells equal to those of the next state, which differ at these indices alone.
fn update_cells(shown: &mut State, next: &State, stored: &[u64])
    requires { ChangesOnlyStored stored.now shown.old next.now }
    ensures { shown.new ≡ record shown.old { cells = next.now.cells } }
{
    for at in 0..stored.len() {
        let index = stored[at];
        if let Some(number) = next.cell(index) {
            shown.set_cell(index, number);
        }
    }
}

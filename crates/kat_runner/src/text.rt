//! The printed text of a run. Each function adds text at the end.

ghost use Rattle.std.specs.Prelude.{◌≡◌, ◌++◌, ◌-◌, [], OnOk, filter, if◌then◌else◌};
ghost use Rattle.std.specs.List.{range_with_len};
ghost use Rattle.std.specs.List.Sorted.{IsStrictlyIncreasing};
ghost use Rattle.kat_value.specs.Equality.{value_eq};
ghost use Rattle.kat_value.specs.declared.value.Value.TheVariants.{Bits as Number};
ghost use Rattle.kat_syntax.specs.Run.{Ended};
ghost use Rattle.kat_syntax.specs.States.{cell_width};
ghost use Rattle.kat_print.specs.Values.{register_line, text_of_value};
ghost use Rattle.kat_runner.specs.Runner.{ChangesOnlyStored};
ghost use Rattle.kat_runner.specs.StateText.{register_lines, changed_registers, cell_text_of, cell_line, filled_line, changed_line, filled_cells, changed_cells, indices_of, is_index, first_lines, later_lines, boundary_piece, end_piece};

use kat_print::{push_register_line, push_value};
use kat_state::State;
use kat_syntax::Checked;
use kat_text::{Text, TextBuilder};
use kat_value::{Types, Value, same_value};
use std::alloc::AllocError;

/// The piece of boundary 0.
pub fn push_first_boundary(
    out: &mut TextBuilder,
    machine: &Checked,
    state: &State,
) -> Result<(), AllocError>
    ensures { let lines = first_lines machine.now.decls state.now in
        OnOk result (out.new ≡ out.old ++ boundary_piece 0 lines) }
{
    push_at(out, 0)?;
    push_all_registers(
        out,
        machine.types(),
        machine.register_names(),
        state.registers(),
    )?;
    push_filled_cells(out, machine, state)
}

/// The piece of boundary k, behind a boundary with the state `before`; `stored` are the indices
/// that its cycle stored, each once, in order.
pub fn push_boundary(
    out: &mut TextBuilder,
    k: u64,
    machine: &Checked,
    before: &State,
    after: &State,
    stored: &[u64],
) -> Result<(), AllocError>
    requires rises { IsStrictlyIncreasing stored.now }
    requires changes { ChangesOnlyStored stored.now before.now after.now }
    ensures { let lines = later_lines machine.now.decls before.now after.now in
        OnOk result (out.new ≡ out.old ++ boundary_piece k lines) }
{
    push_at(out, k)?;
    let names = machine.register_names();
    push_changed_registers(
        out,
        machine.types(),
        names,
        before.registers(),
        after.registers(),
    )?;
    push_stored_cells(out, machine, before, after, stored)
}

/// The last piece of a run that ended, with the number of its last boundary.
pub fn push_ended(out: &mut TextBuilder, last: u64) -> Result<(), AllocError>
    ensures { OnOk result (out.new ≡ out.old ++ end_piece last Ended) }
{
    out.push_text("ended ")?;
    out.push_decimal(last)?;
    out.push_newline()
}

/// The line with the number of a boundary.
fn push_at(out: &mut TextBuilder, k: u64) -> Result<(), AllocError>
    ensures { OnOk result (out.new ≡ out.old ++ boundary_piece k []) }
{
    out.push_text("at ")?;
    out.push_decimal(k)?;
    out.push_newline()
}

/// A line for every register.
fn push_all_registers(
    out: &mut TextBuilder,
    types: &Types,
    names: &[Text],
    values: &[Value],
) -> Result<(), AllocError>
    ensures { OnOk result (out.new ≡ out.old ++ register_lines types.now names.now values.now) }
{
    let count = names.len().min(values.len());
    for at in 0..count {
        push_register_line(out, types, names[at].as_str(), &values[at])?;
    }
    Ok(())
}

/// A line for each register whose value is not the one before.
fn push_changed_registers(
    out: &mut TextBuilder,
    types: &Types,
    names: &[Text],
    before: &[Value],
    after: &[Value],
) -> Result<(), AllocError>
    ensures { let lines = changed_registers types.now names.now before.now after.now in
        OnOk result (out.new ≡ out.old ++ lines) }
{
    let count = names.len().min(before.len()).min(after.len());
    for at in 0..count {
        push_register_if_changed(out, types, &names[at], &before[at], &after[at])?;
    }
    Ok(())
}

/// The line of a register, where its value is not the one before.
fn push_register_if_changed(
    out: &mut TextBuilder,
    types: &Types,
    name: &Text,
    before: &Value,
    after: &Value,
) -> Result<(), AllocError>
    ensures { let line = register_line types.now name.now after.now in
        OnOk result (out.new ≡ out.old ++ (if value_eq before.now after.now then [] else line)) }
{
    if same_value(before, after) {
        return Ok(());
    }
    push_register_line(out, types, name.as_str(), after)
}

/// A line for each cell that is not zero.
fn push_filled_cells(
    out: &mut TextBuilder,
    machine: &Checked,
    state: &State,
) -> Result<(), AllocError>
    ensures { let decls = machine.now.decls in
        let lines = filled_cells (cell_text_of decls) state.now (indices_of decls) in
        OnOk result (out.new ≡ out.old ++ lines) }
{
    match machine.memory() {
        Some(memory) => push_filled_between(out, machine, state, memory.lo, memory.hi),
        None => Ok(()),
    }
}

/// A line for each cell from `lo` to `hi` - 1 that is not zero.
fn push_filled_between(
    out: &mut TextBuilder,
    machine: &Checked,
    state: &State,
    lo: u64,
    hi: u64,
) -> Result<(), AllocError>
    ensures { let text = cell_text_of machine.now.decls in
        let lines = filled_cells text state.now (range_with_len lo (hi - lo)) in
        OnOk result (out.new ≡ out.old ++ lines) }
{
    for index in lo..hi {
        push_filled_cell(out, machine, index, state.cell(index))?;
    }
    Ok(())
}

/// The line of a cell that is not zero.
fn push_filled_cell(
    out: &mut TextBuilder,
    machine: &Checked,
    index: u64,
    number: Option<u64>,
) -> Result<(), AllocError>
    ensures { let line = filled_line (cell_text_of machine.now.decls) index number in
        OnOk result (out.new ≡ out.old ++ line) }
{
    match number {
        Some(number) if number != 0 => push_cell_line(out, machine, index, number),
        _ => Ok(()),
    }
}

/// A line for each of the cells at these indices of the memory whose number is not the one before.
fn push_stored_cells(
    out: &mut TextBuilder,
    machine: &Checked,
    before: &State,
    after: &State,
    stored: &[u64],
) -> Result<(), AllocError>
    ensures { let text = cell_text_of machine.now.decls in
        let indices = filter (is_index machine.now.decls) stored.now in
        OnOk result (out.new ≡ out.old ++ changed_cells text before.now after.now indices) }
{
    for at in 0..stored.len() {
        let index = stored[at];
        push_stored_cell(out, machine, index, before.cell(index), after.cell(index))?;
    }
    Ok(())
}

/// The line of a cell at an index of the memory whose number is not the one before.
fn push_stored_cell(
    out: &mut TextBuilder,
    machine: &Checked,
    index: u64,
    before: Option<u64>,
    after: Option<u64>,
) -> Result<(), AllocError>
    ensures { let decls = machine.now.decls in
        let line = changed_line (cell_text_of decls) index before after in
        OnOk result (out.new ≡ out.old ++ (if is_index decls index then line else [])) }
{
    if !is_index(machine, index) {
        return Ok(());
    }
    let Some(new) = after else {
        return Ok(());
    };
    match before {
        Some(old) => {
            if old == new {
                Ok(())
            } else {
                push_cell_line(out, machine, index, new)
            }
        }
        None => push_cell_line(out, machine, index, new),
    }
}

/// Whether the memory has this index.
fn is_index(machine: &Checked, index: u64) -> bool
    ensures { result ≡ is_index machine.now.decls index }
{
    match machine.memory() {
        Some(memory) => {
            memory.lo <= index && index - memory.lo < memory.hi.saturating_sub(memory.lo)
        }
        None => false,
    }
}

/// The line of a cell.
fn push_cell_line(
    out: &mut TextBuilder,
    machine: &Checked,
    index: u64,
    number: u64,
) -> Result<(), AllocError>
    ensures { let line = cell_line (cell_text_of machine.now.decls) index number in
        OnOk result (out.new ≡ out.old ++ line) }
{
    out.push_text("cell ")?;
    out.push_decimal(index)?;
    out.push_text(" ")?;
    push_number(out, machine, number)?;
    out.push_newline()
}

/// A number as a value of a cell.
fn push_number(out: &mut TextBuilder, machine: &Checked, number: u64) -> Result<(), AllocError>
    ensures { let text = cell_text_of machine.now.decls in
        OnOk result (out.new ≡ out.old ++ text_of_value text.types (Number text.width number)) }
{
    let width = cell_width(machine);
    push_value(out, machine.types(), &Value::Bits { width, number })
}

/// The width of cells; 0 where there is no memory.
fn cell_width(machine: &Checked) -> u32
    ensures { result ≡ cell_width machine.now.decls }
{
    match machine.memory() {
        Some(memory) => memory.cell_width as u32,
        None => 0,
    }
}

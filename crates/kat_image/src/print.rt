//! A state as the text of an image.

ghost use Rattle.std.specs.Prelude.{◌≡◌, ◌≤◌, ◌<◌, ◌++◌, ◌+◌, ◌-◌, Some, length, slice_get, IfOk, OnOk};
ghost use Rattle.std.specs.String.{string_bytes};
ghost use Rattle.kat_syntax.specs.Memories.{IsMemory};
ghost use Rattle.kat_syntax.specs.States.{IsState, cell_width};
ghost use Rattle.kat_image.specs.ImageText.{image_text_of, register_lines, cells_text, cell_text, count_behind, cell_start, line_end, digits_of_cell};

use kat_print::push_register_line;
use kat_state::State;
use kat_syntax::{Checked, Memory};
use kat_text::{Text, TextBuilder};
use kat_value::{Types, Value};
use std::alloc::{AllocError, Global};

/// The text of a state of the machine as an image: a line for each register, and each run of cells
/// that are not zero, at most eight on a line.
pub fn print_image(alloc: Global, machine: &Checked, state: &State) -> Result<String, AllocError>
    requires { IsState machine.now.decls state.now }
    ensures { IfOk result (λ text. string_bytes text ≡ image_text_of machine.now state.now) }
{
    let mut out = TextBuilder::new(alloc);
    let names = machine.register_names();
    push_registers(&mut out, machine.types(), names, state.registers())?;
    push_cells(&mut out, machine, state)?;
    Ok(out.into_string())
}

/// A line for each register.
fn push_registers(
    out: &mut TextBuilder,
    types: &Types,
    names: &[Text],
    values: &[Value],
) -> Result<(), AllocError>
    ensures { OnOk result (out.new ≡ out.old ++ register_lines types.now names.now values.now) }
{
    let count = names.len().min(values.len());
    for at in 0..count {
        push_register_line(out, types, names[at].as_str(), &values[at])?;
    }
    Ok(())
}

/// The lines of the cells.
fn push_cells(out: &mut TextBuilder, machine: &Checked, state: &State) -> Result<(), AllocError>
    requires { IsState machine.now.decls state.now }
    ensures { let digits = digits_of_cell (cell_width machine.now.decls) in
        OnOk result (out.new ≡ out.old ++ cells_text digits state.now.lo 0 state.now.cells) }
{
    match machine.memory() {
        Some(memory) => push_memory(out, memory, state),
        None => Ok(()),
    }
}

/// The lines of the cells of this memory.
fn push_memory(out: &mut TextBuilder, memory: Memory, state: &State) -> Result<(), AllocError>
    requires memory { IsMemory memory }
    requires first { state.now.lo ≡ memory.lo }
    requires count { length state.now.cells ≡ memory.hi - memory.lo }
    ensures { let digits = digits_of_cell memory.cell_width in
        OnOk result (out.new ≡ out.old ++ cells_text digits state.now.lo 0 state.now.cells) }
{
    let digits = 2 * memory.cell_width.div_ceil(8) as u32;
    push_numbers(out, digits, memory, state)
}

/// The lines of cells of so many digits.
fn push_numbers(
    out: &mut TextBuilder,
    digits: u32,
    memory: Memory,
    state: &State,
) -> Result<(), AllocError>
    requires first { state.now.lo ≡ memory.lo }
    requires count { length state.now.cells ≡ memory.hi - memory.lo }
    ensures { OnOk result (out.new
        ≡ out.old ++ cells_text digits state.now.lo 0 state.now.cells) }
{
    let mut count: u32 = 0;
    for index in memory.lo..memory.hi {
        count = push_cell(out, digits, index, cell_of(state, index), count)?;
    }
    push_line_end(out, count)
}

/// The number in a cell of the memory.
fn cell_of(state: &State, index: u64) -> u64
    requires first { state.now.lo ≤ index }
    requires within { index - state.now.lo < length state.now.cells }
    ensures { slice_get state.now.cells (index - state.now.lo) ≡ Some result }
{
    match state.cell(index) {
        Some(number) => number,
        None => unreachable!(),
    }
}

/// A cell behind so many on the open line, and how many the line has then.
fn push_cell(
    out: &mut TextBuilder,
    digits: u32,
    index: u64,
    number: u64,
    count: u32,
) -> Result<u32, AllocError>
    requires { count ≤ 8 }
    ensures pushed { OnOk result (out.new ≡ out.old ++ cell_text digits index count number) }
    ensures count { IfOk result (λ behind. behind ≡ count_behind count number) }
    ensures few { IfOk result (λ behind. behind ≤ 8) }
{
    if number == 0 {
        push_line_end(out, count)?;
        return Ok(0);
    }
    push_cell_start(out, index, count)?;
    out.push_hexadecimal(number, digits)?;
    Ok(if count == 8 { 1 } else { count + 1 })
}

/// What stands before a cell that is not zero, behind so many on the open line.
fn push_cell_start(out: &mut TextBuilder, index: u64, count: u32) -> Result<(), AllocError>
    ensures { OnOk result (out.new ≡ out.old ++ cell_start index count) }
{
    if count != 0 && count != 8 {
        return Ok(());
    }
    push_line_end(out, count)?;
    out.push_text("cells ")?;
    out.push_decimal(index)?;
    out.push_space()
}

/// The end of a line of so many cells, where there is one.
fn push_line_end(out: &mut TextBuilder, count: u32) -> Result<(), AllocError>
    ensures { OnOk result (out.new ≡ out.old ++ line_end count) }
{
    if count > 0 {
        out.push_newline()
    } else {
        Ok(())
    }
}

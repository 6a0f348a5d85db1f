//! What one line of an image sets.

ghost use Rattle.std.specs.Prelude.{◌≡◌, IfOk};
ghost use Rattle.kat_image.specs.Lines.{register_setting, cells_setting, placed, placed_in, said_by, setting_of};

use crate::numbers::{index_of_word, numbers_in};
use crate::unread::Unread;
use crate::value::value_in;
use kat_syntax::{Checked, Memory};
use kat_value::Value;
use sqlite_items::Items;
use std::alloc::{AllocError, Global};

/// What a line sets.
#[derive(Drop)]
pub enum Setting {
    /// A register, by its position.
    Register { at: u32, value: Value },
    /// The cells from one on, which is counted from the first of the memory.
    Cells { at: u64, numbers: Items<u64> },
}

/// What a line sets. `None` where it is of neither form.
pub(crate) fn setting_of(
    alloc: Global,
    machine: &Checked,
    line: &[u8],
) -> Result<Option<Setting>, AllocError>
    ensures { IfOk result (λ setting. setting ≡ setting_of machine.now line.now) }
{
    let mut unread = Unread::new(line);
    let Some(keyword) = unread.word() else {
        return Ok(None);
    };
    if !unread.byte(b' ') {
        return Ok(None);
    }
    said_by(alloc, machine, keyword, unread.rest)
}

/// What a line sets, by its first word and what stands behind it.
fn said_by(
    alloc: Global,
    machine: &Checked,
    keyword: &str,
    text: &[u8],
) -> Result<Option<Setting>, AllocError>
    ensures { IfOk result (λ setting. setting ≡ said_by machine.now keyword.now text.now) }
{
    if keyword == "reg" {
        register_setting(alloc, machine, text)
    } else if keyword == "cells" {
        cells_setting(alloc, machine, text)
    } else {
        Ok(None)
    }
}

/// `NAME VALUE`: a register and a value of its type.
fn register_setting(
    alloc: Global,
    machine: &Checked,
    text: &[u8],
) -> Result<Option<Setting>, AllocError>
    ensures { IfOk result (λ setting. setting ≡ register_setting machine.now text.now) }
{
    let mut unread = Unread::new(text);
    let Some(name) = unread.word() else {
        return Ok(None);
    };
    let Some(at) = machine.register_of_word(name) else {
        return Ok(None);
    };
    let Some(ty) = machine.register_types().get(at as usize) else {
        return Ok(None);
    };
    if !unread.byte(b' ') {
        return Ok(None);
    }
    match value_in(alloc, machine, *ty, unread.rest)? {
        Some(value) => Ok(Some(Setting::Register { at, value })),
        None => Ok(None),
    }
}

/// `INDEX HEX`: the cells from an index on, and their bytes.
fn cells_setting(
    alloc: Global,
    machine: &Checked,
    text: &[u8],
) -> Result<Option<Setting>, AllocError>
    ensures { IfOk result (λ setting. setting ≡ cells_setting machine.now text.now) }
{
    let mut unread = Unread::new(text);
    let Some(word) = unread.word() else {
        return Ok(None);
    };
    let Some(index) = index_of_word(word) else {
        return Ok(None);
    };
    if !unread.byte(b' ') {
        return Ok(None);
    }
    match numbers_in(alloc, machine.cell_width(), unread.rest)? {
        Some(numbers) => Ok(placed(machine, index, numbers)),
        None => Ok(None),
    }
}

/// Numbers for the cells from this index on, where the memory has them all.
fn placed(machine: &Checked, index: u64, numbers: Items<u64>) -> Option<Setting>
    ensures { result ≡ placed machine.now index numbers }
{
    match machine.memory() {
        Some(memory) => placed_in(memory, index, numbers),
        None => None,
    }
}

/// The same in this memory.
fn placed_in(memory: Memory, index: u64, numbers: Items<u64>) -> Option<Setting>
    ensures { result ≡ placed_in numbers index memory }
{
    let count = numbers.len() as u64;
    if memory.lo <= index && index <= memory.hi && count <= memory.hi - index {
        Some(Setting::Cells {
            at: index - memory.lo,
            numbers,
        })
    } else {
        None
    }
}

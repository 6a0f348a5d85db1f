//! The state of a machine.

ghost use Rattle.std.specs.Prelude.{◌≡◌, ◌<◌, Some, length, replicate, IfOk, IsSome, slice_get};
ghost use Rattle.kat_syntax.specs.OutsideWrites.{OneRegister, OneCell, poked, poked_at};
ghost use Rattle.kat_syntax.specs.Start.{start_of};
ghost use Rattle.kat_syntax.specs.States.{cell_at, with_cell, with_register};
ghost use Rattle.kat_state.specs.Poked.{IsPoked};

use crate::first_values::first_values;
use kat_syntax::{Checked, OutsidePlace, Poke};
use kat_value::{Value, Values, copy_value, copy_values, is_literal};
use sqlite_items::Items;
use std::alloc::{AllocError, Global};
use std::marker::Model;

/// A value for each register, in order of declaration, and a number for each cell of the memory,
/// from its first index on.
#[derive(Drop)]
pub struct State {
    registers: Values,
    lo: u64,
    cells: Items<u64>,
}

impl Model for State {
    ghost use Rattle.kat_syntax.specs.Machine.{MachineState};
    ghost use Rattle.kat_value.specs.contracts.value.Value as value;
    ghost use Rattle.std.specs.Coded.{codes};

    ghost Value = { MachineState };

    ghost coded = { Prim.hlevel (codes, value.the_row.coded) };

    ghost view = { λ s. record { registers = s.registers; lo = s.lo; cells = s.cells } };
}

/// Why an outside write was refused. The state is then as before.
#[derive(Clone, Copy, Debug, PartialEq, Eq, Drop)]
pub enum PokeError {
    /// There is no outside place of this ordinal, or the offset is past its end.
    NoPlace,
    /// The number is not one of the place's bits.
    NoFit,
}

impl State {
    /// The state from which an image starts: every register has the first value of its type, and
    /// every cell is 0. All cells are taken here.
    pub fn start(alloc: Global, checked: &Checked) -> Result<State, AllocError>
        ensures { IfOk result (λ state. state ≡ start_of checked.now) }
    {
        let registers = first_values(alloc, checked.types(), checked.register_types())?;
        match checked.memory() {
            Some(memory) => Ok(State {
                registers,
                lo: memory.lo,
                cells: zeros(alloc, memory.hi.saturating_sub(memory.lo))?,
            }),
            None => Ok(State {
                registers,
                lo: 0,
                cells: Items::new(alloc),
            }),
        }
    }

    /// An equal state in memory of its own.
    pub fn copy(&self, alloc: Global) -> Result<State, AllocError>
        ensures { IfOk result (λ state. state ≡ self.now) }
    {
        let cells = Items::from_slice(alloc, self.cells.as_slice())?;
        let registers = copy_values(alloc, self.registers.as_slice())?;
        Ok(State {
            registers,
            lo: self.lo,
            cells,
        })
    }

    /// The values of the registers, in order of declaration.
    pub fn registers(&self) -> &[Value]
        ensures { result.now ≡ self.now.registers }
    {
        self.registers.as_slice()
    }

    /// The value of the register at this position.
    pub fn reg(&self, r: u32) -> &Value
        requires { r < length self.now.registers }
        ensures { slice_get self.now.registers r ≡ Some result.now }
    {
        match self.registers.get(r as usize) {
            Some(value) => value,
            None => unreachable!(),
        }
    }

    /// Sets the register at this position.
    pub fn set_reg(&mut self, r: u32, value: Value)
        requires { r < length self.old.registers }
        ensures { self.new ≡ with_register r value self.old }
    {
        self.registers.set(r as usize, value);
    }

    /// The number in a cell; none exactly where the index is outside the memory.
    pub fn cell(&self, i: u64) -> Option<u64>
        ensures { result ≡ cell_at self.now i }
    {
        if self.lo <= i {
            self.cells.get((i - self.lo) as usize).copied()
        } else {
            None
        }
    }

    /// Sets a cell of the memory.
    pub fn set_cell(&mut self, i: u64, number: u64)
        requires { IsSome (cell_at self.old i) }
        ensures { self.new ≡ with_cell i number self.old }
    {
        let at = (i - self.lo) as usize;
        self.cells.set(at, number);
    }

    /// Writes a number from outside. It takes no memory.
    pub fn poke(&mut self, checked: &Checked, poke: Poke) -> Result<(), PokeError>
        ensures { IsPoked result (poked checked.now poke self.old) self.old self.new }
    {
        match checked.outside_place(poke.ordinal) {
            Some(OutsidePlace::Register { at, width }) if poke.offset == 0 => {
                self.poke_register(at, width, poke.bits)
            }
            Some(OutsidePlace::Cells { lo, hi }) if poke.offset < hi.saturating_sub(lo) => {
                self.poke_cell(lo + poke.offset, checked.cell_width(), poke.bits)
            }
            _ => Err(PokeError::NoPlace),
        }
    }

    /// Writes a number to the register at this position, where it is one of so many bits.
    fn poke_register(&mut self, at: u32, width: u64, bits: u64) -> Result<(), PokeError>
        ensures { IsPoked result (poked_at (Some (OneRegister at width)) bits self.old)
            self.old self.new }
    {
        if !is_literal(width, bits) {
            return Err(PokeError::NoFit);
        }
        if (at as usize) < self.registers.len() {
            let value = Value::Bits {
                width: width as u32,
                number: bits,
            };
            self.registers.set(at as usize, value);
        }
        Ok(())
    }

    /// Writes a number to a cell, where it is one of so many bits.
    fn poke_cell(&mut self, i: u64, width: u64, bits: u64) -> Result<(), PokeError>
        ensures { IsPoked result (poked_at (Some (OneCell i width)) bits self.old)
            self.old self.new }
    {
        if !is_literal(width, bits) {
            return Err(PokeError::NoFit);
        }
        if self.lo <= i && i - self.lo < self.cells.len() as u64 {
            self.cells.set((i - self.lo) as usize, bits);
        }
        Ok(())
    }
}

/// So many zeros.
fn zeros(alloc: Global, count: u64) -> Result<Items<u64>, AllocError>
    ensures { IfOk result (λ zeros. zeros ≡ replicate count 0) }
{
    Ok(Items::from_vec(vec![in alloc; 0; count as usize]?))
}

//! The image of a machine: the values that its registers and cells have at the start.

ghost use Rattle.std.specs.Prelude.{◌≡◌, ◌≢◌, ◌≤◌, ◌<◌, ◌+◌, ℕ, List, [], ◌∷◌, false, true, replicate, length, slice_get, Some, IfOk, IfErr, IsTrue, IsFalse};
ghost use Rattle.kat_ast.specs.Spec.{Spec};
ghost use Rattle.kat_syntax.specs.Machine.{MachineState};
ghost use Rattle.kat_syntax.specs.Start.{start_of};
ghost use Rattle.kat_image.specs.Image.{Line, IsImageOf, IsFirstRefused};
ghost use Rattle.kat_image.specs.ImageError.{IsFault, Gives, Names};
ghost use Rattle.kat_image.specs.Reader.{HasRoom, IsReadTo, IsSetFree, IsTaken, IsWithin, Takes, with_cells, with_register};
ghost use Rattle.kat_image.specs.declared.fault.ImageError.{ImageError};

use crate::fault::ImageError;
use crate::line::first_line;
use crate::setting::{Setting, setting_of};
use kat_state::State;
use kat_syntax::Checked;
use kat_value::Value;
use sqlite_items::Items;
use std::alloc::{AllocError, Global};

/// The state that an image stands for: its lines set registers and cells, and what they do not name
/// is as in `State::start`. `Line` comes exactly where the bytes are no image of the machine, and
/// names the first line that is not of the format.
pub fn read_image(alloc: Global, bytes: &[u8], machine: &Checked) -> Result<State, ImageError>
    // What is read is what the bytes are an image of.
    ensures found { IfOk result (IsImageOf machine.now bytes.now) }
    // A state that the bytes are an image of is the answer, unless memory runs out.
    ensures only { (state : MachineState) →
        IsImageOf machine.now bytes.now state → Gives result state }
    // A fault names the first line that is not of the format.
    ensures line { IfErr result (IsFault machine.now bytes.now) }
    // The first line that is not of the format is named, unless memory runs out.
    ensures first { (number : ℕ) →
        IsFirstRefused machine.now bytes.now number → Names result number }
    // What is refused is the image of no state.
    ensures refused { IfErr result (λ e. e ≢ ImageError.Memory →
        (state : MachineState) → IsImageOf machine.now bytes.now state → ⊥) }
{
    let mut image = Image::start(alloc, machine)?;
    let mut rest = bytes;
    let mut number: u64 = 1;
    loop {
        let (line, behind) = first_line(rest);
        let taken = image.take(alloc, machine, line)?;
        if !taken {
            return Err(ImageError::Line(number));
        }
        let Some(more) = behind else {
            let Image { state, .. } = image;
            return Ok(state);
        };
        rest = more;
        number += 1;
    }
}

/// The reading of an image, up to one of its lines.
#[derive(Drop)]
struct Image {
    state: State,
    /// The first index of the memory.
    lo: u64,
    /// Which registers a line has set.
    registers_set: Items<bool>,
    /// Which cells a line has set, from the first of the memory on.
    cells_set: Items<bool>,
}

impl Image {
    /// Before the first line.
    fn start(alloc: Global, machine: &Checked) -> Result<Image, AllocError>
        ensures state { IfOk result (λ image. image.state ≡ start_of machine.now) }
        ensures registers { let count = length (start_of machine.now).registers in
            IfOk result (λ image. image.registers_set ≡ replicate count false) }
        ensures cells { let count = length (start_of machine.now).cells in
            IfOk result (λ image. image.cells_set ≡ replicate count false) }
        ensures room { IfOk result (HasRoom machine.now) }
    {
        let state = State::start(alloc, machine)?;
        let registers_set = Items::from_vec(vec![in alloc; false; state.registers().len()]?);
        let (lo, count) = match machine.memory() {
            Some(memory) => (memory.lo, memory.hi.saturating_sub(memory.lo)),
            None => (0, 0),
        };
        let cells_set = Items::from_vec(vec![in alloc; false; count as usize]?);
        Ok(Image {
            state,
            lo,
            registers_set,
            cells_set,
        })
    }

    /// Takes a line, if it may stand behind those before it.
    fn take(&mut self, alloc: Global, machine: &Checked, line: &[u8]) -> Result<bool, AllocError>
        requires { HasRoom machine.now self.old }
        ensures taken { (lines : List Line) → IsReadTo machine.now lines self.old →
            IfOk result (λ taken. Takes machine.now lines line.now taken self.new) }
        ensures room { IfOk result (λ taken. HasRoom machine.now self.new) }
    {
        if line.is_empty() {
            return Ok(true);
        }
        match setting_of(alloc, machine, line)? {
            None => Ok(false),
            Some(setting) => Ok(self.set(setting)),
        }
    }

    /// Sets what no line before has set; where one has, it sets nothing.
    fn set(&mut self, setting: Setting) -> bool
        requires within { IsWithin self.old setting }
        requires room { (spec : Spec) × HasRoom spec self.old }
        ensures set { IsTrue result → (spec : Spec) → IsSetFree spec self.old setting self.new }
        ensures taken { IsFalse result → (spec : Spec) → IsTaken spec self.old setting }
        ensures kept { IsFalse result → self.new ≡ self.old }
    {
        match setting {
            Setting::Register { at, value } => self.set_register(at, value),
            Setting::Cells { at, numbers } => self.set_cells(at, numbers.as_slice()),
        }
    }

    /// Sets a register that no line before has set.
    fn set_register(&mut self, at: u32, value: Value) -> bool
        requires within { at < length self.old.registers_set }
        requires room { (spec : Spec) × HasRoom spec self.old }
        ensures free { IsTrue result → slice_get self.old.registers_set at ≡ Some false }
        ensures set { IsTrue result → self.new ≡ with_register self.old at value }
        ensures taken { IsFalse result → slice_get self.old.registers_set at ≡ Some true }
        ensures kept { IsFalse result → self.new ≡ self.old }
    {
        if self.registers_set.as_slice()[at as usize] {
            return false;
        }
        self.state.set_reg(at, value);
        self.registers_set.set(at as usize, true);
        true
    }

    /// Sets cells of which no line before has set one.
    fn set_cells(&mut self, at: u64, numbers: &[u64]) -> bool
        requires within { at + length numbers.now ≤ length self.old.cells_set }
        requires room { (spec : Spec) × HasRoom spec self.old }
        ensures free { IsTrue result → (k : ℕ) → k < length numbers.now →
            slice_get self.old.cells_set (at + k) ≡ Some false }
        ensures set { IsTrue result → self.new ≡ with_cells self.old at numbers.now }
        ensures taken { IsFalse result → (k : ℕ) × (k < length numbers.now)
            × (slice_get self.old.cells_set (at + k) ≡ Some true) }
        ensures kept { IsFalse result → self.new ≡ self.old }
    {
        if !self.are_free(at as usize, numbers.len()) {
            return false;
        }
        self.put_cells(at, numbers);
        true
    }

    /// Whether no line has set one of so many cells from this one on.
    fn are_free(&self, at: usize, count: usize) -> bool
        requires { at + count ≤ length self.now.cells_set }
        ensures free { IsTrue result → (k : ℕ) → k < count →
            slice_get self.now.cells_set (at + k) ≡ Some false }
        ensures taken { IsFalse result →
            (k : ℕ) × (k < count) × (slice_get self.now.cells_set (at + k) ≡ Some true) }
    {
        for k in 0..count {
            if self.cells_set.as_slice()[at + k] {
                return false;
            }
        }
        true
    }

    /// Sets the cells from this one on.
    fn put_cells(&mut self, at: u64, numbers: &[u64])
        requires within { at + length numbers.now ≤ length self.old.cells_set }
        requires room { (spec : Spec) × HasRoom spec self.old }
        ensures { self.new ≡ with_cells self.old at numbers.now }
    {
        for (k, number) in numbers.iter().enumerate() {
            self.put_cell(at + k as u64, *number);
        }
    }

    /// Sets a cell.
    fn put_cell(&mut self, at: u64, number: u64)
        requires within { at < length self.old.cells_set }
        requires room { (spec : Spec) × HasRoom spec self.old }
        ensures { self.new ≡ with_cells self.old at (number ∷ []) }
    {
        self.state.set_cell(self.lo + at, number);
        self.cells_set.set(at as usize, true);
    }
}

//! What is written: a text with its status.

ghost use Rattle.std.specs.Prelude.{◌≡◌, IfOk};
ghost use Rattle.kat_top.specs.Answers.{Gives, IsPlain, answer_of_error, answer_of_fault};
ghost use Rattle.kat_top.specs.Jobs.{check_answer, print_answer, typed_text};

use crate::fault::{Fault, fault_text};
use crate::inputs::InputError;
use crate::status::Status;
use kat_io::{Sink, SinkError};
use kat_print::print_spec;
use kat_syntax::Spec;
use kat_text::{Text, TextBuilder};
use std::alloc::{AllocError, Global};

/// Says why an input was not taken, with the status of that.
pub fn refuse<K: Sink>(alloc: Global, out: &mut K, error: InputError) -> Status
    ensures { Gives (answer_of_error error) result (K.seen out.old) (K.seen out.new) }
{
    match error {
        InputError::Fault(fault) => say_fault(alloc, out, &fault),
        InputError::Memory => Status::Memory,
    }
}

/// Writes the line of a fault, with the status of it.
pub fn say_fault<K: Sink>(alloc: Global, out: &mut K, fault: &Fault) -> Status
    ensures { Gives (answer_of_fault fault.now) result (K.seen out.old) (K.seen out.new) }
{
    match fault_text(alloc, fault) {
        Ok(line) => say(out, line.as_bytes(), Status::of_fault(fault)),
        Err(_) => Status::Memory,
    }
}

/// Writes that a specification is typed and moded.
pub fn say_typed<K: Sink>(alloc: Global, out: &mut K, spec: &Spec) -> Status
    ensures { Gives (check_answer spec.now) result (K.seen out.old) (K.seen out.new) }
{
    match typed_text(alloc, spec) {
        Ok(line) => say(out, line.as_bytes(), Status::Ok),
        Err(_) => Status::Memory,
    }
}

/// `typed declarations N`, in a line.
fn typed_text(alloc: Global, spec: &Spec) -> Result<Text, AllocError>
    ensures { IfOk result (λ text. text ≡ typed_text spec.now) }
{
    let mut line = TextBuilder::new(alloc);
    line.push_text("typed declarations")?;
    line.push_decimal_part(spec.decls().len() as u64)?;
    line.push_newline()?;
    Ok(line.into_text())
}

/// Writes the canonical text of a specification.
pub fn say_canonical<K: Sink>(alloc: Global, out: &mut K, spec: &Spec) -> Status
    ensures { Gives (print_answer spec.now) result (K.seen out.old) (K.seen out.new) }
{
    match print_spec(alloc, spec) {
        Ok(text) => say(out, text.as_bytes(), Status::Ok),
        Err(_) => Status::Memory,
    }
}

/// Writes a text, and ends with this status where it was written whole.
fn say<K: Sink>(out: &mut K, text: &[u8], status: Status) -> Status
    requires { IsPlain status }
    ensures { Gives (record { status = status; text = text.now })
        result (K.seen out.old) (K.seen out.new) }
{
    match out.write_all(text) {
        Ok(()) => status,
        Err(SinkError::Failed) => Status::WriteFault,
        Err(SinkError::Memory) => Status::Memory,
    }
}

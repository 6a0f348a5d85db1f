//! Values printed, and specifications judged by their modes.

use crate::machine::machine_of;
use kat_mode::{ModeError, check_modes};
use kat_print::print_value;
use kat_syntax::Checked;
use kat_value::Value;
use sqlite_items::{Boxed, Items};
use std::alloc::{AllocError, Global};
use std::test::Fail;

/// A machine with an enum, a record and a union.
const TYPES: &str = "(spec 1 (enum Mode (Kernel User)) (record P ((m Mode) (b (bits 12)))) \
    (union U ((N unit) (V (bits 12)) (Q P))) (fun f () unit (ret unit)) (step f) \
    (dispatch (else (block k))) (untrusted (star)) \
    (block k (entry (star)) (within 1) (change true)) (boot k))";

/// A machine whose predicate says what its output is.
const MODED: &str = "(spec 1 (register r (bits 8) plain) \
    (pred D ((p (bits 8))) ((x (bits 8))) (reg r x)) (fun f () unit (ret unit)) (step f) \
    (dispatch (else (block k))) (untrusted (star)) \
    (block k (entry (star)) (within 1) (change true)) (boot k))";

/// The same whose predicate leaves its output open.
const UNMODED: &str = "(spec 1 (register r (bits 8) plain) \
    (pred D ((p (bits 8))) ((x (bits 8))) (reg r p)) (fun f () unit (ret unit)) (step f) \
    (dispatch (else (block k))) (untrusted (star)) \
    (block k (entry (star)) (within 1) (change true)) (boot k))";

/// A number of so many bits.
fn bits(width: u32, number: u64) -> Value {
    Value::Bits { width, number }
}

/// A record of a mode and a number.
fn pair(alloc: Global, index: u32, number: u64) -> Result<Value, AllocError> {
    let mut fields = Items::new(alloc);
    fields.push(Value::Member { of: 0, index })?;
    fields.push(bits(12, number))?;
    Ok(Value::Rec { of: 1, fields })
}

/// A constructor of the union with its payload.
fn made(alloc: Global, ctor: u32, payload: Value) -> Result<Value, AllocError> {
    Ok(Value::Made {
        of: 2,
        ctor,
        inner: Boxed::new(alloc, payload)?,
    })
}

/// A value of each kind that has no declared type, with its text.
fn plain_values(alloc: Global) -> Result<Vec<(Value, &'static str)>, AllocError> {
    let mut values = Vec::new(alloc);
    values.push((Value::Unit, "unit"))?;
    values.push((Value::Bool(true), "true"))?;
    values.push((Value::Bool(false), "false"))?;
    values.push((bits(1, 1), "0x1"))?;
    values.push((bits(13, 171), "0x00ab"))?;
    values.push((bits(64, 18_446_744_073_709_551_615), "0xffffffffffffffff"))?;
    Ok(values)
}

/// A value of each kind of declared type, with its text.
fn declared_values(alloc: Global) -> Result<Vec<(Value, &'static str)>, AllocError> {
    let mut values = Vec::new(alloc);
    values.push((Value::Member { of: 0, index: 1 }, "User"))?;
    values.push((pair(alloc, 0, 4_095)?, "(P Kernel 0xfff)"))?;
    values.push((made(alloc, 0, Value::Unit)?, "(N unit)"))?;
    values.push((made(alloc, 2, pair(alloc, 1, 9)?)?, "(Q (P User 0x009))"))?;
    Ok(values)
}

/// Whether each of these values has its text.
fn are_printed(
    alloc: Global,
    machine: &Checked,
    values: &[(Value, &'static str)],
) -> Result<bool, AllocError> {
    for (value, text) in values {
        if print_value(alloc, machine.types(), value)?.as_str() != *text {
            return Ok(false);
        }
    }
    Ok(true)
}

/// Whether each of these values has its text, of the machine with declared types.
fn prints_values(alloc: Global, values: &[(Value, &'static str)]) -> Result<bool, AllocError> {
    match machine_of(alloc, TYPES) {
        Some(machine) => are_printed(alloc, &machine, values),
        None => Ok(false),
    }
}

/// Whether a specification is typed and moded.
fn is_moded(alloc: Global, text: &str) -> bool {
    match machine_of(alloc, text) {
        Some(machine) => check_modes(alloc, machine).is_ok(),
        None => false,
    }
}

/// Whether the first fault of modes of a machine is this name in this declaration.
fn leaves_unbound(alloc: Global, machine: Checked, number: u32, word: &str) -> bool {
    match check_modes(alloc, machine) {
        Err(ModeError::Unbound { decl, name }) => decl == number && name.as_str() == word,
        _ => false,
    }
}

/// Whether the first fault of modes of the machine of a text is this name in this declaration.
fn is_unbound(alloc: Global, text: &str, number: u32, word: &str) -> bool {
    match machine_of(alloc, text) {
        Some(machine) => leaves_unbound(alloc, machine, number, word),
        None => false,
    }
}

#[test]
fn values_are_printed(rt: HostRuntime) -> Result<(), Fail> {
    let plain = plain_values(rt.alloc())?;
    let prints_plain = prints_values(rt.alloc(), plain.as_slice())?;
    assert!(rt; prints_plain);
    let declared = declared_values(rt.alloc())?;
    let prints_declared = prints_values(rt.alloc(), declared.as_slice())?;
    assert!(rt; prints_declared);
    Ok(())
}

#[test]
fn modes_are_judged(rt: HostRuntime) {
    let moded = is_moded(rt.alloc(), MODED);
    assert!(rt; moded);
    let unbound = is_unbound(rt.alloc(), UNMODED, 1, "x");
    assert!(rt; unbound);
}

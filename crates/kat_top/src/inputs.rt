//! The inputs of a job: each is asked for by one read, and then judged by its bytes and by what was
//! read before it.

ghost use Rattle.std.specs.Prelude.{◌≡◌, ◌≤◌, length, IfOk, List, Some};
ghost use Rattle.kat_top.specs.declared.fault.Fault.TheVariants as fault;
ghost use Rattle.kat_syntax.specs.FirstTypeFault.{IsTyped};
ghost use Rattle.kat_top.specs.Inputs.{Thing, ASpec, AModed, AnImage, IsTypedAndModed, TheSpec, TheModed, TheState, machine_of};
ghost use Rattle.kat_top.specs.Limits.{most_bytes};
ghost use Rattle.kat_top.specs.Jobs.{input};
ghost use Rattle.kat_top.specs.Loading.{IsFaultOrMemory, IsJudged, IsThisOrMemory, ComesOf, Loads, LoadsBytes, error_of_form, error_of_tree, items_of, as_thing};

use crate::fault::{Fault, TreeKind};
use kat_forms::{FormError, read_spec};
use kat_image::{ImageError, read_image};
use kat_io::{Files, ReadError};
use kat_mode::{ModeFault, first_mode_fault};
use kat_state::State;
use kat_syntax::{Checked, Moded, Spec, first_faults_are_least};
use kat_text::Text;
use kat_tree::{TreeError, places, read_tree, spelled_is_writable, trees_fit_their_text};
use kat_typing::{TypeFault, first_type_fault};
use std::alloc::Global;

/// How many bytes of a file are read.
pub const MOST_BYTES: u64 = 4_194_304;

/// Why an input of a job was not taken.
#[derive(Debug, Drop)]
pub enum InputError {
    /// This is said of it.
    Fault(Fault),
    /// Memory ran out.
    Memory,
}

/// The specification that a file stands for.
pub fn load_spec<F: Files>(alloc: Global, files: &mut F, name: &str) -> Result<Spec, InputError>
    ensures { (earlier : List Thing) →
        Loads earlier (input ASpec name.now) (as_thing TheSpec result)
        (F.seen files.old) (F.seen files.new) }
{
    match load(alloc, files, name) {
        Ok(bytes) => spec_of(alloc, bytes.as_slice()),
        Err(error) => Err(error),
    }
}

/// The typed and moded specification that a file stands for, as it is judged: its tables, which a
/// run alone asks, are not made.
pub fn load_judged<F: Files>(alloc: Global, files: &mut F, name: &str) -> Result<Spec, InputError>
    ensures { (earlier : List Thing) →
        Loads earlier (input AModed name.now) (as_thing TheModed result)
        (F.seen files.old) (F.seen files.new) }
{
    match load(alloc, files, name) {
        Ok(bytes) => judged_of_text(alloc, bytes.as_slice()),
        Err(error) => Err(error),
    }
}

/// The typed and moded specification, or machine, that a file stands for, with its tables.
pub fn load_moded<F: Files>(alloc: Global, files: &mut F, name: &str) -> Result<Moded, InputError>
    ensures { (earlier : List Thing) →
        Loads earlier (input AModed name.now) (as_thing TheModed result)
        (F.seen files.old) (F.seen files.new) }
{
    match load(alloc, files, name) {
        Ok(bytes) => moded_of_text(alloc, bytes.as_slice()),
        Err(error) => Err(error),
    }
}

/// The state that a file is an image of.
pub fn load_image<F: Files>(
    alloc: Global,
    files: &mut F,
    name: &str,
    machine: &Moded,
) -> Result<State, InputError>
    ensures { (earlier : List Thing) → machine_of earlier ≡ Some machine.now →
        Loads earlier (input AnImage name.now) (as_thing TheState result)
        (F.seen files.old) (F.seen files.new) }
{
    match load(alloc, files, name) {
        Ok(bytes) => start_of(alloc, bytes.as_slice(), machine),
        Err(error) => Err(error),
    }
}

/// The bytes of a file, by one read.
fn load<F: Files>(alloc: Global, files: &mut F, name: &str) -> Result<Vec<u8>, InputError>
    ensures { LoadsBytes name.now (items_of result) (F.seen files.old) (F.seen files.new) }
{
    let mut bytes = Vec::new(alloc);
    match files.read(name, MOST_BYTES, &mut bytes) {
        Ok(()) => Ok(bytes),
        Err(ReadError::Failed) => Err(read_fault(alloc, name)),
        Err(ReadError::TooLong(taken)) => Err(long_fault(alloc, name, taken)),
        Err(ReadError::Memory) => Err(InputError::Memory),
    }
}

/// The file of this name could not be read.
fn read_fault(alloc: Global, name: &str) -> InputError
    ensures { IsFaultOrMemory (fault.Read name.now) result }
{
    match Text::new(alloc, name) {
        Ok(name) => InputError::Fault(Fault::Read { name }),
        Err(_) => InputError::Memory,
    }
}

/// The file of this name is too long.
fn long_fault(alloc: Global, name: &str, taken: u64) -> InputError
    ensures { IsFaultOrMemory (fault.Long name.now taken) result }
{
    match Text::new(alloc, name) {
        Ok(name) => InputError::Fault(Fault::Long { name, taken }),
        Err(_) => InputError::Memory,
    }
}

/// What a text is read as that is to be a specification.
fn spec_of(alloc: Global, text: &[u8]) -> Result<Spec, InputError>
    requires { length text.now ≤ most_bytes }
    ensures { (earlier : List Thing) → ComesOf earlier ASpec text.now (as_thing TheSpec result) }
{
    match read_tree(alloc, text) {
        Ok(tree) => {
            trees_fit_their_text();
            spelled_is_writable();
            places();
            match read_spec(alloc, &tree) {
                Ok(spec) => Ok(spec),
                Err(error) => Err(InputError::of_form(error)),
            }
        }
        Err(error) => Err(InputError::of_tree(error)),
    }
}

/// What a text is read as that is to be a typed and moded specification with its tables.
fn moded_of_text(alloc: Global, text: &[u8]) -> Result<Moded, InputError>
    requires { length text.now ≤ most_bytes }
    ensures { (earlier : List Thing) →
        ComesOf earlier AModed text.now (as_thing TheModed result) }
{
    match judged_of_text(alloc, text) {
        Ok(spec) => with_tables(alloc, spec),
        Err(error) => Err(error),
    }
}

/// A typed and moded specification with its tables; the error is want of memory.
fn with_tables(alloc: Global, spec: Spec) -> Result<Moded, InputError>
    requires { IsTypedAndModed spec }
    ensures { IsThisOrMemory spec result }
{
    match Checked::new(alloc, spec) {
        Ok(checked) => Ok(Moded::new(checked)),
        Err(_) => Err(InputError::Memory),
    }
}

/// What a text is read as that is to be a typed and moded specification.
fn judged_of_text(alloc: Global, text: &[u8]) -> Result<Spec, InputError>
    requires { length text.now ≤ most_bytes }
    ensures comes { (earlier : List Thing) →
        ComesOf earlier AModed text.now (as_thing TheModed result) }
    ensures passes { IfOk result IsTypedAndModed }
{
    match spec_of(alloc, text) {
        Ok(spec) => match judge_types(alloc, &spec) {
            Ok(()) => Ok(spec),
            Err(error) => Err(error),
        },
        Err(error) => Err(error),
    }
}

/// Judges a specification that is to be typed and moded; the error is its first fault.
fn judge_types(alloc: Global, spec: &Spec) -> Result<(), InputError>
    ensures { IsJudged spec.now result }
{
    first_faults_are_least();
    match first_type_fault(alloc, spec) {
        Ok(None) => judge_modes(alloc, spec),
        Ok(Some(TypeFault { decl, tree, rule })) => {
            Err(InputError::Fault(Fault::IllTyped { decl, tree, rule }))
        }
        Err(_) => Err(InputError::Memory),
    }
}

/// Judges a typed specification that is to be moded too; the error is its first fault.
fn judge_modes(alloc: Global, spec: &Spec) -> Result<(), InputError>
    requires { IsTyped spec.now }
    ensures { IsJudged spec.now result }
{
    match first_mode_fault(alloc, spec) {
        Ok(None) => Ok(()),
        Ok(Some(ModeFault { decl, name })) => {
            Err(InputError::Fault(Fault::IllModed { decl, name }))
        }
        Err(_) => Err(InputError::Memory),
    }
}

/// What a text is read as that is to be an image of a machine.
fn start_of(alloc: Global, text: &[u8], machine: &Moded) -> Result<State, InputError>
    ensures { (earlier : List Thing) → machine_of earlier ≡ Some machine.now →
        ComesOf earlier AnImage text.now (as_thing TheState result) }
{
    match read_image(alloc, text, machine.checked()) {
        Ok(state) => Ok(state),
        Err(ImageError::Line(number)) => Err(InputError::Fault(Fault::Image(number))),
        Err(ImageError::Memory) => Err(InputError::Memory),
    }
}

impl InputError {
    /// Of a text that is no tree.
    fn of_tree(error: TreeError) -> InputError
        ensures { result ≡ error_of_tree error }
    {
        let (kind, offset) = match error {
            TreeError::NotText(at) => (TreeKind::NotText, at),
            TreeError::Unclosed(at) => (TreeKind::Unclosed, at),
            TreeError::Stray(at) => (TreeKind::Stray, at),
            TreeError::BadToken(at) => (TreeKind::BadToken, at),
            TreeError::Deep(at) => (TreeKind::Deep, at),
            TreeError::Memory => return InputError::Memory,
        };
        InputError::Fault(Fault::Tree { kind, offset })
    }

    /// Of a tree that is no specification.
    fn of_form(error: FormError) -> InputError
        ensures { result ≡ error_of_form error }
    {
        match error {
            FormError::Wanted { place, wanted } => InputError::Fault(Fault::Form { place, wanted }),
            FormError::Memory => InputError::Memory,
        }
    }
}

//! The value of a register, read by the register's type.

ghost use Rattle.std.specs.Prelude.{◌≡◌, IfOk, []};
ghost use Rattle.std.specs.Option.{option_copied};
ghost use Rattle.kat_value.specs.Typing.{ctor_at};
ghost use Rattle.kat_value.specs.declared.types.Ty.TheVariants as ty;
ghost use Rattle.kat_syntax.specs.TypeTable.{types_of_decls};
ghost use Rattle.kat_image.specs.Lines.{value_in, whole_value};
ghost use Rattle.kat_image.specs.Words.{IsReadAs};
ghost use Rattle.kat_image.specs.ValueText.{value_of_word, word_value, value_front, payload_front, made_front, record_front, fields_front, closed_front, ctor_of, is_name_of};

use crate::numbers::number_of;
use crate::unread::Unread;
use kat_syntax::Checked;
use kat_text::Text;
use kat_value::{Field, Ty, TypeDecl, Types, Value, Values, fits, is_number};
use sqlite_items::{Boxed, Items};
use std::alloc::{AllocError, Global};

/// The value that a text is of this type, with nothing behind it.
pub(crate) fn value_in(
    alloc: Global,
    machine: &Checked,
    ty: Ty,
    text: &[u8],
) -> Result<Option<Value>, AllocError>
    ensures { IfOk result (λ value.
        value ≡ value_in (types_of_decls machine.now.decls) ty text.now) }
{
    let mut unread = Unread::new(text);
    let levels = machine.types().as_slice().len() + 1;
    let Some(value) = value_front(alloc, &mut unread, machine, levels, ty)? else {
        return Ok(None);
    };
    Ok(whole_value(machine.types(), ty, value, unread.rest))
}

/// A value of this type, where nothing stands behind it.
fn whole_value(types: &Types, ty: Ty, value: Value, rest: &[u8]) -> Option<Value>
    ensures { result ≡ whole_value types.now ty (value, rest.now) }
{
    if !rest.is_empty() {
        return None;
    }
    if fits(types, &ty, &value) {
        Some(value)
    } else {
        None
    }
}

/// A value of a type, of so many types in one another.
#[cycle(value)]
fn value_front(
    alloc: Global,
    unread: &mut Unread,
    machine: &Checked,
    levels: usize,
    ty: Ty,
) -> Result<Option<Value>, AllocError>
    ensures { IsReadAs result unread.new.rest.now
        (value_front levels (types_of_decls machine.now.decls) ty unread.old.rest.now) }
{
    let Some(below) = levels.checked_sub(1) else {
        return Ok(None);
    };
    match ty {
        Ty::Unit => word_value(alloc, unread, machine, ty),
        Ty::Bool => word_value(alloc, unread, machine, ty),
        Ty::Bits(_) => word_value(alloc, unread, machine, ty),
        Ty::Enum(_) => word_value(alloc, unread, machine, ty),
        Ty::Union(of) => made_front(alloc, unread, machine, below, of),
        Ty::Rec(of) => record_front(alloc, unread, machine, below, of),
    }
}

/// A constructor of the union at this position, with its payload.
#[cycle(value)]
fn made_front(
    alloc: Global,
    unread: &mut Unread,
    machine: &Checked,
    below: usize,
    of: u32,
) -> Result<Option<Value>, AllocError>
    ensures { let types = types_of_decls machine.now.decls in
        IsReadAs result unread.new.rest.now
        (made_front (value_front below types) types of unread.old.rest.now) }
{
    let Some(name) = unread.head() else {
        return Ok(None);
    };
    let Some(ctor) = ctor_of(alloc, machine, of, name)? else {
        return Ok(None);
    };
    let Some(field) = ctor_at(machine.types(), of, ctor) else {
        return Ok(None);
    };
    match payload_front(alloc, unread, machine, below, field.ty)? {
        Some(payload) => Ok(Some(Value::Made {
            of,
            ctor,
            inner: Boxed::new(alloc, payload)?,
        })),
        None => Ok(None),
    }
}

/// A value behind a space, and a closing bracket.
#[cycle(value)]
fn payload_front(
    alloc: Global,
    unread: &mut Unread,
    machine: &Checked,
    below: usize,
    ty: Ty,
) -> Result<Option<Value>, AllocError>
    ensures { IsReadAs result unread.new.rest.now
        (payload_front (value_front below (types_of_decls machine.now.decls)) ty
        unread.old.rest.now) }
{
    if !unread.byte(b' ') {
        return Ok(None);
    }
    let Some(value) = value_front(alloc, unread, machine, below, ty)? else {
        return Ok(None);
    };
    if unread.byte(b')') {
        Ok(Some(value))
    } else {
        Ok(None)
    }
}

/// A record at this position, with its fields.
#[cycle(value)]
fn record_front(
    alloc: Global,
    unread: &mut Unread,
    machine: &Checked,
    below: usize,
    of: u32,
) -> Result<Option<Value>, AllocError>
    ensures { let types = types_of_decls machine.now.decls in
        IsReadAs result unread.new.rest.now
        (record_front (value_front below types) types of unread.old.rest.now) }
{
    let Some(name) = unread.head() else {
        return Ok(None);
    };
    if !is_name_of(alloc, machine, of, name)? {
        return Ok(None);
    }
    let Some(TypeDecl::Rec { fields, .. }) = machine.types().get(of as usize) else {
        return Ok(None);
    };
    match closed_front(alloc, unread, machine, below, fields.as_slice())? {
        Some(fields) => Ok(Some(Value::Rec { of, fields })),
        None => Ok(None),
    }
}

/// Values of fields, each behind a space, and a closing bracket.
#[cycle(value)]
fn closed_front(
    alloc: Global,
    unread: &mut Unread,
    machine: &Checked,
    below: usize,
    fields: &[Field],
) -> Result<Option<Values>, AllocError>
    ensures { IsReadAs result unread.new.rest.now
        (closed_front (value_front below (types_of_decls machine.now.decls)) fields.now
        unread.old.rest.now) }
{
    let Some(values) = fields_front(alloc, unread, machine, below, fields)? else {
        return Ok(None);
    };
    if unread.byte(b')') {
        Ok(Some(values))
    } else {
        Ok(None)
    }
}

/// Values of fields, each behind a space.
#[cycle(value)]
fn fields_front(
    alloc: Global,
    unread: &mut Unread,
    machine: &Checked,
    below: usize,
    fields: &[Field],
) -> Result<Option<Values>, AllocError>
    ensures { IsReadAs result unread.new.rest.now
        (fields_front (value_front below (types_of_decls machine.now.decls)) fields.now
        unread.old.rest.now) }
{
    let mut values = Items::new(alloc);
    for field in fields {
        if !unread.byte(b' ') {
            return Ok(None);
        }
        let Some(value) = value_front(alloc, unread, machine, below, field.ty)? else {
            return Ok(None);
        };
        values.push(value)?;
    }
    Ok(Some(values))
}

/// A value that is one word.
fn word_value(
    alloc: Global,
    unread: &mut Unread,
    machine: &Checked,
    ty: Ty,
) -> Result<Option<Value>, AllocError>
    ensures { IsReadAs result unread.new.rest.now
        (word_value (types_of_decls machine.now.decls) ty unread.old.rest.now) }
{
    let Some(word) = unread.word() else {
        return Ok(None);
    };
    value_of_word(alloc, machine, ty, word)
}

/// The value that one word is of a type without parts.
fn value_of_word(
    alloc: Global,
    machine: &Checked,
    ty: Ty,
    word: &str,
) -> Result<Option<Value>, AllocError>
    ensures { IfOk result (λ value.
        value ≡ value_of_word (types_of_decls machine.now.decls) ty word.now) }
{
    match ty {
        Ty::Unit if word == "unit" => Ok(Some(Value::Unit)),
        Ty::Bool => Ok(truth_of_word(word)),
        Ty::Bits(width) => Ok(bits_of_word(width, word)),
        Ty::Enum(of) => {
            let name = Text::new(alloc, word)?;
            match machine.member(of, &name) {
                Some(index) => Ok(Some(Value::Member { of, index })),
                None => Ok(None),
            }
        }
        _ => Ok(None),
    }
}

/// `true` or `false`.
fn truth_of_word(word: &str) -> Option<Value>
    ensures { result ≡ value_of_word [] ty.Bool word.now }
{
    match word {
        "true" => Some(Value::Bool(true)),
        "false" => Some(Value::Bool(false)),
        _ => None,
    }
}

/// A number of so many bits.
fn bits_of_word(width: u32, word: &str) -> Option<Value>
    ensures { result ≡ value_of_word [] (ty.Bits width) word.now }
{
    let number = number_of(word)?;
    if is_number(width, number) {
        Some(Value::Bits { width, number })
    } else {
        None
    }
}

/// The place of the constructor of this name, where it is one of the union at this position.
fn ctor_of(alloc: Global, machine: &Checked, of: u32, name: &str) -> Result<Option<u32>, AllocError>
    ensures { IfOk result (λ ctor.
        ctor ≡ ctor_of (types_of_decls machine.now.decls) of name.now) }
{
    let name = Text::new(alloc, name)?;
    match machine.ctor(&name) {
        Some(place) if place.of == of => Ok(Some(place.ctor)),
        _ => Ok(None),
    }
}

/// Whether this is the name of the type at this position.
fn is_name_of(alloc: Global, machine: &Checked, of: u32, name: &str) -> Result<bool, AllocError>
    ensures { IfOk result (λ is. is ≡ is_name_of (types_of_decls machine.now.decls) of name.now) }
{
    let name = Text::new(alloc, name)?;
    match machine.type_position(&name) {
        Some(at) => Ok(at == of),
        None => Ok(false),
    }
}

/// A constructor of the union at this position.
fn ctor_at(types: &Types, of: u32, ctor: u32) -> Option<&Field>
    ensures { option_copied result ≡ ctor_at types.now of ctor }
{
    match types.get(of as usize) {
        Some(TypeDecl::Union { ctors, .. }) => ctors.get(ctor as usize),
        _ => None,
    }
}

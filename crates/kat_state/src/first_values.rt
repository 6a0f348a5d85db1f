//! The first value of each type.

ghost use Rattle.std.specs.Prelude.{◌≡◌, ◌<◌, ◌^◌, ◌==◌, ℕ, List, [], length, map, IfOk, None, Some, if◌then◌else◌};
ghost use Rattle.kat_value.specs.declared.types.Field.{Field as FieldSeen};
ghost use Rattle.kat_value.specs.declared.types.TypeDecl.TheVariants.{Union};
ghost use Rattle.kat_value.specs.declared.value.Value.TheVariants.{Member};
ghost use Rattle.kat_value.specs.Making.{all_there};
ghost use Rattle.kat_syntax.specs.FirstValues.{first_by, first_of_decl, firsts_with};
ghost use Rattle.kat_syntax.specs.Start.{first_or_unit};

use kat_value::{Field, Ty, TypeDecl, Types, Value, Values, copy_value, is_width};
use sqlite_items::{Boxed, Items};
use std::alloc::{AllocError, Global};

/// The first value of each of these types, and unit for one without values. 2^32 declared types are
/// taken for more than memory holds.
pub fn first_values(alloc: Global, types: &Types, wanted: &[Ty]) -> Result<Values, AllocError>
    ensures { IfOk result (λ values. values ≡ map (first_or_unit types.now) wanted.now) }
{
    if types.len() > u32::MAX as usize {
        return Err(AllocError);
    }
    let firsts = firsts_of(alloc, types)?;
    let mut values = Items::new(alloc);
    for ty in wanted {
        let first = first_by(alloc, firsts.as_slice(), *ty)?;
        values.push(first.unwrap_or(Value::Unit))?;
    }
    Ok(values)
}

/// The first value of each declared type, where it has one.
fn firsts_of(alloc: Global, types: &Types) -> Result<Items<Option<Value>>, AllocError>
    requires { length types.now < 2 ^ 32 }
    ensures { IfOk result (λ firsts. firsts ≡ firsts_with [] types.now) }
{
    let mut firsts = Items::new(alloc);
    for decl in types.as_slice() {
        let position = firsts.len() as u32;
        let first = first_of_decl(alloc, position, firsts.as_slice(), decl)?;
        firsts.push(first)?;
    }
    Ok(firsts)
}

/// The first value of a declared type that has this position, by those of the types before.
fn first_of_decl(
    alloc: Global,
    position: u32,
    firsts: &[Option<Value>],
    decl: &TypeDecl,
) -> Result<Option<Value>, AllocError>
    ensures { IfOk result (λ first. first ≡ first_of_decl position firsts.now decl.now) }
{
    match decl {
        TypeDecl::Enum { members, .. } => Ok(first_member(position, members.len())),
        TypeDecl::Union { ctors, .. } => first_made(alloc, position, firsts, ctors),
        TypeDecl::Rec { fields, .. } => match first_fields(alloc, firsts, fields)? {
            Some(fields) => Ok(Some(Value::Rec {
                of: position,
                fields,
            })),
            None => Ok(None),
        },
    }
}

/// The first value of a type, by those of the declared types.
fn first_by(alloc: Global, firsts: &[Option<Value>], ty: Ty) -> Result<Option<Value>, AllocError>
    ensures { IfOk result (λ first. first ≡ first_by firsts.now ty) }
{
    match ty {
        Ty::Unit => Ok(Some(Value::Unit)),
        Ty::Bool => Ok(Some(Value::Bool(false))),
        Ty::Bits(width) => Ok(zero_of(width)),
        Ty::Enum(of) | Ty::Union(of) | Ty::Rec(of) => match firsts.get(of as usize) {
            Some(Some(value)) => Ok(Some(copy_value(alloc, value)?)),
            _ => Ok(None),
        },
    }
}

/// The number 0 of so many bits, where this is a width.
fn zero_of(width: u32) -> Option<Value>
    ensures { result ≡ first_by [] (Ty.Bits width) }
{
    if is_width(u64::from(width)) {
        Some(Value::Bits { width, number: 0 })
    } else {
        None
    }
}

/// The first member of an enum with so many.
fn first_member(position: u32, count: usize) -> Option<Value>
    ensures { result ≡ (if 0 == count then None else Some (Member position 0)) }
{
    if count == 0 {
        None
    } else {
        Some(Value::Member {
            of: position,
            index: 0,
        })
    }
}

/// The first constructor of a union with the first value of its type.
fn first_made(
    alloc: Global,
    position: u32,
    firsts: &[Option<Value>],
    ctors: &Items<Field>,
) -> Result<Option<Value>, AllocError>
    ensures { (name : List ℕ) → IfOk result
        (λ first. first ≡ first_of_decl position firsts.now (Union name ctors.now)) }
{
    let Some(ctor) = ctors.get(0) else {
        return Ok(None);
    };
    match first_by(alloc, firsts, ctor.ty)? {
        Some(payload) => Ok(Some(Value::Made {
            of: position,
            ctor: 0,
            inner: Boxed::new(alloc, payload)?,
        })),
        None => Ok(None),
    }
}

/// The first values of the types of fields, where each has one.
fn first_fields(
    alloc: Global,
    firsts: &[Option<Value>],
    fields: &Items<Field>,
) -> Result<Option<Values>, AllocError>
    ensures { IfOk result (λ values.
        values ≡ all_there (map (λ (field : FieldSeen). first_by firsts.now field.ty) fields.now)) }
{
    let mut values = Items::new(alloc);
    for field in fields.as_slice() {
        match first_by(alloc, firsts, field.ty)? {
            Some(value) => values.push(value)?,
            None => return Ok(None),
        }
    }
    Ok(Some(values))
}

//! Which values are of which types.

ghost use Rattle.std.specs.Prelude.{◌≡◌, ◌↔◌, IsTrue};
ghost use Rattle.std.specs.Option.{option_copied};
ghost use Rattle.kat_value.specs.Typing.{member_count, ctor_at, fields_at, has_type, have_types, HasType};

use crate::types::{Field, Ty, TypeDecl, Types};
use crate::value::{Value, Values};
use crate::width::is_number;
use sqlite_items::Items;

/// Whether a value is of a type, with the declared types of this table. It takes no memory.
#[cycle(typing)]
pub fn fits(types: &Types, ty: &Ty, value: &Value) -> bool
    ensures typed { IsTrue result ↔ HasType types.now ty.now value.now }
    ensures computed { result ≡ has_type types.now value.now ty.now }
{
    match (value, ty) {
        (Value::Unit, Ty::Unit) => true,
        (Value::Bool(_), Ty::Bool) => true,
        (Value::Bits { width, number }, Ty::Bits(wanted)) => {
            *width == *wanted && is_number(*width, *number)
        }
        (Value::Member { of, index }, Ty::Enum(wanted)) => {
            *of == *wanted && (*index as usize) < member_count(types, *of)
        }
        (Value::Made { of, ctor, inner }, Ty::Union(wanted)) => {
            *of == *wanted
                && match ctor_at(types, *of, *ctor) {
                    Some(declared) => fits(types, &declared.ty, inner.get()),
                    None => false,
                }
        }
        (Value::Rec { of, fields }, Ty::Rec(wanted)) => {
            *of == *wanted
                && match fields_at(types, *of) {
                    Some(declared) => all_fit(types, declared, fields),
                    None => false,
                }
        }
        _ => false,
    }
}

/// Whether values are of the types of fields, one for each.
#[cycle(typing)]
fn all_fit(types: &Types, declared: &Items<Field>, values: &Values) -> bool
    ensures { result ≡ have_types types.now values.now declared.now }
{
    if values.len() != declared.len() {
        return false;
    }
    for (value, field) in values.as_slice().iter().zip(declared.as_slice()) {
        if !fits(types, &field.ty, value) {
            return false;
        }
    }
    true
}

/// How many members the enum at this position has; 0 where none is there.
fn member_count(types: &Types, of: u32) -> usize
    ensures { result ≡ member_count types.now of }
{
    match types.get(of as usize) {
        Some(TypeDecl::Enum { members, .. }) => members.len(),
        _ => 0,
    }
}

/// A constructor of the union at this position.
fn ctor_at(types: &Types, of: u32, ctor: u32) -> Option<&Field>
    ensures { option_copied result ≡ ctor_at types.now of ctor }
{
    match types.get(of as usize) {
        Some(TypeDecl::Union { ctors, .. }) => ctors.get(ctor as usize),
        _ => None,
    }
}

/// The fields of the record at this position.
fn fields_at(types: &Types, of: u32) -> Option<&Items<Field>>
    ensures { option_copied result ≡ fields_at types.now of }
{
    match types.get(of as usize) {
        Some(TypeDecl::Rec { fields, .. }) => Some(fields),
        _ => None,
    }
}

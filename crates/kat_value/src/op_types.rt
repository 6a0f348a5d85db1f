//! What types operations take and give. `None` is a type that nothing fixes, which may be any.

ghost use Rattle.std.specs.Prelude.{◌≡◌, ◌↔◌, ◌+◌, ◌-◌, IsTrue, None, nat_le, if◌then◌else◌};
ghost use Rattle.kat_value.specs.Signatures.{same_type, agree, may_be_bits, bits_of, takes, is_test, fixed_behind, fixed_by, joined_bits, type_of_field, type_given, has_place, widths_fit, all_taken, accepts, type_of_op};

use crate::op::Op;
use crate::signature::{Signature, signature_of};
use crate::types::{Ty, TypeDecl, Types};
use crate::width::{WIDEST, is_width};
use crate::words::arity_of;

/// The type of an operation on arguments of these types; none where it does not take them, or
/// nothing fixes it.
pub fn type_of_op(types: &Types, op: Op, args: &[Option<Ty>]) -> Option<Ty>
    ensures { result ≡ type_of_op types.now op args.now }
{
    if accepts(op, args) {
        type_given(types, signature_of(op), args)
    } else {
        None
    }
}

/// Whether an operation takes arguments of these types without a fault.
pub fn accepts(op: Op, args: &[Option<Ty>]) -> bool
    ensures { result ≡ accepts op args.now }
{
    let signature = signature_of(op);
    args.len() == arity_of(op) && all_taken(signature, args) && widths_fit(signature, args)
}

/// Whether each argument may stand where it does.
fn all_taken(signature: Signature, args: &[Option<Ty>]) -> bool
    ensures { result ≡ all_taken signature 0 None args.now }
{
    let mut fixed = None;
    for (at, ty) in args.iter().enumerate() {
        if !takes(signature, at, fixed, *ty) {
            return false;
        }
        fixed = fixed_behind(signature, at, fixed, *ty);
    }
    true
}

/// Whether the argument at a position may be of this type, behind arguments that fixed the other.
pub fn takes(signature: Signature, at: usize, fixed: Option<Ty>, ty: Option<Ty>) -> bool
    ensures { result ≡ takes signature at fixed ty }
{
    match signature {
        Signature::Truths => agree(Some(Ty::Bool), ty),
        Signature::Equality => agree(fixed, ty),
        Signature::Comparison | Signature::Arithmetic => may_be_bits(ty) && agree(fixed, ty),
        Signature::Slice { .. } | Signature::Cat | Signature::Extension { .. } => may_be_bits(ty),
        Signature::Choice => takes_choice(at, fixed, ty),
        Signature::Get { of, .. } => agree(Some(Ty::Rec(of)), ty),
    }
}

/// The same of the truth that chooses, and of what it chooses.
fn takes_choice(at: usize, fixed: Option<Ty>, ty: Option<Ty>) -> bool
    ensures { result ≡ takes Signature.Choice at fixed ty }
{
    if at == 0 {
        agree(Some(Ty::Bool), ty)
    } else {
        (may_be_bits(ty) || agree(Some(Ty::Bool), ty)) && agree(fixed, ty)
    }
}

/// The type that is fixed behind the argument at a position: by the first that is known and may
/// stand there.
pub fn fixed_behind(
    signature: Signature,
    at: usize,
    fixed: Option<Ty>,
    ty: Option<Ty>,
) -> Option<Ty>
    ensures { result ≡ fixed_behind signature at fixed ty }
{
    if !is_test(signature, at) && takes(signature, at, fixed, ty) {
        fixed.or(ty)
    } else {
        fixed
    }
}

/// Whether the argument at a position is the truth that chooses.
fn is_test(signature: Signature, at: usize) -> bool
    ensures { result ≡ is_test signature at }
{
    match signature {
        Signature::Choice => at == 0,
        _ => false,
    }
}

/// The type that an operation gives on arguments of these types, whatever faults there are; none
/// where nothing fixes it.
pub fn type_given(types: &Types, signature: Signature, args: &[Option<Ty>]) -> Option<Ty>
    ensures { result ≡ type_given types.now signature args.now }
{
    match signature {
        Signature::Truths | Signature::Equality | Signature::Comparison => Some(Ty::Bool),
        Signature::Arithmetic | Signature::Choice => fixed_by(signature, args),
        Signature::Slice { hi, lo } => type_of_slice(hi, lo),
        Signature::Cat => joined_bits(args),
        Signature::Extension { width } => bits_of(width),
        Signature::Get { of, field } => type_of_field(types, of, field),
    }
}

/// The type that all arguments fix.
fn fixed_by(signature: Signature, args: &[Option<Ty>]) -> Option<Ty>
    ensures { result ≡ fixed_by signature args.now }
{
    let mut fixed = None;
    for (at, ty) in args.iter().enumerate() {
        fixed = fixed_behind(signature, at, fixed, *ty);
    }
    fixed
}

/// The type of a slice from `lo` to `hi`.
fn type_of_slice(hi: u64, lo: u64) -> Option<Ty>
    ensures { result ≡ (if nat_le lo hi then bits_of (hi - lo + 1) else None) }
{
    if lo <= hi && hi - lo < u64::from(WIDEST) {
        bits_of(hi - lo + 1)
    } else {
        None
    }
}

/// The type of two arguments of bits one above the other.
fn joined_bits(args: &[Option<Ty>]) -> Option<Ty>
    ensures { result ≡ joined_bits args.now }
{
    match args {
        [Some(Ty::Bits(high)), Some(Ty::Bits(low))] => bits_of(u64::from(*high) + u64::from(*low)),
        _ => None,
    }
}

/// The type of the numbers of so many bits, where this is a width.
pub fn bits_of(width: u64) -> Option<Ty>
    ensures { result ≡ bits_of width }
{
    if is_width(width) {
        Some(Ty::Bits(width as u32))
    } else {
        None
    }
}

/// The type of a field of a record.
fn type_of_field(types: &Types, of: u32, field: u32) -> Option<Ty>
    ensures { result ≡ type_of_field types.now of field }
{
    match types.get(of as usize) {
        Some(TypeDecl::Rec { fields, .. }) => Some(fields.get(field as usize)?.ty),
        _ => None,
    }
}

/// Whether the widths go together, as far as they are known: a slice stands within its argument,
/// two parts are no wider than bits can be, and an extension is no shorter than its argument.
pub fn widths_fit(signature: Signature, args: &[Option<Ty>]) -> bool
    ensures { result ≡ widths_fit signature args.now }
{
    match (signature, args) {
        (Signature::Slice { hi, lo }, _) => lo <= hi && has_place(hi, args),
        (Signature::Cat, [Some(Ty::Bits(high)), Some(Ty::Bits(low))]) => {
            u64::from(*high) + u64::from(*low) <= u64::from(WIDEST)
        }
        (Signature::Extension { width }, [Some(Ty::Bits(own))]) => u64::from(*own) <= width,
        _ => true,
    }
}

/// Whether a bit at this place is one of bits of this type, where it is known.
fn has_place(place: u64, args: &[Option<Ty>]) -> bool
    ensures { result ≡ has_place place args.now }
{
    match args {
        [Some(Ty::Bits(width))] => place < u64::from(*width),
        _ => true,
    }
}

/// Whether two may be of one type.
pub fn agree(a: Option<Ty>, b: Option<Ty>) -> bool
    ensures { result ≡ agree a b }
{
    match (a, b) {
        (Some(a), Some(b)) => same_type(a, b),
        _ => true,
    }
}

/// Whether two types are the same.
pub fn same_type(a: Ty, b: Ty) -> bool
    ensures same { IsTrue result ↔ (a ≡ b) }
    ensures computed { result ≡ same_type a b }
{
    match (a, b) {
        (Ty::Unit, Ty::Unit) => true,
        (Ty::Bool, Ty::Bool) => true,
        (Ty::Bits(v), Ty::Bits(w)) => v == w,
        (Ty::Enum(i), Ty::Enum(j)) => i == j,
        (Ty::Union(i), Ty::Union(j)) => i == j,
        (Ty::Rec(i), Ty::Rec(j)) => i == j,
        _ => false,
    }
}

/// Whether it may be a type of bits.
fn may_be_bits(ty: Option<Ty>) -> bool
    ensures { result ≡ may_be_bits ty }
{
    matches!(ty, None | Some(Ty::Bits(_)))
}

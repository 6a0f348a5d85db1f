//! The type of a term as its operation, its variables and its literals tell it.

ghost use Rattle.std.specs.Prelude.{◌≡◌, ◌+◌, ◌-◌, None, nat_le, map, slice_get, option_and_then, if◌then◌else◌};
ghost use Rattle.kat_value.specs.Signatures.{bits_of};
ghost use Rattle.kat_value.specs.Shown.{type_of_value};
ghost use Rattle.kat_rules.specs.Widths.{told, told_at, joined, told_type, width_of, is_bool};

use kat_term::{Shape, Term, shape_of};
use kat_value::{Op, Ty, Value, WIDEST, bits_of};

/// The width that a term tells, where it is of bits.
pub fn width_in(vars: &[Ty], term: &Term) -> Option<u32>
    ensures { width_of vars.now term.now ≡ result }
{
    match told_type(vars, term)? {
        Ty::Bits(width) => Some(width),
        _ => None,
    }
}

/// Whether a term tells that it is of type bool.
pub fn is_bool(vars: &[Ty], term: &Term) -> bool
    ensures { result ≡ is_bool vars.now term.now }
{
    match told_type(vars, term) {
        Some(Ty::Bool) => true,
        _ => false,
    }
}

/// The type that a term over variables of these types tells.
#[cycle(types)]
fn told_type(vars: &[Ty], term: &Term) -> Option<Ty>
    ensures { result ≡ told_type vars.now term.now }
{
    match shape_of(term) {
        Shape::Var(number) => told_of_var(vars, number),
        Shape::Lit(value) => told_of_value(value),
        Shape::Apply { op, args } => match op {
            Op::Not | Op::And | Op::Or | Op::Eq | Op::Ult | Op::Ule | Op::Slt | Op::Sle => {
                Some(Ty::Bool)
            }
            Op::Slice { hi, lo } => type_of_slice(hi, lo),
            Op::Cat => joined(told_at(vars, args, 0), told_at(vars, args, 1)),
            Op::Zext { width } | Op::Sext { width } => bits_of(width),
            Op::Ite => told_at(vars, args, 1),
            Op::Get { .. } => None,
            _ => told_at(vars, args, 0),
        },
        Shape::Make { .. } | Shape::Rec { .. } => None,
    }
}

/// The type that the term at a place tells.
#[cycle(types)]
fn told_at(vars: &[Ty], terms: &[Term], at: usize) -> Option<Ty>
    ensures { result ≡ told_at (map (told_type vars.now) terms.now) at }
{
    match terms.get(at) {
        Some(term) => told_type(vars, term),
        None => None,
    }
}

/// The type that a variable tells.
fn told_of_var(vars: &[Ty], number: u32) -> Option<Ty>
    ensures { result ≡ option_and_then told (slice_get vars.now number) }
{
    match vars.get(number as usize) {
        Some(ty) => told(*ty),
        None => None,
    }
}

/// A type, where it is bool or bits of a width.
fn told(ty: Ty) -> Option<Ty>
    ensures { result ≡ told ty }
{
    match ty {
        Ty::Bool => Some(Ty::Bool),
        Ty::Bits(width) => bits_of(u64::from(width)),
        _ => None,
    }
}

/// The type that a literal tells.
fn told_of_value(value: &Value) -> Option<Ty>
    ensures { result ≡ told (type_of_value value.now) }
{
    match value {
        Value::Bool(_) => Some(Ty::Bool),
        Value::Bits { width, .. } => bits_of(u64::from(*width)),
        Value::Unit | Value::Member { .. } | Value::Made { .. } | Value::Rec { .. } => None,
    }
}

/// The type of a slice from `lo` to `hi`.
fn type_of_slice(hi: u64, lo: u64) -> Option<Ty>
    ensures { result ≡ (if nat_le lo hi then bits_of (hi - lo + 1) else None) }
{
    if lo <= hi && hi - lo < u64::from(WIDEST) {
        bits_of(hi - lo + 1)
    } else {
        None
    }
}

/// The type of one number above another.
fn joined(high: Option<Ty>, low: Option<Ty>) -> Option<Ty>
    ensures { result ≡ joined high low }
{
    match (high, low) {
        (Some(Ty::Bits(high)), Some(Ty::Bits(low))) => bits_of(u64::from(high) + u64::from(low)),
        _ => None,
    }
}

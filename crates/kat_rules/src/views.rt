//! What rules ask of a term beyond the views of terms: literals that fit their width, and the
//! operations that hold numbers.

ghost use Rattle.std.specs.Prelude.{◌≡◌, IfSome};
ghost use Rattle.std.specs.Option.{option_map};
ghost use Rattle.kat_value.specs.Numbers.{IsNumber};
ghost use Rattle.kat_rules.specs.Patterns.{SliceTerm, LongerTerm, FieldTerm, fitting_number_of, slice_in, zext_in, sext_in, field_in};
ghost use Rattle.kat_term.specs.declared.term.Term.TheViews.{out-Term};

use kat_term::{Number, Shape, Term, number_in, shape_of};
use kat_value::{Op, is_number};

/// The width and number of a term that is a literal of bits and fits its width.
pub fn fitting_number_in(term: &Term) -> Option<Number>
    ensures view { fitting_number_of term.now ≡ option_map (λ n. (n.width, n.number)) result }
    ensures fits { IfSome result (λ n. IsNumber n.width n.number) }
{
    let literal = number_in(term)?;
    if is_number(literal.width, literal.number) {
        Some(literal)
    } else {
        None
    }
}

/// A slice from the bit `lo` to the bit `hi`, both included, and what it is of.
#[derive(Clone, Copy, Drop)]
pub struct Slice<'a> {
    pub hi: u64,
    pub lo: u64,
    pub of: &'a Term,
}

/// The bounds and the argument of a term that is a slice.
pub fn slice_in(term: &Term) -> Option<Slice<'_>>
    ensures { slice_in (out-Term term.now)
        ≡ option_map (λ s. record { hi = s.hi; lo = s.lo; of = s.of.now }) result }
{
    match shape_of(term) {
        Shape::Apply {
            op: Op::Slice { hi, lo },
            args,
        } => match args {
            [of] => Some(Slice { hi, lo, of }),
            _ => None,
        },
        _ => None,
    }
}

/// An extension: the width that it gives, and what it makes longer.
#[derive(Clone, Copy, Drop)]
pub struct Longer<'a> {
    pub width: u64,
    pub of: &'a Term,
}

/// The width and the argument of a term that is made longer by zeros.
pub fn zext_in(term: &Term) -> Option<Longer<'_>>
    ensures { zext_in (out-Term term.now)
        ≡ option_map (λ z. record { width = z.width; of = z.of.now }) result }
{
    match shape_of(term) {
        Shape::Apply {
            op: Op::Zext { width },
            args,
        } => match args {
            [of] => Some(Longer { width, of }),
            _ => None,
        },
        _ => None,
    }
}

/// The width and the argument of a term that is made longer by copies of its top bit.
pub fn sext_in(term: &Term) -> Option<Longer<'_>>
    ensures { sext_in (out-Term term.now)
        ≡ option_map (λ z. record { width = z.width; of = z.of.now }) result }
{
    match shape_of(term) {
        Shape::Apply {
            op: Op::Sext { width },
            args,
        } => match args {
            [of] => Some(Longer { width, of }),
            _ => None,
        },
        _ => None,
    }
}

/// A field of a record, by the positions of type and field, and the record.
#[derive(Clone, Copy, Drop)]
pub struct FieldParts<'a> {
    pub of: u32,
    pub field: u32,
    pub from: &'a Term,
}

/// The positions and the argument of a term that is a field of a record.
pub fn field_in(term: &Term) -> Option<FieldParts<'_>>
    ensures { field_in (out-Term term.now)
        ≡ option_map (λ f. record { of = f.of; field = f.field; from = f.from.now }) result }
{
    match shape_of(term) {
        Shape::Apply {
            op: Op::Get { of, field },
            args,
        } => match args {
            [from] => Some(FieldParts { of, field, from }),
            _ => None,
        },
        _ => None,
    }
}

//! The order of terms: literals, variables, operations, constructors, records.

ghost use Rattle.std.specs.Prelude.{◌≡◌};
ghost use Rattle.kat_term.specs.Equality.{key_of_op as key_in_specs};
ghost use Rattle.kat_term.specs.Order.{rank_of_literal, key_cmp, place_of_kind, term_cmp, terms_cmp};
ghost use Rattle.kat_term.specs.declared.term.Term.TheViews.{out-Term};

use crate::equality::key_of_op;
use crate::term::{Term, Terms};
use kat_value::{Op, Value};
use std::cmp::Ordering;

/// How two terms stand in the order. Literals go by number or position, false before true, and
/// variables by number; operations by their number in the language's list, then by widths and
/// bounds, then by arguments; constructors by position, then by payload; records by fields.
#[cycle(order)]
pub fn compare_terms(a: &Term, b: &Term) -> Ordering
    ensures { result ≡ term_cmp a.now b.now }
{
    match (a, b) {
        (Term::Lit(x), Term::Lit(y)) => rank_of_literal(x).cmp(&rank_of_literal(y)),
        (Term::Var(i), Term::Var(j)) => i.cmp(j),
        (
            Term::Apply { op, args },
            Term::Apply {
                op: other_op,
                args: other_args,
            },
        ) => compare_ops(*op, *other_op).then(compare_all(args.get(), other_args.get())),
        (
            Term::Make { ctor, inner, .. },
            Term::Make {
                ctor: other_ctor,
                inner: other_inner,
                ..
            },
        ) => ctor
            .cmp(other_ctor)
            .then(compare_terms(inner.get(), other_inner.get())),
        (
            Term::Rec { fields, .. },
            Term::Rec {
                fields: other_fields,
                ..
            },
        ) => compare_all(fields.get(), other_fields.get()),
        _ => place_of_kind(a).cmp(&place_of_kind(b)),
    }
}

/// How two lists of terms stand: a shorter one is first, and those of one length go by the first
/// place where they differ. The arguments of one operation and the fields of one type are as many.
#[cycle(order)]
fn compare_all(a: &Terms, b: &Terms) -> Ordering
    ensures { result ≡ terms_cmp a.now b.now }
{
    let lengths = a.len().cmp(&b.len());
    if lengths != Ordering::Equal {
        return lengths;
    }
    for (x, y) in a.as_slice().iter().zip(b.as_slice()) {
        let order = compare_terms(x, y);
        if order != Ordering::Equal {
            return order;
        }
    }
    Ordering::Equal
}

/// The place of a kind of term in the order.
fn place_of_kind(term: &Term) -> u32
    ensures { result ≡ place_of_kind (out-Term term.now) }
{
    match term {
        Term::Lit(_) => 0,
        Term::Var(_) => 1,
        Term::Apply { .. } => 2,
        Term::Make { .. } => 3,
        Term::Rec { .. } => 4,
    }
}

/// How two operations stand: by their number in the language's list, then by widths and bounds.
fn compare_ops(a: Op, b: Op) -> Ordering
    ensures { result ≡ key_cmp (key_in_specs a) (key_in_specs b) }
{
    let first = key_of_op(a);
    let second = key_of_op(b);
    let by_numbers = first
        .high
        .cmp(&second.high)
        .then(first.low.cmp(&second.low));
    first.place.cmp(&second.place).then(by_numbers)
}

/// The number or position of a literal; false is before true.
fn rank_of_literal(value: &Value) -> u64
    ensures { result ≡ rank_of_literal value.now }
{
    match value {
        Value::Bool(truth) => u64::from(*truth),
        Value::Bits { number, .. } => *number,
        Value::Member { index, .. } => u64::from(*index),
        _ => 0,
    }
}

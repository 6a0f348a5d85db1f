//! Equality of operations and of terms.

ghost use Rattle.std.specs.Prelude.{◌≡◌, ◌↔◌, IsTrue};
ghost use Rattle.kat_term.specs.Equality.{key_of_op, op_eq, term_eq, terms_eq};

use crate::term::{Term, Terms};
use kat_value::{Op, same_value};

/// Whether two terms are equal: the same variable, the same literal, or made in the same way of
/// equal parts.
#[cycle(equality)]
pub fn same_term(a: &Term, b: &Term) -> bool
    ensures { result ≡ term_eq a.now b.now }
{
    match (a, b) {
        (Term::Var(i), Term::Var(j)) => *i == *j,
        (Term::Lit(x), Term::Lit(y)) => same_value(x, y),
        (
            Term::Apply { op, args },
            Term::Apply {
                op: other_op,
                args: other_args,
            },
        ) => same_op(*op, *other_op) && same_terms(args.get(), other_args.get()),
        (
            Term::Make { of, ctor, inner },
            Term::Make {
                of: other_of,
                ctor: other_ctor,
                inner: other_inner,
            },
        ) => *of == *other_of && *ctor == *other_ctor && same_term(inner.get(), other_inner.get()),
        (
            Term::Rec { of, fields },
            Term::Rec {
                of: other_of,
                fields: other_fields,
            },
        ) => *of == *other_of && same_terms(fields.get(), other_fields.get()),
        _ => false,
    }
}

/// The same of lists of terms.
#[cycle(equality)]
fn same_terms(a: &Terms, b: &Terms) -> bool
    ensures { result ≡ terms_eq a.now b.now }
{
    if a.len() != b.len() {
        return false;
    }
    for (x, y) in a.as_slice().iter().zip(b.as_slice()) {
        if !same_term(x, y) {
            return false;
        }
    }
    true
}

/// Whether two operations are the same, with the same numbers.
pub fn same_op(a: Op, b: Op) -> bool
    ensures { result ≡ op_eq a b }
{
    let first = key_of_op(a);
    let second = key_of_op(b);
    first.place == second.place && first.high == second.high && first.low == second.low
}

/// What tells an operation: its number in the language's list, and its widths, bounds or positions,
/// 0 where it has none.
#[derive(Clone, Copy, Drop)]
pub struct OpKey {
    pub place: u32,
    pub high: u64,
    pub low: u64,
}

/// The key of an operation.
pub fn key_of_op(op: Op) -> OpKey
    ensures place { result.place ≡ (key_of_op op).place }
    ensures high { result.high ≡ (key_of_op op).high }
    ensures low { result.low ≡ (key_of_op op).low }
{
    match op {
        Op::Not => op_key(1, 0, 0),
        Op::And => op_key(2, 0, 0),
        Op::Or => op_key(3, 0, 0),
        Op::Eq => op_key(4, 0, 0),
        Op::Ult => op_key(5, 0, 0),
        Op::Ule => op_key(6, 0, 0),
        Op::Slt => op_key(7, 0, 0),
        Op::Sle => op_key(8, 0, 0),
        Op::Add => op_key(9, 0, 0),
        Op::Sub => op_key(10, 0, 0),
        Op::Mul => op_key(11, 0, 0),
        Op::Band => op_key(12, 0, 0),
        Op::Bor => op_key(13, 0, 0),
        Op::Bxor => op_key(14, 0, 0),
        Op::Bnot => op_key(15, 0, 0),
        Op::Shl => op_key(16, 0, 0),
        Op::Shr => op_key(17, 0, 0),
        Op::Sar => op_key(18, 0, 0),
        Op::Slice { hi, lo } => op_key(19, hi, lo),
        Op::Cat => op_key(20, 0, 0),
        Op::Zext { width } => op_key(21, width, 0),
        Op::Sext { width } => op_key(22, width, 0),
        Op::Ite => op_key(23, 0, 0),
        Op::Get { of, field } => op_key(24, u64::from(of), u64::from(field)),
    }
}

/// A key of these numbers.
fn op_key(place: u32, high: u64, low: u64) -> OpKey
    ensures place { result.place ≡ place }
    ensures high { result.high ≡ high }
    ensures low { result.low ≡ low }
{
    OpKey { place, high, low }
}

//! The bounds of a term, by the comparisons with literals in a list of formulas.

ghost use Rattle.std.specs.Prelude.{◌≡◌, map};
ghost use Rattle.kat_term.specs.declared.term.Term.TheOpen.{Lit};
ghost use Rattle.kat_known.specs.Bounds.{taken_in, inwards, read_all, same_interval, read_often, all_of_width, all_numbers, is_zext, begins_with, bounds_layer, bounds_of};
ghost use Rattle.kat_known.specs.Parts.{part};

use crate::facts::{Fact, fact_of};
use kat_rules::width_in;
use kat_term::{Shape, Term, shape_of};
use kat_value::{Op, Ty, Value, WIDEST};

/// The numbers from `low` to `high`, both included; none where `low` is above `high`.
#[derive(Clone, Copy, Debug, Drop)]
pub struct Interval {
    pub low: u128,
    pub high: u128,
}

/// The bounds of a term over variables of these types, where the formulas of a list are true. A
/// literal of bits has its number alone. Any other term begins with all numbers of its width, a
/// `zext` with the bounds of its argument, and the list is read in order, again and again until
/// nothing changes.
#[cycle(bounds)]
pub fn bounds_of(term: &Term, vars: &[Ty], list: &[Term]) -> Interval
    ensures { result ≡ bounds_of vars.now list.now term.now }
{
    match shape_of(term) {
        Shape::Apply { op, args } => {
            let start = begins_with(op, args, term, vars, list);
            read_often(term, list, start)
        }
        Shape::Lit(value) => literal_bounds(value, term, vars, list),
        Shape::Var(_) => wide_bounds(term, vars, list),
        Shape::Make { .. } => wide_bounds(term, vars, list),
        Shape::Rec { .. } => wide_bounds(term, vars, list),
    }
}

/// The bounds of a literal: its number alone, where it is one of bits.
fn literal_bounds(value: &Value, term: &Term, vars: &[Ty], list: &[Term]) -> Interval
    ensures { result ≡ bounds_layer vars.now list.now term.now (Lit value.now) }
{
    match value {
        Value::Bits { number, .. } => Interval {
            low: u128::from(*number),
            high: u128::from(*number),
        },
        Value::Unit
        | Value::Bool(_)
        | Value::Member { .. }
        | Value::Made { .. }
        | Value::Rec { .. } => wide_bounds(term, vars, list),
    }
}

/// The bounds of a term that begins with all numbers of its width.
fn wide_bounds(term: &Term, vars: &[Ty], list: &[Term]) -> Interval
    ensures { result ≡ read_often term.now list.now (all_numbers vars.now term.now) }
{
    read_often(term, list, all_numbers(vars, term))
}

/// What an operation begins with: a `zext` with the bounds of its argument.
#[cycle(bounds)]
fn begins_with(op: Op, args: &[Term], term: &Term, vars: &[Ty], list: &[Term]) -> Interval
    ensures { result ≡ begins_with (is_zext op) (all_numbers vars.now term.now)
        (map (part (bounds_layer vars.now list.now)) args.now) }
{
    match args {
        [arg] if is_zext(op) => bounds_of(arg, vars, list),
        _ => all_numbers(vars, term),
    }
}

/// Whether an operation is `zext`.
fn is_zext(op: Op) -> bool
    ensures { result ≡ is_zext op }
{
    match op {
        Op::Zext { .. } => true,
        _ => false,
    }
}

/// The numbers of the width that a term tells; all numbers, where it tells none.
fn all_numbers(vars: &[Ty], term: &Term) -> Interval
    ensures { result ≡ all_numbers vars.now term.now }
{
    match width_in(vars, term) {
        Some(width) => all_of_width(width),
        None => all_of_width(WIDEST),
    }
}

/// The numbers of this many bits.
fn all_of_width(width: u32) -> Interval
    ensures { result ≡ all_of_width width }
{
    let bits = width.min(WIDEST);
    Interval {
        low: 0,
        high: (1 << bits) - 1,
    }
}

/// An interval with the list read for a term until nothing changes, at most twice for each formula.
fn read_often(term: &Term, list: &[Term], interval: Interval) -> Interval
    ensures { result ≡ read_often term.now list.now interval }
{
    let mut left = list.len() as u128 + list.len() as u128;
    let mut read = interval;
    while left > 0 {
        let next = read_all(term, list, read);
        if same_interval(next, read) {
            return read;
        }
        read = next;
        left -= 1;
    }
    read
}

/// An interval with the list read once for a term.
fn read_all(term: &Term, list: &[Term], interval: Interval) -> Interval
    ensures { result ≡ read_all term.now list.now interval }
{
    let mut read = interval;
    for formula in list {
        read = taken_in(fact_of(term, formula), read);
    }
    read
}

/// Whether two intervals are the same.
fn same_interval(a: Interval, b: Interval) -> bool
    ensures { result ≡ same_interval a b }
{
    a.low == b.low && a.high == b.high
}

/// An interval with what is told taken in.
fn taken_in(fact: Option<Fact>, interval: Interval) -> Interval
    ensures { result ≡ taken_in fact interval }
{
    let Interval { low, high } = interval;
    match fact {
        None => interval,
        Some(Fact::Above(number)) => Interval {
            low: low.max(u128::from(number) + 1),
            high,
        },
        Some(Fact::Below(number)) => Interval {
            low,
            high: high.min(u128::from(number.saturating_sub(1))),
        },
        Some(Fact::AtLeast(number)) => Interval {
            low: low.max(u128::from(number)),
            high,
        },
        Some(Fact::AtMost(number)) => Interval {
            low,
            high: high.min(u128::from(number)),
        },
        Some(Fact::Exactly(number)) => Interval {
            low: low.max(u128::from(number)),
            high: high.min(u128::from(number)),
        },
        Some(Fact::Differs(number)) => inwards(number, interval),
    }
}

/// An interval from which a bound that is this number is taken, where the bounds differ.
fn inwards(number: u64, interval: Interval) -> Interval
    ensures { result ≡ inwards number interval }
{
    let Interval { low, high } = interval;
    let bound = u128::from(number);
    if low == high {
        interval
    } else if low == bound {
        Interval {
            low: bound + 1,
            high,
        }
    } else if high == bound {
        Interval {
            low,
            high: bound.saturating_sub(1),
        }
    } else {
        interval
    }
}

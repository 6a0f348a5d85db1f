//! Terms made and taken apart. The layers above make and read terms by these calls alone, so that
//! how a term is kept can change below them.

ghost use Rattle.std.specs.Prelude.{◌≡◌, IfOk};
ghost use Rattle.std.specs.Option.{option_map, option_copied};
ghost use Rattle.kat_term.specs.Views.{MadeTerm, RecTerm, ThreeTerms, one, two, three, unit, truth, bits, member, var_of, literal_of, arg_of, two_args_of, three_args_of, made_of, rec_of, number_of, truth_of};
ghost use Rattle.kat_term.specs.declared.term.Term.TheVariants.{Var, Lit, Apply, Make as MakeTerm, Rec as Record};

use crate::equality::same_op;
use crate::shared::Shared;
use crate::term::{Term, Terms};
use kat_value::{Op, Value};
use sqlite_items::Items;
use std::alloc::{AllocError, Global};

/// The variable with this number.
pub fn var(number: u32) -> Term
    ensures { result ≡ Var number }
{
    Term::Var(number)
}

/// A literal of this value, which is no value of a union or a record: those are made by `make` and
/// `rec`.
pub fn literal(value: Value) -> Term
    ensures { result ≡ Lit value }
{
    Term::Lit(value)
}

/// The literal of type unit.
pub fn unit() -> Term
    ensures { result ≡ unit }
{
    Term::Lit(Value::Unit)
}

/// A literal of type bool.
pub fn truth(holds: bool) -> Term
    ensures { result ≡ truth holds }
{
    Term::Lit(Value::Bool(holds))
}

/// A literal of bits.
pub fn bits(width: u32, number: u64) -> Term
    ensures { result ≡ bits width number }
{
    Term::Lit(Value::Bits { width, number })
}

/// A literal of a member of an enum, by its position.
pub fn member(of: u32, index: u32) -> Term
    ensures { result ≡ member of index }
{
    Term::Lit(Value::Member { of, index })
}

/// An operation on terms.
pub fn apply(alloc: Global, op: Op, args: Terms) -> Result<Term, AllocError>
    ensures { IfOk result (λ t. t ≡ Apply op args) }
{
    Ok(Term::Apply {
        op,
        args: Shared::new(alloc, args)?,
    })
}

/// An operation on one term.
pub fn apply_one(alloc: Global, op: Op, first: Term) -> Result<Term, AllocError>
    ensures { IfOk result (λ t. t ≡ one op first) }
{
    apply(alloc, op, Items::from_vec(vec![in alloc; first]?))
}

/// An operation on two terms.
pub fn apply_two(alloc: Global, op: Op, first: Term, second: Term) -> Result<Term, AllocError>
    ensures { IfOk result (λ t. t ≡ two op first second) }
{
    apply(alloc, op, Items::from_vec(vec![in alloc; first, second]?))
}

/// An operation on three terms.
pub fn apply_three(
    alloc: Global,
    op: Op,
    first: Term,
    second: Term,
    third: Term,
) -> Result<Term, AllocError>
    ensures { IfOk result (λ t. t ≡ three op first second third) }
{
    let args = vec![in alloc; first, second, third]?;
    apply(alloc, op, Items::from_vec(args))
}

/// A constructor of a union on its payload.
pub fn make(alloc: Global, of: u32, ctor: u32, inner: Term) -> Result<Term, AllocError>
    ensures { IfOk result (λ t. t ≡ MakeTerm of ctor inner) }
{
    Ok(Term::Make {
        of,
        ctor,
        inner: Shared::new(alloc, inner)?,
    })
}

/// A record of its fields.
pub fn rec(alloc: Global, of: u32, fields: Terms) -> Result<Term, AllocError>
    ensures { IfOk result (λ t. t ≡ Record of fields) }
{
    Ok(Term::Rec {
        of,
        fields: Shared::new(alloc, fields)?,
    })
}

/// The number of a term that is a variable.
pub fn var_in(term: &Term) -> Option<u32>
    ensures { var_of term.now ≡ result }
{
    match term {
        Term::Var(number) => Some(*number),
        _ => None,
    }
}

/// The value of a term that is a literal.
pub fn literal_in(term: &Term) -> Option<&Value>
    ensures { literal_of term.now ≡ option_copied result }
{
    match term {
        Term::Lit(value) => Some(value),
        _ => None,
    }
}

/// A number of a width.
#[derive(Clone, Copy, Drop)]
pub struct Number {
    pub width: u32,
    pub number: u64,
}

/// The width and number of a term that is a literal of bits.
pub fn number_in(term: &Term) -> Option<Number>
    ensures { number_of term.now ≡ option_map (λ n. (n.width, n.number)) result }
{
    match term {
        Term::Lit(Value::Bits { width, number }) => Some(Number {
            width: *width,
            number: *number,
        }),
        _ => None,
    }
}

/// The truth of a term that is a literal of type bool.
pub fn truth_in(term: &Term) -> Option<bool>
    ensures { truth_of term.now ≡ result }
{
    match term {
        Term::Lit(Value::Bool(truth)) => Some(*truth),
        _ => None,
    }
}

/// The argument of a term, where it is this operation on one.
pub fn arg_of(op: Op, term: &Term) -> Option<&Term>
    ensures { arg_of op term.now ≡ option_copied result }
{
    match term {
        Term::Apply { op: found, args } if same_op(*found, op) => match args.get().as_slice() {
            [first] => Some(first),
            _ => None,
        },
        _ => None,
    }
}

/// The two arguments of an operation.
#[derive(Clone, Copy, Drop)]
pub struct Two<'a> {
    pub first: &'a Term,
    pub second: &'a Term,
}

/// The arguments of a term, where it is this operation on two.
pub fn args_of(op: Op, term: &Term) -> Option<Two<'_>>
    ensures { two_args_of op term.now
        ≡ option_map (λ args. (args.first.now, args.second.now)) result }
{
    match term {
        Term::Apply { op: found, args } if same_op(*found, op) => match args.get().as_slice() {
            [first, second] => Some(Two { first, second }),
            _ => None,
        },
        _ => None,
    }
}

/// The three arguments of an operation.
#[derive(Clone, Copy, Drop)]
pub struct Three<'a> {
    pub first: &'a Term,
    pub second: &'a Term,
    pub third: &'a Term,
}

/// The arguments of a term, where it is this operation on three.
pub fn three_args_of(op: Op, term: &Term) -> Option<Three<'_>>
    ensures { three_args_of op term.now ≡ option_map (λ args. record {
      first = args.first.now;
      second = args.second.now;
      third = args.third.now;
    }) result }
{
    match term {
        Term::Apply { op: found, args } if same_op(*found, op) => match args.get().as_slice() {
            [first, second, third] => Some(Three {
                first,
                second,
                third,
            }),
            _ => None,
        },
        _ => None,
    }
}

/// A constructor of a union with its payload.
#[derive(Clone, Copy, Drop)]
pub struct MadeParts<'a> {
    pub of: u32,
    pub ctor: u32,
    pub inner: &'a Term,
}

/// The constructor and the payload of a term that is made by one.
pub fn made_in(term: &Term) -> Option<MadeParts<'_>>
    ensures { made_of term.now
        ≡ option_map (λ m. record { of = m.of; ctor = m.ctor; inner = m.inner.now }) result }
{
    match term {
        Term::Make { of, ctor, inner } => Some(MadeParts {
            of: *of,
            ctor: *ctor,
            inner: inner.get(),
        }),
        _ => None,
    }
}

/// A record's type with its fields in order.
#[derive(Clone, Copy, Drop)]
pub struct RecParts<'a> {
    pub of: u32,
    pub fields: &'a [Term],
}

/// The type and the fields of a term that is a record.
pub fn rec_in(term: &Term) -> Option<RecParts<'_>>
    ensures { rec_of term.now
        ≡ option_map (λ r. record { of = r.of; fields = r.fields.now }) result }
{
    match term {
        Term::Rec { of, fields } => Some(RecParts {
            of: *of,
            fields: fields.get().as_slice(),
        }),
        _ => None,
    }
}

//! What a formula tells of the number of a term.

ghost use Rattle.std.specs.Prelude.{◌≡◌};
ghost use Rattle.kat_value.specs.declared.op.Op.TheVariants.{Eq, Not, Ult, Ule};
ghost use Rattle.kat_known.specs.Bounds.{fact_by, fact_of};

use kat_term::{Shape, Term, args_of, number_in, same_term, shape_of};
use kat_value::Op;

/// What a formula tells of the number of a term: a literal that it lies above or below, that bounds
/// it, or that it is or is not.
#[derive(Clone, Copy, Debug, Drop)]
pub enum Fact {
    Above(u64),
    AtLeast(u64),
    Below(u64),
    AtMost(u64),
    Exactly(u64),
    Differs(u64),
}

/// What a formula tells of the number of a term.
#[tactic(auto, using(crate::proofs::FactSteps::fact_told))]
pub fn fact_of(term: &Term, formula: &Term) -> Option<Fact>
    ensures { result ≡ fact_of term.now formula.now }
{
    match shape_of(formula) {
        Shape::Apply { op, args } => fact_by(op, term, args),
        Shape::Var(_) => None,
        Shape::Lit(_) => None,
        Shape::Make { .. } => None,
        Shape::Rec { .. } => None,
    }
}

/// What an operation on these arguments tells.
fn fact_by(op: Op, term: &Term, args: &[Term]) -> Option<Fact>
    ensures { result ≡ fact_by op term.now args.now }
{
    match op {
        Op::Ult => told_by_less(term, args),
        Op::Ule => told_by_at_most(term, args),
        Op::Eq => told_equal(term, args),
        Op::Not => told_other(term, args),
        _ => None,
    }
}

/// What `ult` of these arguments tells.
fn told_by_less(term: &Term, args: &[Term]) -> Option<Fact>
    ensures { result ≡ fact_by Ult term.now args.now }
{
    let [first, second] = args else {
        return None;
    };
    if let Some(literal) = number_in(first) {
        if same_term(second, term) {
            return Some(Fact::Above(literal.number));
        }
    }
    if let Some(literal) = number_in(second) {
        if same_term(first, term) {
            return Some(Fact::Below(literal.number));
        }
    }
    None
}

/// What `ule` of these arguments tells.
fn told_by_at_most(term: &Term, args: &[Term]) -> Option<Fact>
    ensures { result ≡ fact_by Ule term.now args.now }
{
    let [first, second] = args else {
        return None;
    };
    if let Some(literal) = number_in(first) {
        if same_term(second, term) {
            return Some(Fact::AtLeast(literal.number));
        }
    }
    if let Some(literal) = number_in(second) {
        if same_term(first, term) {
            return Some(Fact::AtMost(literal.number));
        }
    }
    None
}

/// The number that a term is told to be by an equation of these arguments.
fn told_equal(term: &Term, args: &[Term]) -> Option<Fact>
    ensures { result ≡ fact_by Eq term.now args.now }
{
    let [first, second] = args else {
        return None;
    };
    if let Some(literal) = number_in(first) {
        if same_term(second, term) {
            return Some(Fact::Exactly(literal.number));
        }
    }
    None
}

/// The number that a term is told not to be by the negation of these arguments.
fn told_other(term: &Term, args: &[Term]) -> Option<Fact>
    ensures { result ≡ fact_by Not term.now args.now }
{
    let [inner] = args else {
        return None;
    };
    let sides = args_of(Op::Eq, inner)?;
    if let Some(literal) = number_in(sides.first) {
        if same_term(sides.second, term) {
            return Some(Fact::Differs(literal.number));
        }
    }
    None
}

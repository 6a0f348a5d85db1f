//! The levels of a right side that are to be normed.

ghost use Rattle.std.specs.Prelude.{◌≡◌, ◌≤◌};
ghost use Rattle.kat_rules.specs.RightSides.{new_levels};
ghost use Rattle.kat_norm.specs.Levels.{levels_of};

use kat_term::{MAX_DEPTH, Shape, Term, args_of, rec_in, shape_of};
use kat_value::Op;

/// How many levels of the right side of the rule at a term may have rules left, where the parts of
/// the term have none.
#[tactic(auto, unfolding(kat_term::specs::Limits::max_depth))]
pub fn levels_of(term: &Term) -> u32
    ensures is { result ≡ levels_of term.now }
    ensures some { 1 ≤ result }
{
    match args_of(Op::Eq, term) {
        Some(sides) if rec_in(sides.first).is_some() => MAX_DEPTH,
        _ => new_levels(term),
    }
}

/// How many levels of the right side of the rule at a term may be new.
fn new_levels(term: &Term) -> u32
    ensures is { result ≡ new_levels term.now }
    ensures some { 1 ≤ result }
{
    match shape_of(term) {
        Shape::Apply {
            op: Op::Eq | Op::Ult | Op::Ule | Op::Ite,
            ..
        } => 3,
        _ => 2,
    }
}

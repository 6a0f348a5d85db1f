//! The pick of the first rule whose left side is there.

ghost use Rattle.std.specs.Prelude.{◌≡◌, IfOk};
ghost use Rattle.kat_rules.specs.ByOperation.{rules_at};
ghost use Rattle.kat_rules.specs.Rules.{first_of, rule_of};

use crate::bits::{band_rule, bor_rule, bxor_rule, product_rule};
use crate::joins::{join_rule, sext_to_own_width, zext_rule};
use crate::shifts::{sar_rule, shl_rule, shr_rule};
use crate::slices::slice_rule;
use crate::sums::{difference_rule, sum_rule};
use kat_rules::{
    at_most_rule, choice_rule, comparison_of_same, conjunction_rule, disjunction_rule,
    equation_rule, get_of_rec, less_rule, negation_rule, op_on_literals, rules_go_by_operation,
    undone_twice,
};
use kat_term::{Shape, Term, shape_of};
use kat_value::{Op, Ty};
use std::alloc::{AllocError, Global};

/// The right side of the first rule at a term over variables of these types; none where no rule is
/// there. It gives up only for want of memory.
pub fn right_side(alloc: Global, vars: &[Ty], term: &Term) -> Result<Option<Term>, AllocError>
    ensures { IfOk result (λ r. r ≡ rule_of vars.now term.now) }
{
    rules_go_by_operation();
    let Shape::Apply { op, .. } = shape_of(term) else {
        return Ok(None);
    };
    if let Some(right) = op_on_literals(alloc, vars, term)? {
        return Ok(Some(right));
    }
    right_side_at(alloc, op, vars, term)
}

/// The right side of the first rule that is there of those whose left side begins with an
/// operation.
fn right_side_at(
    alloc: Global,
    op: Op,
    vars: &[Ty],
    term: &Term,
) -> Result<Option<Term>, AllocError>
    ensures { IfOk result (λ r. r ≡ first_of (rules_at op) vars.now term.now) }
{
    match op {
        Op::Not => negation_rule(alloc, vars, term),
        Op::And => conjunction_rule(alloc, vars, term),
        Op::Or => disjunction_rule(alloc, vars, term),
        Op::Eq => equation_rule(alloc, vars, term),
        Op::Ult => less_rule(alloc, vars, term),
        Op::Ule => at_most_rule(alloc, vars, term),
        Op::Slt => comparison_of_same(alloc, Op::Slt, false, vars, term),
        Op::Sle => comparison_of_same(alloc, Op::Sle, true, vars, term),
        Op::Add => sum_rule(alloc, vars, term),
        Op::Sub => difference_rule(alloc, vars, term),
        Op::Mul => product_rule(alloc, vars, term),
        Op::Band => band_rule(alloc, vars, term),
        Op::Bor => bor_rule(alloc, vars, term),
        Op::Bxor => bxor_rule(alloc, vars, term),
        Op::Bnot => undone_twice(alloc, Op::Bnot, vars, term),
        Op::Shl => shl_rule(alloc, vars, term),
        Op::Shr => shr_rule(alloc, vars, term),
        Op::Sar => sar_rule(alloc, vars, term),
        Op::Slice { .. } => slice_rule(alloc, vars, term),
        Op::Cat => join_rule(alloc, vars, term),
        Op::Zext { .. } => zext_rule(alloc, vars, term),
        Op::Sext { .. } => sext_to_own_width(alloc, vars, term),
        Op::Ite => choice_rule(alloc, vars, term),
        Op::Get { .. } => get_of_rec(alloc, vars, term),
    }
}

//! The laws of settled worlds and of what is left of a goal. Such a function does nothing: its
//! contract is the law.

ghost use Rattle.kat_solver.specs.Below.{Below};
ghost use Rattle.kat_solver.specs.Means.{AddedFits, AnswersMean, SettledFits, SolverLaws};

use kat_known::{known_atoms_hold, parts_are_found, reducing_keeps};
use kat_norm::{normal_forms_keep_types, normal_forms_keep_values};
use kat_rules::{told_types_hold, values_of_operations};
use kat_term::{equal_terms_are_tested, terms_by_parts, types_are_values, worlds_grow};
use kat_value::{equality_is_tested, types_of_values};

/// A valuation that fits a settled world and makes a formula true fits the world with the formula
/// added; one that makes formulas true fits them settled.
pub fn settled_worlds_fit()
    ensures added { AddedFits }
    ensures settled { SettledFits }
{
    laws_below();
}

/// What an answer says of a valuation under which the formulas of the world are true.
pub fn answers_mean()
    ensures { AnswersMean }
{
    laws_below();
}

/// What a prover owes of the normal form under settled formulas, and of what is left.
pub fn solver_laws()
    ensures { SolverLaws }
{
    laws_below();
}

/// The laws of the crates below that these stand on.
fn laws_below()
    ensures { Below }
{
    equality_is_tested();
    types_of_values();
    equal_terms_are_tested();
    terms_by_parts();
    types_are_values();
    worlds_grow();
    told_types_hold();
    values_of_operations();
    normal_forms_keep_types();
    normal_forms_keep_values();
    known_atoms_hold();
    parts_are_found();
    reducing_keeps();
}

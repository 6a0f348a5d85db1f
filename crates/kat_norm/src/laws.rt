//! The laws of normal forms. Such a function does nothing: its contract is the law.

ghost use Rattle.kat_norm.specs.ByArguments.{GoesByArguments};
ghost use Rattle.kat_norm.specs.Kept.{KeptByRules, KeptBySubstitution, TypesAreKept, ValuesAreKept};
ghost use Rattle.kat_norm.specs.Rests.{NormalFormsRest, RestsByRules};

use kat_rules::rule_keeps_value;
use kat_term::{terms_by_parts, types_are_values, worlds_grow};

/// The normal form goes by the arguments: they are normed from left to right, then the first rule
/// that is there is used, and its right side is normed in its turn.
pub fn normal_forms_go_by_arguments()
    ensures { GoesByArguments }
{}

/// A normal form has no rule left, and is its own normal form.
pub fn normal_forms_rest()
    ensures rules { RestsByRules }
    ensures normal { NormalFormsRest }
{}

/// A normal form has the value of the term, under every valuation that makes each pair of the
/// substitution equal.
pub fn normal_forms_keep_values()
    ensures rules { KeptByRules }
    ensures pairs { KeptBySubstitution }
    ensures values { ValuesAreKept }
{
    terms_by_parts();
    rule_keeps_value();
}

/// A normal form is of the type of the term, where the terms put in are of the types of the
/// variables.
pub fn normal_forms_keep_types()
    ensures { TypesAreKept }
{
    terms_by_parts();
    types_are_values();
    rule_keeps_value();
    worlds_grow();
}

//! The laws of rules. Such a function does nothing: its contract is the law.

ghost use Rattle.kat_rules.specs.BitOperations.{bit_rules};
ghost use Rattle.kat_rules.specs.ByOperation.{GoesByOperation};
ghost use Rattle.kat_rules.specs.Equations.{equation_rules};
ghost use Rattle.kat_rules.specs.Joins.{join_rules};
ghost use Rattle.kat_rules.specs.Keeps.{AllKeep, Keeps};
ghost use Rattle.kat_rules.specs.Orders.{order_rules};
ghost use Rattle.kat_rules.specs.RightSides.{IsShallow};
ghost use Rattle.kat_rules.specs.Rules.{rule_of};
ghost use Rattle.kat_rules.specs.Shifts.{shift_rules};
ghost use Rattle.kat_rules.specs.Sums.{sum_rules};
ghost use Rattle.kat_rules.specs.Truths.{truth_rules};
ghost use Rattle.kat_rules.specs.Values.{ToldNumbers, ToldTruths, ValuesOfOperations};

use kat_term::equal_terms_are_tested;
use kat_value::{equality_is_tested, types_of_values};

/// What is done at one place of a term keeps its value under every valuation: the first rule whose
/// left side is there is used, and each rule keeps values.
pub fn rule_keeps_value()
    ensures { Keeps rule_of }
{
    truths_keep_values();
    equations_keep_values();
    orders_keep_values();
    sums_keep_values();
    bits_keep_values();
    shifts_keep_values();
    joins_keep_values();
}

/// A right side is new in its two or three outermost levels alone: what stands below them has each
/// property that all parts of the left side have, and their parts with them. Nothing is said of
/// an equation of two records.
pub fn right_sides_are_shallow()
    ensures { IsShallow rule_of }
{
    equal_terms_are_tested();
}

/// The rules on literals, fields, truths and choices keep values: the right side has the value of
/// the left one under every valuation.
pub fn truths_keep_values()
    ensures { AllKeep truth_rules }
{
    equality_is_tested();
    types_of_values();
    equal_terms_are_tested();
}

/// The rules on comparisons keep values.
pub fn orders_keep_values()
    ensures { AllKeep order_rules }
{
    equality_is_tested();
    types_of_values();
    equal_terms_are_tested();
}

/// The rules on sums, differences and the order of sides keep values.
pub fn sums_keep_values()
    ensures { AllKeep sum_rules }
{
    equality_is_tested();
    types_of_values();
    equal_terms_are_tested();
}

/// The rules on equations keep values.
pub fn equations_keep_values()
    ensures { AllKeep equation_rules }
{
    equality_is_tested();
    types_of_values();
    equal_terms_are_tested();
}

/// The rules on products and on operations bit by bit keep values.
pub fn bits_keep_values()
    ensures { AllKeep bit_rules }
{
    equality_is_tested();
    types_of_values();
    equal_terms_are_tested();
}

/// The rules on shifts and slices keep values.
pub fn shifts_keep_values()
    ensures { AllKeep shift_rules }
{
    equality_is_tested();
    types_of_values();
    equal_terms_are_tested();
}

/// The rules on extensions and joins keep values.
pub fn joins_keep_values()
    ensures { AllKeep join_rules }
{
    equality_is_tested();
    types_of_values();
    equal_terms_are_tested();
}

/// The first rule at a term can be told by its operation: at an operation it is that on literals,
/// else the first of those whose left side begins with the operation, and no rule is at any other
/// term.
pub fn rules_go_by_operation()
    ensures { GoesByOperation }
{}

/// What the value of an operation says of the values of its arguments.
pub fn values_of_operations()
    ensures { ValuesOfOperations }
{}

/// The type that a term tells is that of each value that it has.
pub fn told_types_hold()
    ensures truths { ToldTruths }
    ensures numbers { ToldNumbers }
{
    types_of_values();
}

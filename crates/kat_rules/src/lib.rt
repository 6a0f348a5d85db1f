//! The rules of terms. A rule is a definition of its own that says its left side, its guards and
//! its right side; of the rules at one place of a term the first that is there is used. The laws say
//! that each of them keeps the value of a term under every valuation of the variables. The rules on
//! literals, truths, equations and comparisons are functions here, those on numbers above.
#![tactic(auto)]

mod equations;
mod laws;
mod literals;
mod orders;
mod truths;
mod views;
mod widths;

pub use equations::{equation_rule, is_after};
pub use laws::{
    bits_keep_values, equations_keep_values, joins_keep_values, orders_keep_values,
    right_sides_are_shallow, rule_keeps_value, rules_go_by_operation, shifts_keep_values,
    sums_keep_values, told_types_hold, truths_keep_values, values_of_operations,
};
pub use literals::op_on_literals;
pub use orders::{at_most_rule, comparison_of_same, less_rule};
pub use truths::{
    choice_rule, conjunction_rule, disjunction_rule, get_of_rec, negation_rule, one_of_same,
    undone_twice,
};
pub use views::{
    FieldParts, Longer, Slice, field_in, fitting_number_in, sext_in, slice_in, zext_in,
};
pub use widths::{is_bool, width_in};

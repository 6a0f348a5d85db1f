//! Expressions, and what they and the forms above them are written of: names, numbers, types, and
//! names with types. A tree that fits its sort is read as the one form that it describes, with no
//! refusal; only memory may run out.
#![tactic(auto)]

mod atoms;
mod expressions;
mod params;

pub use atoms::{name_in, number_in, only_name, part_of, parts_of, split, type_in};
pub use expressions::{expr_in, name_and_expr, name_and_exprs, only_expr, two_exprs};
pub use params::{fields_in, members_in, numbers_in, param_in, params_in};

//! The syntax of the language as data: one variant for each form of a type, expression, statement,
//! assertion and declaration, and in `specs/`, kind by kind, the one tree that each is written as,
//! what each owes beside its parts, and how many trees it has; which tree describes which
//! specification, and which bytes stand for it. A form is plain data; names are text, and nothing
//! in it points to its declaration.
#![tactic(auto)]

mod assertion;
mod decl;
mod expr;
mod laws;
mod limits;
mod place;
mod stm;
mod type_name;

pub use assertion::Assertion;
pub use decl::{Block, CellsKind, Decl, DeclForm, Phase, RegisterKind, Spec, When};
pub use expr::{Expr, count_expr};
pub use kat_value::Op;
pub use laws::{one_form, one_reading, places_are_of_the_tree, specifications_can_be_written};
pub use limits::{DECL_TREES_BOUND, DEEPEST_DECL};
pub use place::Place;
pub use stm::{CaseArm, MatchArm, Stm, count_case_arms, count_match_arms, count_stm, count_stms};
pub use type_name::{Param, TypeName, count_params, count_type};

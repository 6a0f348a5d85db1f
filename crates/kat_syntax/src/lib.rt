//! What a specification means, in `specs/`: typing, the meaning of expressions and statements, one
//! cycle of the machine, a run over a list of events, and the text of a run's states. A typed
//! specification stands with the table of its declared types and with those in which a cycle looks
//! names up. The forms themselves are those of `kat_ast`, passed on here.
#![tactic(auto)]

mod checked;
mod declared_types;
mod laws;
mod limits;
mod moded;
mod named;
mod places;
mod run_tables;
mod type_rule;
mod type_table;

pub use checked::{Checked, FunctionSeen};
pub use declared_types::{DeclaredType, DeclaredTypes, is_type_decl};
pub use kat_ast::{
    Assertion, Block, CaseArm, CellsKind, Decl, DeclForm, Expr, MatchArm, Op, Param, Phase, Place,
    RegisterKind, Spec, Stm, TypeName, When, count_case_arms, count_expr, count_match_arms,
    count_stm, count_stms, one_form, one_reading, places_are_of_the_tree,
    specifications_can_be_written,
};
pub use laws::{
    calls_are_spent, cycles_fail_at_trees, depth_is_enough, first_faults_are_least,
    statements_do_their_parts, states_stay, stuck_cycles_fail, types_name_earlier_ones,
    values_stay_shown, what_changes,
};
pub use limits::MOST_DECLARATIONS;
pub use moded::Moded;
pub use named::Named;
pub use places::{Memory, OutsidePlace, Poke};
pub use run_tables::CtorPlace;
pub use type_rule::TypeRule;

//! Terms over the variables of a world: what symbolic execution computes with. A term is an
//! expression whose names are variables; a world is the types of its variables and the formulas
//! that were assumed. Contracts say what a term means by the value that it has under a valuation
//! of the variables, and worlds only grow, so that a term keeps its value. Above this layer a term
//! is made by the constructors of `build` and taken apart by its views.
#![tactic(auto)]

mod build;
mod choices;
mod copy;
mod equality;
mod fresh;
mod kind;
mod laws;
mod limits;
mod order;
mod prover;
mod shape;
mod shared;
mod size;
mod term;
mod world;

pub use build::{
    MadeParts, Number, RecParts, Three, Two, apply, apply_one, apply_three, apply_two, arg_of,
    args_of, bits, literal, literal_in, made_in, make, member, number_in, rec, rec_in,
    three_args_of, truth, truth_in, unit, var, var_in,
};
pub use choices::Choices;
pub use copy::{copy_term, copy_terms};
pub use equality::{same_op, same_term};
pub use fresh::GrowError;
pub use kind::Kind;
pub use laws::{equal_terms_are_tested, terms_by_parts, types_are_values, worlds_grow};
pub use limits::{MAX_DEPTH, MAX_NODES, MAX_VARS};
pub use order::compare_terms;
pub use prover::{Answer, NormError, Prover};
pub use shape::{Shape, shape_of};
pub use size::{has_depth, nodes_within, room_behind};
pub use term::{Term, Terms};
pub use world::World;

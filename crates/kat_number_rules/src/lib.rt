//! The rules of terms on numbers (sums, operations bit by bit, shifts, slices and joins) as
//! functions, and the pick of the first rule of all that is there at one place of a term. The
//! definitions, and the laws that each rule keeps values, are those of `kat_rules`.
#![tactic(auto)]

mod bits;
mod joins;
mod rules;
mod shifts;
mod slices;
mod sums;

pub use rules::right_side;

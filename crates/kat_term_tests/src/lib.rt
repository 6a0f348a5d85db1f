//! Tests of terms over several crates: their texts, their normal forms, and what is left of goals.
//! A crate with tests is proved once with them and once without: here the second costs nothing.
#![tactic(auto)]

#[cfg(test)]
mod left;
#[cfg(test)]
mod norm;
#[cfg(test)]
mod terms;
#[cfg(test)]
mod texts;

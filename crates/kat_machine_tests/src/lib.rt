//! Tests of machines over several crates: images read and printed, values printed, and
//! specifications judged by their modes.
//! A crate with tests is proved once with them and once without: here the second costs nothing.
#![tactic(auto)]

#[cfg(test)]
mod calls;
#[cfg(test)]
mod images;
#[cfg(test)]
mod machine;

//! What a list of formulas tells. `bounds_of` reads comparisons with literals as bounds of a term;
//! `known` says of an atom that it is true, false or open where the formulas are true; `reduced`
//! and `reduced_strictly` replace the known atoms of a term by their literals, one at a time. The
//! laws say what these are good for: bounds hold and are at rest, what is known is so, and a
//! reduced term keeps its value and its type, under every valuation that makes the formulas true.
#![tactic(auto)]

mod bounds;
mod facts;
mod knowing;
mod laws;
mod reduce;
mod replace;

pub use bounds::{Interval, bounds_of};
pub use knowing::{contains, known, normed};
pub use laws::{bounds_hold, known_atoms_hold, parts_are_found, reducing_keeps};
pub use reduce::{reduced, reduced_strictly};
pub use replace::is_atom;

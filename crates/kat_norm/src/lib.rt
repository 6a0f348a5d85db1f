//! The normal form of a term: the rules of `kat_rules`, used one after another until none is left,
//! as far as the limits on nodes, depth and rules allow it. `rewrite` puts a substitution into a
//! term and answers its normal form, or the limit that is passed. The laws say what a normal form
//! is good for: it goes by the arguments, rests, and keeps the value and the type of the term.
#![tactic(auto)]

mod laws;
mod levels;
mod limits;
mod norm;
mod substitution;

pub use laws::{
    normal_forms_go_by_arguments, normal_forms_keep_types, normal_forms_keep_values,
    normal_forms_rest,
};
pub use limits::MAX_RULES;
pub use norm::rewrite;
pub use substitution::{Pair, Substitution, substituted};

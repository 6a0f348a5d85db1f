//! Forms: which tree is which specification, and which declaration. A tree is first judged, by the
//! table of forms; what has right form is then read, form by form, with no refusal.
#![tactic(auto)]

mod declarations;
mod error;
mod read;

pub use error::FormError;
pub use kat_grammar::{one_description, written_fits};
pub use kat_shapes::{Misfit, Wanted};
pub use read::{read_decl, read_spec};

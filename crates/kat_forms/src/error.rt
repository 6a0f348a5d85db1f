//! Why a tree is no specification, or no declaration.

ghost use Rattle.std.specs.Prelude.{◌≡◌};
ghost use Rattle.kat_forms.specs.declared.error.FormError.TheVariants.{Memory};

use kat_shapes::Wanted;
use std::alloc::{AllocError, AllocFailed};

/// Why a tree was not read.
#[derive(Clone, Copy, Debug, PartialEq, Eq, Drop)]
pub enum FormError {
    /// The first tree, in preorder, that has no form where it stands.
    Wanted {
        /// Its number, from 0 on.
        place: u64,
        /// What is wanted there.
        wanted: Wanted,
    },
    /// Memory ran out.
    Memory,
}

impl From<AllocError> for FormError {
    ghost from_gives = { λ _ e. e ≡ Memory };

    fn from(_error: AllocError) -> FormError {
        FormError::Memory
    }
}

impl<T: Drop> From<AllocFailed<T>> for FormError {
    ghost from_gives = { λ _ e. e ≡ Memory };

    fn from(_error: AllocFailed<T>) -> FormError {
        FormError::Memory
    }
}

//! A tree that has no form.

ghost use Rattle.std.specs.Prelude.{◌≡◌};
ghost use Rattle.kat_shapes.specs.Sorts.{wanted_of};

use crate::sort::Sort;
use crate::wanted::Wanted;

/// The first tree that has no form.
#[derive(Clone, Copy, Debug, PartialEq, Eq, Drop)]
pub struct Misfit {
    /// Its number, in preorder from 0; it stands still at the greatest number of 64 bits.
    pub place: u64,
    /// What is wanted there.
    pub wanted: Wanted,
}

impl Misfit {
    /// The misfit at a tree that is read as this.
    pub(crate) fn at(sort: Sort, place: u64) -> Misfit
        ensures { result ≡ record { place = place; wanted = wanted_of sort } }
    {
        Misfit {
            place,
            wanted: sort.wanted(),
        }
    }
}

//! Branches of an `if`, a `case` or a `match`, and the type of the whole.

ghost use Rattle.std.specs.Prelude.{◌≡◌, ◌+◌, ◌<◌, ◌^◌, ◌++◌, ◌∷◌, [], List, Option};
ghost use Rattle.kat_value.specs.declared.types.Ty.{Ty};
ghost use Rattle.kat_syntax.specs.TypingStatements.{type_of_branches};
ghost use Rattle.kat_stm_types.specs.Branches.{IsBranches};

use kat_expr_types::Known;
use kat_value::{Ty, agree};

/// Branches so far: the first type that is known, whether all that are known are one, and how many
/// trees they have.
#[derive(Clone, Copy, Drop)]
pub struct Branches {
    pub first: Option<Ty>,
    pub agrees: bool,
    pub trees: u32,
}

impl Branches {
    /// No branches.
    pub fn none() -> Branches
        ensures { IsBranches [] 0 result }
    {
        Branches {
            first: None,
            agrees: true,
            trees: 0,
        }
    }

    /// These with one more, which has so many trees before it.
    pub fn with(self, before: u32, known: Known) -> Branches
        requires { self.trees + before + known.trees < 2 ^ 32 }
        ensures { (types : List (Option Ty)) → IsBranches types self.trees self →
            IsBranches (types ++ known.ty ∷ []) (self.trees + before + known.trees) result }
    {
        Branches {
            first: self.first.or(known.ty),
            agrees: self.agrees && agree(self.first, known.ty),
            trees: self.trees + before + known.trees,
        }
    }

    /// The type of the whole; nothing fixes it where they differ.
    pub fn ty(&self) -> Option<Ty>
        ensures { (types : List (Option Ty)) → IsBranches types self.now.trees self.now →
            result ≡ type_of_branches types }
    {
        if self.agrees { self.first } else { None }
    }
}

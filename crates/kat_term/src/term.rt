//! Terms.

use crate::shared::Shared;
use kat_value::{Op, Value};
use sqlite_items::Items;

/// A term over the variables of a world. `of` is the position of a declared type in the table of
/// types, `ctor` that of a constructor in its union. Other crates make terms by the calls of
/// `build` and take them apart by those and by `shape_of`; they cannot name a variant to make one.
/// The parts of a term are shared by its copies.
#[derive(Debug, Drop)]
#[non_exhaustive]
pub enum Term {
    /// The variable with this number, printed `v0`, `v1` and so on.
    #[non_exhaustive]
    Var(u32),
    /// A value of type unit, bool or bits or of an enum.
    #[non_exhaustive]
    Lit(Value),
    /// An operation on its arguments.
    #[non_exhaustive]
    Apply {
        op: Op,
        args: Shared<Terms>,
    },
    /// A constructor of a union with its payload.
    #[non_exhaustive]
    Make {
        of: u32,
        ctor: u32,
        inner: Shared<Term>,
    },
    /// A record with its fields in order.
    #[non_exhaustive]
    Rec {
        of: u32,
        fields: Shared<Terms>,
    },
}

/// Terms in order, which contracts see as a list.
pub type Terms = Items<Term>;

//! The values of the types.

use sqlite_items::{Boxed, Items};

/// A value. `of` is the position of its declared type in the table of types.
#[derive(Debug, Drop)]
pub enum Value {
    Unit,
    Bool(bool),
    /// A whole number below 2 to the power of the width.
    Bits {
        width: u32,
        number: u64,
    },
    /// The member at this position of an enum.
    Member {
        of: u32,
        index: u32,
    },
    /// A constructor of a union, by its position, with its payload.
    Made {
        of: u32,
        ctor: u32,
        inner: Boxed<Value>,
    },
    /// A record with its fields in order.
    Rec {
        of: u32,
        fields: Values,
    },
}

/// Values in order, which contracts see as a list.
pub type Values = Items<Value>;

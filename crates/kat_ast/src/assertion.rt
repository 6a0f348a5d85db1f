//! Assertions.

use crate::expr::Expr;
use crate::type_name::TypeName;
use kat_text::Text;
use sqlite_items::{Boxed, Items};

/// An assertion, one variant for each form.
#[derive(Drop)]
pub enum Assertion {
    /// `(pure E)`: E is true.
    Pure(Expr),
    /// `(reg r E)`: a register with its value.
    Register {
        register: Text,
        value: Expr,
    },
    /// `(cell E E)`: a cell of the memory, by its index, with its value.
    Cell {
        index: Expr,
        value: Expr,
    },
    /// `(star A ..)`: all of them, of disjoint places.
    Star(Items<Assertion>),
    /// `(if E A A)`: the first where E is true, else the second.
    If {
        test: Expr,
        then: Boxed<Assertion>,
        otherwise: Boxed<Assertion>,
    },
    /// `(exists (x T) A)`: for some value of the type.
    Exists {
        name: Text,
        ty: TypeName,
        body: Boxed<Assertion>,
    },
    /// `(pred P E ..)`: a predicate, with its inputs and then its outputs.
    Predicate {
        predicate: Text,
        args: Items<Expr>,
    },
    /// `(region G E ..)`: the cells of a region.
    Region {
        region: Text,
        args: Items<Expr>,
    },
}

//! Terms taken apart, a layer at a time.

ghost use Rattle.std.specs.Prelude.{◌≡◌};
ghost use Rattle.kat_term.specs.Shapes.{term_of_shape, layer_of_shape};
ghost use Rattle.kat_term.specs.declared.term.Term.TheViews.{out-Term};

use crate::term::Term;
use kat_value::{Op, Value};

/// The outermost layer of a term, its parts lent by the term. `of` is the position of a declared
/// type in the table of types, `ctor` that of a constructor in its union.
#[derive(Clone, Copy, Drop)]
pub enum Shape<'a> {
    /// The variable with this number.
    Var(u32),
    /// A literal.
    Lit(&'a Value),
    /// An operation on its arguments.
    Apply { op: Op, args: &'a [Term] },
    /// A constructor of a union with its payload.
    Make { of: u32, ctor: u32, inner: &'a Term },
    /// A record with its fields in order.
    Rec { of: u32, fields: &'a [Term] },
}

/// The outermost layer of a term. It takes no memory.
pub fn shape_of(term: &Term) -> Shape<'_>
    ensures term { term.now ≡ term_of_shape result }
    ensures layer { out-Term term.now ≡ layer_of_shape result }
{
    match term {
        Term::Var(number) => Shape::Var(*number),
        Term::Lit(value) => Shape::Lit(value),
        Term::Apply { op, args } => Shape::Apply {
            op: *op,
            args: args.get().as_slice(),
        },
        Term::Make { of, ctor, inner } => Shape::Make {
            of: *of,
            ctor: *ctor,
            inner: inner.get(),
        },
        Term::Rec { of, fields } => Shape::Rec {
            of: *of,
            fields: fields.get().as_slice(),
        },
    }
}

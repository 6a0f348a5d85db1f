//! Copies of terms.

ghost use Rattle.std.specs.Prelude.{◌≡◌, IfOk};

use crate::term::{Term, Terms};
use kat_value::copy_value;
use sqlite_items::Items;
use std::alloc::{AllocError, Global};

/// An equal term, which shares its parts.
pub fn copy_term(alloc: Global, term: &Term) -> Result<Term, AllocError>
    ensures { IfOk result (λ t. t ≡ term.now) }
{
    match term {
        Term::Var(number) => Ok(Term::Var(*number)),
        Term::Lit(value) => Ok(Term::Lit(copy_value(alloc, value)?)),
        Term::Apply { op, args } => Ok(Term::Apply {
            op: *op,
            args: args.share()?,
        }),
        Term::Make { of, ctor, inner } => Ok(Term::Make {
            of: *of,
            ctor: *ctor,
            inner: inner.share()?,
        }),
        Term::Rec { of, fields } => Ok(Term::Rec {
            of: *of,
            fields: fields.share()?,
        }),
    }
}

/// An equal list of terms, each of which shares its parts.
pub fn copy_terms(alloc: Global, terms: &[Term]) -> Result<Terms, AllocError>
    ensures { IfOk result (λ ts. ts ≡ terms.now) }
{
    let mut copies = Items::new(alloc);
    for term in terms {
        copies.push(copy_term(alloc, term)?)?;
    }
    Ok(copies)
}

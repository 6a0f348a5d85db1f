//! Terms put in the place of variables.

ghost use Rattle.std.specs.Prelude.{◌≡◌, IfOk, map};
ghost use Rattle.kat_norm.specs.Substitution.{put, substituted};

use kat_term::{Shape, Term, Terms, apply, copy_term, make, rec, shape_of, var};
use sqlite_items::Items;
use std::alloc::{AllocError, Global};

/// A variable by its number, with the term that takes its place.
#[derive(Debug, Drop)]
pub struct Pair {
    pub number: u32,
    pub term: Term,
}

/// Pairs in order, which contracts see as a list.
pub type Substitution = Items<Pair>;

/// The term with the pairs put in, in their order, each once and into what the one before left. No
/// earlier pair is rewritten.
pub fn substituted(alloc: Global, pairs: &Substitution, term: Term) -> Result<Term, AllocError>
    ensures { IfOk result (λ t. t ≡ substituted pairs.now term) }
{
    let mut changed = term;
    for pair in pairs.as_slice() {
        changed = put(&changed, alloc, pair)?;
    }
    Ok(changed)
}

/// A term with another in the place of a variable.
#[cycle(put)]
fn put(term: &Term, alloc: Global, pair: &Pair) -> Result<Term, AllocError>
    ensures { IfOk result (λ t. t ≡ put pair.now.number pair.now.term term.now) }
{
    match shape_of(term) {
        Shape::Var(number) => {
            if number == pair.number {
                copy_term(alloc, &pair.term)
            } else {
                Ok(var(number))
            }
        }
        Shape::Lit(_) => copy_term(alloc, term),
        Shape::Apply { op, args } => apply(alloc, op, put_all(args, alloc, pair)?),
        Shape::Make { of, ctor, inner } => make(alloc, of, ctor, put(inner, alloc, pair)?),
        Shape::Rec { of, fields } => rec(alloc, of, put_all(fields, alloc, pair)?),
    }
}

/// The same of terms.
#[cycle(put)]
fn put_all(terms: &[Term], alloc: Global, pair: &Pair) -> Result<Terms, AllocError>
    ensures { IfOk result (λ ts. ts ≡ map (put pair.now.number pair.now.term) terms.now) }
{
    let mut changed = Items::new(alloc);
    for term in terms {
        changed.push(put(term, alloc, pair)?)?;
    }
    Ok(changed)
}

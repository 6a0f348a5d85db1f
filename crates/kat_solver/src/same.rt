//! Lists of types and of formulas that are the same, or begin alike.

ghost use Rattle.std.specs.Prelude.{◌≡◌, ◌++◌, ◌↔◌, take, length, IsTrue, MatchOption};

use kat_term::{Term, equal_terms_are_tested, same_term};
use kat_value::{Ty, same_type};

/// Whether two lists of types are the same.
pub fn same_types(first: &[Ty], second: &[Ty]) -> bool
    ensures { IsTrue result ↔ (first.now ≡ second.now) }
{
    if first.len() != second.len() {
        return false;
    }
    for (index, ty) in first.iter().enumerate() {
        if !same_type(*ty, second[index]) {
            return false;
        }
    }
    true
}

/// Whether two lists of formulas are the same.
pub fn same_formulas(first: &[Term], second: &[Term]) -> bool
    ensures { IsTrue result ↔ (first.now ≡ second.now) }
{
    equal_terms_are_tested();
    if first.len() != second.len() {
        return false;
    }
    for (index, term) in first.iter().enumerate() {
        if !same_term(term, &second[index]) {
            return false;
        }
    }
    true
}

/// What stands behind these formulas in a list that begins with them.
pub fn rest_behind<'a>(first: &[Term], all: &'a [Term]) -> Option<&'a [Term]>
    ensures { MatchOption result (take (length first.now) all.now ≡ first.now → ⊥)
        (λ rest. first.now ++ rest.now ≡ all.now) }
{
    if first.len() > all.len() {
        return None;
    }
    let (begin, rest) = all.split_at(first.len());
    if same_formulas(begin, first) {
        Some(rest)
    } else {
        None
    }
}

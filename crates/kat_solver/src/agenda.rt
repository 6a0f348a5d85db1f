//! Lists of terms that are taken from the front.

ghost use Rattle.std.specs.Prelude.{◌≡◌, ◌++◌, [], ◌∷◌, IfOk, MatchOption, OnOk};

use kat_term::{Term, Terms};
use sqlite_items::Items;
use std::alloc::{AllocError, Global};
use std::marker::Model;

/// Terms in order, of which the first is taken first. Contracts see them as a list. They are kept
/// with the first one last.
#[derive(Drop)]
pub struct Agenda {
    reversed: Terms,
}

impl Model for Agenda {
    ghost use Rattle.std.specs.Prelude.{List, reverse};
    ghost use Rattle.std.specs.Coded.{coded_list};
    ghost use Rattle.kat_term.specs.declared.term.Term.{Term};
    ghost use Rattle.kat_term.specs.contracts.term.Term as term;

    ghost Value = { List Term };

    ghost coded = { coded_list term.the_row.coded };

    ghost view = { λ a. reverse a.reversed };
}

impl Agenda {
    /// No term. No memory is taken.
    pub fn new(alloc: Global) -> Agenda
        ensures { result ≡ [] }
    {
        Agenda {
            reversed: Items::new(alloc),
        }
    }

    /// Takes the first term away.
    pub fn take_first(&mut self) -> Option<Term>
        ensures { MatchOption result ((self.old ≡ []) × (self.new ≡ []))
            (λ first. self.old ≡ first ∷ self.new) }
    {
        self.reversed.pop()
    }

    /// Puts a term at the front.
    pub fn push_first(&mut self, term: Term) -> Result<(), AllocError>
        ensures { OnOk result (self.new ≡ term ∷ self.old) }
    {
        self.reversed.push(term)
    }

    /// Puts terms at the front, in their order.
    pub fn push_all_first(&mut self, terms: Terms) -> Result<(), AllocError>
        ensures { OnOk result (self.new ≡ terms ++ self.old) }
    {
        let mut left = terms;
        while let Some(term) = left.pop() {
            self.reversed.push(term)?;
        }
        Ok(())
    }
}

/// The terms of an agenda with others behind them.
pub fn with_last(alloc: Global, agenda: Agenda, terms: Terms) -> Result<Agenda, AllocError>
    ensures { IfOk result (λ a. a ≡ agenda ++ terms) }
{
    let mut joined = Agenda {
        reversed: Items::new(alloc),
    };
    joined.push_all_first(terms)?;
    let Agenda { reversed } = agenda;
    joined.reversed.append(reversed)?;
    Ok(joined)
}

//! The table of names, and why it refuses one.
ghost use Rattle.std.specs.Prelude.{◌≡◌, ◌<◌, ◌≤◌, ◌↔◌, [], ◌∷◌, ◌++◌, ℕ, length, slice_get, Contains, IsSome, IsOk, IsTrue, IfOk, OnOk, OnErr};
ghost use Rattle.std.specs.Result.{result_ok};
ghost use Rattle.std.specs.String.{string_bytes};
ghost use Rattle.kat_names.specs.Names.{most_names, position_of, AllDiffer};
ghost use Rattle.kat_names.specs.NameError.{twice_of};

use indexmap::IndexSet;
use std::alloc::{AllocError, Global};
use std::marker::Model;
use thiserror::Error;

/// How many names a table has at most: each position is a `u32`.
const MOST_NAMES: usize = 1 << 32;

/// Distinct names in the order of adding, each with its position in that order, counted from 0.
///
/// Contracts see a table as the list of its names, each as the list of its bytes.
#[derive(Debug, Drop)]
pub struct Table {
    names: IndexSet<String>,
}

impl Model for Table {
    ghost use Rattle.std.specs.Prelude.{List, ℕ, map};
    ghost use Rattle.std.specs.String.{string_bytes};
    ghost use Rattle.kat_names.specs.Names.{IsTable};

    ghost Value = { List (List ℕ) };

    ghost view = { λ t. map string_bytes t.names.keys };

    ghost invariant = { λ t. IsTable (map string_bytes t.names.keys) };
}

impl Table {
    /// A table with no names. No memory is taken before a name is added, so this is always `Ok`.
    pub fn new(alloc: Global) -> Result<Table, AllocError>
        ensures { result ≡ Ok [] }
    {
        Ok(Table {
            names: IndexSet::new(alloc),
        })
    }

    /// Makes room for so many more names, so that adding them moves none.
    pub fn reserve(&mut self, more: usize) -> Result<(), AllocError>
        ensures { self.new ≡ self.old }
    {
        self.names.reserve(more)
    }

    /// Whether 2^32 names stand in the table, so that none can be added.
    pub fn is_full(&self) -> bool
        ensures full { IsTrue result ↔ (most_names ≤ length self.now) }
        ensures distinct { AllDiffer self.now }
    {
        self.names.len() == MOST_NAMES
    }

    /// Adds a name behind the others, and gives its position.
    ///
    /// `Twice` comes exactly where the name stands already, with its position, and `Memory` only
    /// for a new name. After either the table is as it was.
    pub fn add(&mut self, name: &str) -> Result<u32, NameError>
        requires { length self.old < most_names }

        ensures last { IfOk result (λ position. position ≡ length self.old) }
        ensures added { OnOk result (self.new ≡ self.old ++ name.now ∷ []) }

        // The same fact twice: by the name at a position, and by the position of a name.
        ensures twice { (i : ℕ) →
            (result ≡ Err (NameError.Twice i)) ↔ (slice_get self.old i ≡ Some name.now) }
        ensures position { twice_of result ≡ position_of self.old name.now }

        ensures err { OnErr result (self.new ≡ self.old) }
        ensures distinct { AllDiffer self.new }
    {
        let alloc = *self.names.allocator();
        match String::from_str(alloc, name) {
            Ok(name) => self.add_owned(name),
            // Without memory a name that stands already is still known.
            Err(_) => match self.position_of(name) {
                Some(position) => Err(NameError::Twice(position)),
                None => Err(NameError::Memory),
            },
        }
    }

    /// The position of a name, or `Unknown` exactly where it does not stand in the table. Takes no
    /// memory.
    pub fn find(&self, name: &str) -> Result<u32, Unknown>
        ensures found { (i : ℕ) → (result ≡ Ok i) ↔ (slice_get self.now i ≡ Some name.now) }
        ensures known { IsOk result ↔ Contains self.now name.now }
        ensures position { result_ok result ≡ position_of self.now name.now }
        ensures distinct { AllDiffer self.now }
    {
        self.position_of(name).ok_or(Unknown)
    }

    /// The position of a name that stands in the table.
    fn position_of(&self, name: &str) -> Option<u32>
        ensures position { result ≡ position_of self.now name.now }
        ensures found { (i : ℕ) → (result ≡ Some i) ↔ (slice_get self.now i ≡ Some name.now) }
        ensures known { IsSome result ↔ Contains self.now name.now }
        ensures distinct { AllDiffer self.now }
    {
        let position = self.names.get_index_of(name)?;
        Some(position as u32)
    }

    /// Adds a name behind the others, or tells where it stands, by one look at the table.
    fn add_owned(&mut self, name: String) -> Result<u32, NameError>
        requires { length self.old < most_names }
        ensures last { IfOk result (λ position. position ≡ length self.old) }
        ensures added { OnOk result (self.new ≡ self.old ++ string_bytes name ∷ []) }
        ensures position { twice_of result ≡ position_of self.old (string_bytes name) }
        ensures err { OnErr result (self.new ≡ self.old) }
        ensures distinct { AllDiffer self.new }
    {
        let Ok((position, anew)) = self.names.insert_full(name) else {
            return Err(NameError::Memory);
        };
        let position = position as u32;
        if !anew {
            return Err(NameError::Twice(position));
        }
        Ok(position)
    }
}

/// Why a name was not added.
#[derive(Debug, Drop, Error)]
pub enum NameError {
    /// The name stands already, at this position.
    #[error("the name stands already at position {0}")]
    Twice(u32),
    /// No memory is left.
    #[error("out of memory")]
    Memory,
}

/// The name does not stand in the table.
#[derive(Debug, Drop, Error)]
#[error("unknown name")]
pub struct Unknown;

#[cfg(test)]
mod tests {
    use super::*;
    use std::test::Fail;

    #[test]
    fn names_have_the_positions_of_their_first_adding(rt: HostRuntime) -> Result<(), Fail> {
        let mut table = Table::new(rt.alloc())?;
        let rows = [
            ("pc", 0, true),
            ("mstatus", 1, true),
            ("pc", 0, false),
            ("µ", 2, true),
            ("", 3, true),
            ("µ", 2, false),
        ];
        for (name, position, is_new) in rows {
            assert!(rt; !table.is_full());
            assert_eq!(rt; table.find(name).is_err(), is_new, "{name}");
            match table.add(name) {
                Ok(given) => assert_eq!(rt; (given, true), (position, is_new), "{name}"),
                Err(NameError::Twice(given)) => assert_eq!(rt;
                    (given, false),
                    (position, is_new),
                    "{name}"
                ),
                Err(NameError::Memory) => Err(NameError::Memory)?,
            }
            assert_eq!(rt; table.find(name).ok(), Some(position), "{name}");
        }
        Ok(())
    }
}

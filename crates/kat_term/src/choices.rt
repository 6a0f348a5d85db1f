//! Lists of choices.

ghost use Rattle.std.specs.Prelude.{◌≡◌, ◌++◌, [], ◌∷◌, IfOk, OnOk, OnErr};

use sqlite_items::Items;
use std::alloc::{AllocError, Global};
use std::marker::Model;

/// The choices of a path, by the numbers of the options that were taken, in order. Contracts see
/// them as a list.
#[derive(Drop)]
pub struct Choices {
    alloc: Global,
    numbers: Items<u32>,
}

impl Model for Choices {
    ghost use Rattle.std.specs.Prelude.{List, ℕ};

    ghost Value = { List ℕ };

    ghost view = { λ c. c.numbers };
}

impl Choices {
    /// No choice yet. No memory is taken.
    pub fn new(alloc: Global) -> Choices
        ensures { result ≡ [] }
    {
        Choices {
            alloc,
            numbers: Items::new(alloc),
        }
    }

    /// Equal choices.
    pub fn copy(&self) -> Result<Choices, AllocError>
        ensures { IfOk result (λ c. c ≡ self.now) }
    {
        Ok(Choices {
            alloc: self.alloc,
            numbers: Items::from_slice(self.alloc, self.numbers.as_slice())?,
        })
    }

    /// The numbers of the options that were taken, in order.
    pub fn as_slice(&self) -> &[u32]
        ensures { result.now ≡ self.now }
    {
        self.numbers.as_slice()
    }

    /// Adds the option that is taken at the end.
    pub fn push(&mut self, option: u32) -> Result<(), AllocError>
        ensures pushed { OnOk result (self.new ≡ self.old ++ option ∷ []) }
        ensures kept { OnErr result (self.new ≡ self.old) }
    {
        self.numbers.push(option)
    }
}

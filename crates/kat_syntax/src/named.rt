//! Names with an item each, looked up by a hash table. The first item of a name stays.

ghost use Rattle.std.specs.Prelude.{◌≡◌, [], IfOk, OnOk};
ghost use Rattle.kat_syntax.specs.NamedItems.{added, found};

use kat_names::{NameError, Table};
use kat_text::Text;
use sqlite_items::Items;
use std::alloc::{AllocError, Global};
use std::marker::Model;

/// Names, and the item of each.
#[derive(Drop)]
pub struct Named<T> {
    names: Table,
    items: Items<T>,
}

impl<T> Model for Named<T> {
    ghost use Rattle.std.specs.Prelude.{◌≡◌, List, length};
    ghost use Rattle.kat_syntax.specs.NamedItems.{Item, items_of};

    ghost Value = { List (Item T) };

    ghost view = { λ n. items_of n.names n.items };

    ghost invariant = { λ n. length n.names ≡ length n.items };
}

impl<T: Copy + Drop> Named<T> {
    /// No names.
    pub fn new(alloc: Global) -> Result<Named<T>, AllocError>
        ensures { IfOk result (λ named. named ≡ []) }
    {
        Ok(Named::empty(alloc))
    }

    /// No names: they take no memory.
    pub fn empty(alloc: Global) -> Named<T>
        ensures { result ≡ [] }
    {
        match Table::new(alloc) {
            Ok(names) => Named {
                names,
                items: Items::new(alloc),
            },
            Err(_) => unreachable!(),
        }
    }

    /// Makes room for so many more names.
    pub fn reserve(&mut self, more: usize) -> Result<(), AllocError>
        ensures { self.new ≡ self.old }
    {
        self.names.reserve(more)
    }

    /// Adds a name with its item, where the name is not there already. 2^32 names are taken for
    /// more than memory holds.
    pub fn add(&mut self, name: &Text, item: T) -> Result<(), AllocError>
        ensures { OnOk result (self.new ≡ added self.old name.now item) }
    {
        if self.names.is_full() {
            return Err(AllocError);
        }
        self.items.push(item)?;
        match self.names.add(name.as_str()) {
            Ok(_) => Ok(()),
            Err(NameError::Twice(_)) => {
                let _item = self.items.pop();
                Ok(())
            }
            Err(NameError::Memory) => {
                let _item = self.items.pop();
                Err(AllocError)
            }
        }
    }

    /// The item of a name.
    pub fn find(&self, name: &Text) -> Option<T>
        ensures { result ≡ found self.now name.now }
    {
        self.find_word(name.as_str())
    }

    /// The item of a name, which is not a text of its own.
    pub fn find_word(&self, name: &str) -> Option<T>
        ensures { result ≡ found self.now name.now }
    {
        let at = self.names.find(name).ok()?;
        self.items.get(at as usize).copied()
    }
}

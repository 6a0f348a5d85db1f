//! Names, each with its place and its meaning, in few bytes.

ghost use Rattle.std.specs.Prelude.{◌≡◌, ◌<◌, [], length, slice_get, IsTrue, Some, IfOk, OnOk, OnErr};
ghost use Rattle.kat_tables.specs.Entries.{found_in, IsPut};
ghost use Rattle.kat_tables.specs.KeptNames.{placed_by, HasAtMost};

use crate::seen::{CtorSeen, RegisterSeen, Stand};
use indexmap::IndexMap;
use kat_value::same_type;
use sqlite_items::Items;
use std::alloc::{AllocError, Global};
use std::marker::Model;

/// Names, each with its place and its meaning. An entry has 12 bytes beside the name: the place and
/// the number of the meaning in a list, since on a text of many names the time goes into memory
/// traffic. Names in a row that are seen to mean the same, as the members of an enum, share one
/// meaning. Contracts see each name with what it is.
#[derive(Drop)]
pub struct PlacedNames<'a> {
    names: IndexMap<&'a str, Kept>,
    meanings: Items<Meaning>,
}

/// What a declared name is, and where it stands.
#[derive(Clone, Copy, Drop)]
pub struct Placed {
    pub at: Stand,
    pub meaning: Meaning,
}

/// Where a declared name stands, and the number of its meaning.
#[derive(Clone, Copy, Drop)]
pub struct Kept {
    pub at: Stand,
    pub meaning: u32,
}

/// What a declared name is, as far as the tables keep it.
#[derive(Clone, Copy, Drop)]
pub enum Meaning {
    AType,
    AMember(u32),
    ACtor(CtorSeen),
    ARegister(RegisterSeen),
    ARegion,
    APredicate,
    AFunction,
    ALemma,
    ABlock,
}

impl<'a> Model for PlacedNames<'a> {
    ghost use Rattle.std.specs.Prelude.{length};
    ghost use Rattle.kat_tables.specs.Entries.{Entries};
    ghost use Rattle.kat_tables.specs.declared.placed.Placed.{Placed};
    ghost use Rattle.kat_tables.specs.KeptNames.{all_placed, AreBelow};

    ghost Value = { Entries Placed };

    ghost view = { λ p. all_placed p.meanings p.names.entries };

    ghost invariant = { λ p. AreBelow (length p.meanings) p.names.entries };
}

impl<'a> PlacedNames<'a> {
    /// No names.
    pub fn new(alloc: Global) -> PlacedNames<'a>
        ensures { result ≡ [] }
    {
        PlacedNames {
            names: IndexMap::new(alloc),
            meanings: Items::new(alloc),
        }
    }

    /// Makes room for so many more names.
    pub fn reserve(&mut self, more: usize) -> Result<(), AllocError>
        ensures { self.new ≡ self.old }
    {
        self.names.reserve(more)
    }

    /// Lets a name be this, and gives what it was. 2^32 meanings are taken for more than memory
    /// holds.
    pub fn insert(&mut self, name: &'a str, one: &Placed) -> Result<Option<Placed>, AllocError>
        ensures old { IfOk result (λ old. old ≡ found_in self.old name.now) }
        ensures names { OnOk result (IsPut self.old name.now one.now self.new) }
        ensures err { OnErr result (self.new ≡ self.old) }
    {
        let meaning = number_of(&mut self.meanings, one.meaning)?;
        match self.names.insert(
            name,
            Kept {
                at: one.at,
                meaning,
            },
        ) {
            Ok(Some(first)) => Ok(Some(with_meaning(self.meanings.as_slice(), &first))),
            Ok(None) => Ok(None),
            Err(_) => Err(AllocError),
        }
    }

    /// What a name is. It is looked for first at the index `near`, which becomes the one behind it:
    /// names that are asked in the order in which they were added are found there, in memory that
    /// lies in a row.
    pub fn get_near(&self, near: &mut usize, name: &str) -> Option<Placed>
        ensures { result ≡ found_in self.now name.now }
    {
        match self.names.get_index(*near) {
            Some((key, one)) if *key == name => {
                *near = near.saturating_add(1);
                Some(with_meaning(self.meanings.as_slice(), one))
            }
            _ => self.get_behind(near, name),
        }
    }

    /// What a name is, with the index behind it where it is there.
    fn get_behind(&self, near: &mut usize, name: &str) -> Option<Placed>
        ensures { result ≡ found_in self.now name.now }
    {
        match self.names.get_full(name) {
            Some((index, _, one)) => {
                *near = index.saturating_add(1);
                Some(with_meaning(self.meanings.as_slice(), one))
            }
            None => None,
        }
    }

    /// What a name is.
    pub fn get(&self, name: &str) -> Option<Placed>
        ensures { result ≡ found_in self.now name.now }
    {
        match self.names.get(name) {
            Some(one) => Some(with_meaning(self.meanings.as_slice(), one)),
            None => None,
        }
    }
}

/// The number of a meaning, which becomes the last of these, unless the last is the same.
fn number_of(meanings: &mut Items<Meaning>, meaning: Meaning) -> Result<u32, AllocError>
    ensures number { IfOk result (λ number. slice_get meanings.new number ≡ Some meaning) }
    ensures kept { HasAtMost meanings.old meaning meanings.new }
{
    let count = meanings.len();
    if count > u32::MAX as usize {
        return Err(AllocError);
    }
    if let Some(last) = meanings.as_slice().last() {
        if is_same(last, &meaning) {
            return Ok((count - 1) as u32);
        }
    }
    meanings.push(meaning)?;
    Ok(count as u32)
}

/// What a kept name is, with its meaning among these.
fn with_meaning(meanings: &[Meaning], one: &Kept) -> Placed
    requires { one.now.meaning < length meanings.now }
    ensures { result ≡ placed_by meanings.now one.now }
{
    Placed {
        at: one.at,
        meaning: meanings[one.meaning as usize],
    }
}

/// Whether two meanings are seen to be the same. Registers, of which there are few, are not
/// compared.
fn is_same(one: &Meaning, other: &Meaning) -> bool
    ensures { IsTrue result → one.now ≡ other.now }
{
    match (one, other) {
        (Meaning::AType, Meaning::AType) => true,
        (Meaning::AMember(one), Meaning::AMember(other)) => *one == *other,
        (Meaning::ACtor(one), Meaning::ACtor(other)) => is_same_ctor(one, other),
        (Meaning::ARegion, Meaning::ARegion) => true,
        (Meaning::APredicate, Meaning::APredicate) => true,
        (Meaning::AFunction, Meaning::AFunction) => true,
        (Meaning::ALemma, Meaning::ALemma) => true,
        (Meaning::ABlock, Meaning::ABlock) => true,
        _ => false,
    }
}

/// Whether two constructors are seen to be of one union, and to have payloads of one type.
fn is_same_ctor(one: &CtorSeen, other: &CtorSeen) -> bool
    ensures { IsTrue result → one.now ≡ other.now }
{
    match (one.payload, other.payload) {
        (Some(first), Some(second)) => one.of == other.of && same_type(first, second),
        _ => false,
    }
}

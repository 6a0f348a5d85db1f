//! All declared names, with what each is.

ghost use Rattle.std.specs.Prelude.{◌≡◌, [], ◌∷◌, ◌++◌, true, List, OnOk, unwrap_or, option_and_then};
ghost use Rattle.std.specs.Option.{option_copied};
ghost use Rattle.kat_tables.specs.Meanings.{Noted, IsKinds, IsPut, firsts_of, firsts_both, found, found_in, once_in};
ghost use Rattle.kat_tables.specs.Meanings.{place_of, member_of, ctor_of, register_of, region_of, predicate_of, function_of, lemma_of, block_of};

use crate::placed::{Meaning, Placed, PlacedNames};
use crate::seen::{CtorSeen, RegisterSeen, Stand};
use indexmap::IndexMap;
use kat_text::Text;
use std::alloc::{AllocError, Global};

/// All declared names, in one table, each with its first place and its meaning there; and what
/// those that stand twice are, in a table of their own, which a typed specification leaves empty.
#[derive(Drop)]
pub struct Kinds<'a> {
    names: PlacedNames<'a>,
    again: IndexMap<&'a str, Firsts>,
}

/// The first meaning of a name of each kind.
#[derive(Clone, Copy, Drop)]
pub struct Firsts {
    pub member: Option<u32>,
    pub ctor: Option<CtorSeen>,
    pub register: Option<RegisterSeen>,
    pub region: Option<u32>,
    pub predicate: Option<u32>,
    pub function: Option<u32>,
    pub lemma: Option<u32>,
    pub block: Option<u32>,
}

impl<'a> Kinds<'a> {
    /// No names.
    pub fn new(alloc: Global) -> Kinds<'a>
        ensures { IsKinds [] result }
    {
        Kinds {
            names: PlacedNames::new(alloc),
            again: IndexMap::new(alloc),
        }
    }

    /// Makes room for so many more names.
    pub fn reserve(&mut self, more: usize) -> Result<(), AllocError>
        ensures { (all : List Noted) → IsKinds all self.old →
            OnOk result (IsKinds all self.new) }
    {
        self.names.reserve(more)
    }

    /// Adds a name with its place and its meaning.
    pub fn add(&mut self, at: Stand, name: &'a Text, meaning: Meaning) -> Result<(), AllocError>
        ensures { (all : List Noted) → IsKinds all self.old →
            OnOk result (IsKinds
            (all ++ record { stand = at; name = name.now; meaning = meaning } ∷ []) self.new) }
    {
        self.put(name.as_str(), &Placed { at, meaning })
    }

    /// Adds a name with what it is.
    fn put(&mut self, name: &'a str, one: &Placed) -> Result<(), AllocError>
        ensures { (all : List Noted) → IsKinds all self.old →
            OnOk result (IsKinds (all ++ record {
              stand = one.now.at;
              name = name.now;
              meaning = one.now.meaning;
            } ∷ []) self.new) }
    {
        match self.names.insert(name, one) {
            Ok(None) => Ok(()),
            Ok(Some(first)) => self.put_back(name, &first, one),
            Err(error) => Err(error),
        }
    }

    /// Lets a name be what it was first, and notes what it is further on.
    fn put_back(&mut self, name: &'a str, first: &Placed, later: &Placed) -> Result<(), AllocError>
        ensures names { OnOk result (IsPut self.old.names name.now first.now
            self.new.names) }
        ensures again { OnOk result (IsPut self.old.again.entries name.now (firsts_both
            (unwrap_or (found_in self.old.again.entries name.now) (firsts_of first.now))
            (firsts_of later.now)) self.new.again.entries) }
    {
        match self.names.insert(name, first) {
            Ok(_) => put_again(&mut self.again, name, first, later),
            Err(error) => Err(error),
        }
    }

    /// Whether each name stands once.
    pub fn are_once(&self) -> bool
        ensures { result ≡ true → self.now.again.entries ≡ [] }
    {
        self.again.is_empty()
    }

    /// The first place of a name.
    pub fn place(&self, name: &Text) -> Option<Stand>
        ensures { result ≡ place_of self.now name.now }
    {
        match self.names.get(name.as_str()) {
            Some(one) => Some(one.at),
            None => None,
        }
    }

    /// The first place of a name, which is looked for near an index of the names in their order.
    pub fn place_near(&self, near: &mut usize, name: &Text) -> Option<Stand>
        ensures { result ≡ place_of self.now name.now }
    {
        match self.names.get_near(near, name.as_str()) {
            Some(one) => Some(one.at),
            None => None,
        }
    }

    /// The enum of a member.
    pub fn member(&self, name: &Text) -> Option<u32>
        ensures { result ≡ option_and_then member_of (found self.now name.now) }
    {
        match self.find(name) {
            Some(firsts) => firsts.member,
            None => None,
        }
    }

    /// A constructor.
    pub fn ctor(&self, name: &Text) -> Option<CtorSeen>
        ensures { result ≡ option_and_then ctor_of (found self.now name.now) }
    {
        match self.find(name) {
            Some(firsts) => firsts.ctor,
            None => None,
        }
    }

    /// A register.
    pub fn register(&self, name: &Text) -> Option<RegisterSeen>
        ensures { result ≡ option_and_then register_of (found self.now name.now) }
    {
        match self.find(name) {
            Some(firsts) => firsts.register,
            None => None,
        }
    }

    /// The declaration of a region.
    pub fn region(&self, name: &Text) -> Option<u32>
        ensures { result ≡ option_and_then region_of (found self.now name.now) }
    {
        match self.find(name) {
            Some(firsts) => firsts.region,
            None => None,
        }
    }

    /// The declaration of a predicate.
    pub fn predicate(&self, name: &Text) -> Option<u32>
        ensures { result ≡ option_and_then predicate_of (found self.now name.now) }
    {
        match self.find(name) {
            Some(firsts) => firsts.predicate,
            None => None,
        }
    }

    /// The declaration of a function.
    pub fn function(&self, name: &Text) -> Option<u32>
        ensures { result ≡ option_and_then function_of (found self.now name.now) }
    {
        match self.find(name) {
            Some(firsts) => firsts.function,
            None => None,
        }
    }

    /// The declaration of a lemma.
    pub fn lemma(&self, name: &Text) -> Option<u32>
        ensures { result ≡ option_and_then lemma_of (found self.now name.now) }
    {
        match self.find(name) {
            Some(firsts) => firsts.lemma,
            None => None,
        }
    }

    /// The declaration of a block.
    pub fn block(&self, name: &Text) -> Option<u32>
        ensures { result ≡ option_and_then block_of (found self.now name.now) }
    {
        match self.find(name) {
            Some(firsts) => firsts.block,
            None => None,
        }
    }

    /// What a name is.
    fn find(&self, name: &Text) -> Option<Firsts>
        ensures { result ≡ found self.now name.now }
    {
        match self.again.get(name.as_str()) {
            Some(firsts) => Some(*firsts),
            None => self.find_once(name.as_str()),
        }
    }

    /// What a name is that stands once.
    fn find_once(&self, name: &str) -> Option<Firsts>
        ensures { result ≡ once_in self.now.names name.now }
    {
        match self.names.get(name) {
            Some(one) => Some(Firsts::of(&one)),
            None => None,
        }
    }
}

/// Notes what a name, which was this first, is further on.
fn put_again<'a>(
    again: &mut IndexMap<&'a str, Firsts>,
    name: &'a str,
    first: &Placed,
    later: &Placed,
) -> Result<(), AllocError>
    ensures { OnOk result (IsPut again.old.entries name.now (firsts_both
        (unwrap_or (found_in again.old.entries name.now) (firsts_of first.now))
        (firsts_of later.now)) again.new.entries) }
{
    let before = known_or(again.get(name), first);
    match again.insert(name, before.or(Firsts::of(later))) {
        Ok(_) => Ok(()),
        Err(_) => Err(AllocError),
    }
}

/// What a name is known to be, or what it was first.
fn known_or(known: Option<&Firsts>, first: &Placed) -> Firsts
    ensures { result ≡ unwrap_or (option_copied known.entry) (firsts_of first.now) }
{
    match known {
        Some(firsts) => *firsts,
        None => Firsts::of(first),
    }
}

impl Firsts {
    /// A name that stands once.
    fn of(one: &Placed) -> Firsts
        ensures { result ≡ firsts_of one.now }
    {
        let decl = one.at.decl;
        let none = Firsts {
            member: None,
            ctor: None,
            register: None,
            region: None,
            predicate: None,
            function: None,
            lemma: None,
            block: None,
        };
        match one.meaning {
            Meaning::AType => none,
            Meaning::AMember(of) => Firsts {
                member: Some(of),
                ..none
            },
            Meaning::ACtor(seen) => Firsts {
                ctor: Some(seen),
                ..none
            },
            Meaning::ARegister(seen) => Firsts {
                register: Some(seen),
                ..none
            },
            Meaning::ARegion => Firsts {
                region: Some(decl),
                ..none
            },
            Meaning::APredicate => Firsts {
                predicate: Some(decl),
                ..none
            },
            Meaning::AFunction => Firsts {
                function: Some(decl),
                ..none
            },
            Meaning::ALemma => Firsts {
                lemma: Some(decl),
                ..none
            },
            Meaning::ABlock => Firsts {
                block: Some(decl),
                ..none
            },
        }
    }

    /// A name that is this, and is something else further on.
    fn or(&self, later: Firsts) -> Firsts
        ensures { result ≡ firsts_both self.now later }
    {
        Firsts {
            member: self.member.or(later.member),
            ctor: self.ctor.or(later.ctor),
            register: self.register.or(later.register),
            region: self.region.or(later.region),
            predicate: self.predicate.or(later.predicate),
            function: self.function.or(later.function),
            lemma: self.lemma.or(later.lemma),
            block: self.block.or(later.block),
        }
    }
}

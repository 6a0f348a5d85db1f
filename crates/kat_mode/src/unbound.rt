//! The names that are unbound at a place of a reading.

ghost use Rattle.std.specs.Prelude.{◌≡◌, ◌≤◌, ◌∷◌, ◌++◌, [], false, length, take, drop, unwrap_or, IfOk, OnOk};
ghost use Rattle.kat_syntax.specs.Modes.{names_of};
ghost use Rattle.kat_mode.specs.Flags.{flag_in};
ghost use Rattle.kat_mode.specs.Turning.{is_unbound, unbound_too, bound_too, all_unbound, all_bound, bound_among, all_but_last};
ghost use Rattle.kat_mode.specs.Names.{texts};

use indexmap::IndexMap;
use kat_syntax::Param;
use kat_text::Text;
use sqlite_items::Items;
use std::alloc::{AllocError, Global};
use std::marker::Model;

/// The names that turned from bound to unbound or back, in order, with a flag for each name that
/// ever turned: whether it is unbound. In the beginning all names are bound. Contracts see the list
/// of the names that turned.
#[derive(Drop)]
pub struct Unbound<'a> {
    flags: IndexMap<&'a str, bool>,
    turned: Items<&'a Text>,
}

impl<'a> Model for Unbound<'a> {
    ghost use Rattle.std.specs.Prelude.{List};
    ghost use Rattle.kat_syntax.specs.Tables.{Name};
    ghost use Rattle.kat_mode.specs.Flags.{HasFlags};
    ghost use Rattle.kat_mode.specs.Names.{texts};

    ghost Value = { List Name };

    ghost view = { λ u. texts u.turned };

    ghost invariant = { λ u. HasFlags u.flags.entries (texts u.turned) };
}

impl<'a> Unbound<'a> {
    /// No name is unbound.
    pub fn none(alloc: Global) -> Unbound<'a>
        ensures { result ≡ [] }
    {
        Unbound {
            flags: IndexMap::new(alloc),
            turned: Items::new(alloc),
        }
    }

    /// Whether a name is unbound.
    pub fn has(&self, name: &Text) -> bool
        ensures { result ≡ is_unbound self.now name.now }
    {
        has_flag(&self.flags, name)
    }

    /// Lets a name be unbound.
    pub fn unbind(&mut self, name: &'a Text) -> Result<(), AllocError>
        ensures { OnOk result (self.new ≡ unbound_too self.old name.now) }
    {
        if self.has(name) {
            return Ok(());
        }
        self.turn(name)
    }

    /// Lets the names of parameters be unbound.
    pub fn unbind_all(&mut self, params: &'a [Param]) -> Result<(), AllocError>
        ensures { OnOk result (self.new ≡ all_unbound self.old (names_of params.now)) }
    {
        for param in params {
            self.unbind(&param.name)?;
        }
        Ok(())
    }

    /// Binds a name.
    pub fn bind(&mut self, name: &'a Text) -> Result<(), AllocError>
        ensures { OnOk result (self.new ≡ bound_too self.old name.now) }
    {
        if !self.has(name) {
            return Ok(());
        }
        self.turn(name)
    }

    /// Binds names.
    pub fn bind_all(&mut self, names: &[&'a Text]) -> Result<(), AllocError>
        ensures { OnOk result (self.new ≡ all_bound self.old (texts names.now)) }
    {
        for name in names {
            self.bind(*name)?;
        }
        Ok(())
    }

    /// How often a name turned so far.
    pub fn turns(&self) -> usize
        ensures { result ≡ length self.now }
    {
        self.turned.len()
    }

    /// Those names that turned behind the first so many, and are bound now.
    pub fn bound_since(&self, turns: usize) -> Result<Items<&'a Text>, AllocError>
        requires { turns ≤ length self.now }
        ensures { IfOk result (λ names. texts names ≡ bound_among self.now (drop turns self.now)) }
    {
        self.bound_among(&self.turned.as_slice()[turns..])
    }

    /// Those of names that are bound now.
    pub fn bound_among(&self, names: &[&'a Text]) -> Result<Items<&'a Text>, AllocError>
        ensures { IfOk result (λ bound. texts bound ≡ bound_among self.now (texts names.now)) }
    {
        let mut bound = Items::new(*self.flags.allocator());
        for name in names {
            if !self.has(*name) {
                bound.push(*name)?;
            }
        }
        Ok(bound)
    }

    /// Turns all names back that turned behind the first so many. No memory is taken.
    pub fn turn_back(&mut self, turns: usize)
        requires { turns ≤ length self.old }
        ensures { self.new ≡ take turns self.old }
    {
        while self.turned.len() > turns {
            self.turn_last_back();
        }
    }

    /// Turns the last name back that turned, if one did.
    fn turn_last_back(&mut self)
        ensures { self.new ≡ all_but_last self.old }
    {
        if let Some(name) = self.turned.pop() {
            let is_unbound = has_flag(&self.flags, name);
            match self.flags.insert(name.as_str(), !is_unbound) {
                Ok(_) => {}
                Err(_) => unreachable!(),
            }
        }
    }

    /// Turns a name.
    fn turn(&mut self, name: &'a Text) -> Result<(), AllocError>
        ensures { OnOk result (self.new ≡ self.old ++ name.now ∷ []) }
    {
        let is_unbound = has_flag(&self.flags, name);
        self.turned.push(name)?;
        match self.flags.insert(name.as_str(), !is_unbound) {
            Ok(_) => Ok(()),
            Err(_) => {
                let _name = self.turned.pop();
                Err(AllocError)
            }
        }
    }
}

/// The flag of a name; one that never turned is bound.
fn has_flag(flags: &IndexMap<&str, bool>, name: &Text) -> bool
    ensures { result ≡ unwrap_or (flag_in flags.now.entries name.now) false }
{
    flags.get(name.as_str()).copied().unwrap_or(false)
}

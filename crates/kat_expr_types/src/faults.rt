//! The least fault so far.

ghost use Rattle.std.specs.Prelude.{◌≡◌, None};
ghost use Rattle.kat_syntax.specs.TypeRules.{comes_before, earlier, least_with, unless};

use kat_syntax::TypeRule;
use std::marker::Model;

/// A fault in a declaration: the tree where it stands, the declaration being tree 0, and the
/// condition that holds there.
#[derive(Clone, Copy, Drop)]
pub struct Fault {
    tree: u32,
    rule: TypeRule,
}

impl Model for Fault {
    ghost use Rattle.kat_syntax.specs.TypeRules.{Fault as FaultSeen};

    ghost Value = { FaultSeen };

    ghost view = { λ f. record { tree = f.tree; rule = f.rule } };

    ghost inverse = { λ f. record { tree = f.tree; rule = f.rule } };
}

/// The least of the faults that were noted, in the order of trees and then of conditions.
#[derive(Drop)]
pub struct Faults {
    least: Option<Fault>,
}

impl Model for Faults {
    ghost use Rattle.std.specs.Prelude.{Option};
    ghost use Rattle.kat_syntax.specs.TypeRules.{Fault as FaultSeen};

    ghost Value = { Option FaultSeen };

    ghost view = { λ f. f.least };
}

impl Faults {
    /// No faults.
    pub fn new() -> Faults
        ensures { result ≡ None }
    {
        Faults { least: None }
    }

    /// The least fault, if there is one.
    pub fn least(&self) -> Option<Fault>
        ensures { result ≡ self.now }
    {
        self.least
    }

    /// Notes a fault of this condition at this tree, unless it is met.
    pub fn unless(&mut self, met: bool, tree: u32, rule: TypeRule)
        ensures { self.new ≡ least_with self.old (unless met tree rule) }
    {
        if !met {
            self.note(Fault { tree, rule });
        }
    }

    /// Notes a fault.
    fn note(&mut self, fault: Fault)
        ensures { self.new ≡ earlier self.old fault }
    {
        let is_least = match &self.least {
            None => true,
            Some(least) => fault.comes_before(least),
        };
        if is_least {
            self.least = Some(fault);
        }
    }
}

impl Fault {
    /// The tree where it stands.
    pub fn tree(&self) -> u32
        ensures { result ≡ self.now.tree }
    {
        self.tree
    }

    /// The condition that holds there.
    pub fn rule(&self) -> TypeRule
        ensures { result ≡ self.now.rule }
    {
        self.rule
    }

    /// Whether it comes before another.
    fn comes_before(&self, other: &Fault) -> bool
        ensures { result ≡ comes_before self.now other.now }
    {
        self.tree < other.tree || (self.tree == other.tree && self.rule.code() < other.rule.code())
    }
}

//! Where an expression stands, and what is known of a form.

ghost use Rattle.std.specs.Prelude.{◌≡◌};
ghost use Rattle.kat_syntax.specs.declared.type_rule.TypeRule.TheVariants.{NameUnknown};
ghost use Rattle.kat_syntax.specs.TypeRules.{least_with, unless};
ghost use Rattle.kat_syntax.specs.TypingExpressions.{wanting};
ghost use Rattle.kat_syntax.specs.TypingStatements.{without_memory};
ghost use Rattle.kat_expr_types.specs.declared.setting.Standing.TheVariants.{Plain};

use crate::faults::Faults;
use crate::scope::Scope;
use kat_syntax::TypeRule;
use kat_tables::Around;
use kat_value::{Ty, agree};

/// Where an expression stands.
#[derive(Clone, Copy, PartialEq, Eq, Drop)]
pub enum Standing {
    /// In a statement, a guard, or an assertion of a predicate, a contract or a lemma.
    Plain,
    /// In a condition of the dispatch.
    InDispatch,
    /// In an assertion with kept values: the untrusted assertion, and entries.
    WithKept,
    /// In the change of a block.
    InChange,
}

/// What stands around an expression: the declarations, the names in scope, and where it stands.
#[derive(Clone, Copy, Drop)]
pub struct Setting<'s, 't, 'd> {
    pub around: &'s Around<'t, 'd>,
    pub standing: Standing,
    pub scope: &'s Scope<'s, 't, 'd>,
}

/// How many trees a form has, and its type where something fixes it.
#[derive(Clone, Copy, Drop)]
pub struct Known {
    pub trees: u32,
    pub ty: Option<Ty>,
}

impl<'s, 't, 'd> Setting<'s, 't, 'd> {
    /// An expression that stands so, among these declarations and in this scope.
    pub fn new(
        around: &'s Around<'t, 'd>,
        standing: Standing,
        scope: &'s Scope<'s, 't, 'd>,
    ) -> Setting<'s, 't, 'd>
        ensures around { result.around.now ≡ around.now }
        ensures standing { result.standing ≡ standing }
        ensures scope { result.scope.now ≡ scope.now }
    {
        Setting {
            around,
            standing,
            scope,
        }
    }

    /// An expression of a statement, a guard, or an assertion without kept values.
    pub fn plain(around: &'s Around<'t, 'd>, scope: &'s Scope<'s, 't, 'd>) -> Setting<'s, 't, 'd>
        ensures around { result.around.now ≡ around.now }
        ensures standing { result.standing ≡ Plain }
        ensures scope { result.scope.now ≡ scope.now }
    {
        Setting::new(around, Standing::Plain, scope)
    }
}

impl Known {
    /// A form of so many trees, of this type.
    pub fn new(trees: u32, ty: Option<Ty>) -> Known
        ensures { result ≡ record { trees = trees; ty = ty } }
    {
        Known { trees, ty }
    }
}

/// Notes the fault of a tree that is of another type than the one wanted.
pub fn judge_wanting(wanted: Option<Ty>, at: u32, ty: Option<Ty>, faults: &mut Faults)
    ensures { faults.new ≡ least_with faults.old (wanting wanted at ty) }
{
    faults.unless(agree(wanted, ty), at, TypeRule::TypeOther);
}

/// Notes the fault of a name at this tree of which nothing of the kind wanted is there.
pub fn judge_known(is_known: bool, at: u32, faults: &mut Faults)
    ensures { faults.new ≡ least_with faults.old (unless is_known at NameUnknown) }
{
    faults.unless(is_known, at, TypeRule::NameUnknown);
}

/// Notes the fault of what needs a memory before it, at this tree.
pub fn judge_memory(around: &Around<'_, '_>, at: u32, faults: &mut Faults)
    ensures { faults.new ≡ least_with faults.old (without_memory around.now at) }
{
    faults.unless(
        around.memory_before().is_some(),
        at,
        TypeRule::MemoryMissing,
    );
}

//! Typing of what has to stand once: `step`, `dispatch`, `untrusted` and `boot`.

ghost use Rattle.std.specs.Prelude.{◌≡◌, ◌<◌, ◌^◌, not, OnOk};
ghost use Rattle.std.specs.List.{list_any};
ghost use Rattle.kat_ast.specs.declared.decl.DeclForm.TheVariants as decl;
ghost use Rattle.kat_ast.specs.Declarations.{trees_of_decl};
ghost use Rattle.kat_syntax.specs.declared.type_rule.TypeRule.TheVariants.{NotOnce};
ghost use Rattle.kat_syntax.specs.TypeRules.{least_with, unless};
ghost use Rattle.kat_syntax.specs.TypingDeclarations.{inner_faults, is_second};
ghost use Rattle.kat_typing.specs.Kinds.{is_once};

use kat_expr_types::{Base, Faults, Scope, Setting, Standing, judge_known};
use kat_stm_types::judge_assertion;
use kat_syntax::{Assertion, Decl, DeclForm, TypeRule};
use kat_tables::Around;
use kat_text::Text;
use kat_value::{Ty, agree};
use std::alloc::{AllocError, Global};

/// What has to stand once.
#[derive(Clone, Copy, PartialEq, Eq, Drop)]
pub enum Once {
    Step,
    Dispatch,
    Untrusted,
    Boot,
}

impl Once {
    /// Whether a declaration is one.
    fn is_here(self, decl: &DeclForm) -> bool
        ensures { result ≡ is_once self decl.now }
    {
        match self {
            Once::Step => matches!(decl, DeclForm::Step(_)),
            Once::Dispatch => matches!(decl, DeclForm::Dispatch { .. }),
            Once::Untrusted => matches!(decl, DeclForm::Untrusted(_)),
            Once::Boot => matches!(decl, DeclForm::Boot(_)),
        }
    }

    /// Whether any declaration is one.
    pub fn is_among(self, decls: &[Decl]) -> bool
        ensures { result ≡ list_any (is_once self) decls.now }
    {
        for decl in decls {
            if self.is_here(decl.form()) {
                return true;
            }
        }
        false
    }
}

/// Notes the fault of a second one.
pub fn judge_once(around: &Around<'_, '_>, once: Once, faults: &mut Faults)
    ensures { faults.new ≡ least_with faults.old
        (unless (not (is_second (is_once once) around.now)) 0 NotOnce) }
{
    faults.unless(!once.is_among(around.before()), 0, TypeRule::NotOnce);
}

/// `(step f)`: a function with no parameters that is unit.
#[tactic(auto, using(crate::proofs::Noting::least_both))]
pub fn judge_step(around: &Around<'_, '_>, name: &Text, faults: &mut Faults)
    ensures { faults.new ≡ least_with faults.old
        (inner_faults around.now (decl.Step name.now)) }
{
    match around.function(name) {
        Some(seen) => {
            let may_step = seen.params().len() == 0 && agree(Some(Ty::Unit), seen.ty());
            faults.unless(may_step, 2, TypeRule::NotOnce);
        }
        None => judge_known(false, 2, faults),
    }
    judge_once(around, Once::Step, faults);
}

/// `(boot x)`
#[tactic(auto, using(crate::proofs::Noting::least_both))]
pub fn judge_boot(around: &Around<'_, '_>, name: &Text, faults: &mut Faults)
    ensures { faults.new ≡ least_with faults.old
        (inner_faults around.now (decl.Boot name.now)) }
{
    judge_known(around.has_block(name), 2, faults);
    judge_once(around, Once::Boot, faults);
}

/// `(untrusted A)`
#[tactic(auto, using(crate::proofs::Noting::least_both))]
pub fn judge_untrusted(
    alloc: Global,
    around: &Around<'_, '_>,
    holds: &Assertion,
    faults: &mut Faults,
) -> Result<(), AllocError>
    requires { trees_of_decl (decl.Untrusted holds.now) < 2 ^ 32 }
    ensures { OnOk result (faults.new ≡ least_with faults.old
        (inner_faults around.now (decl.Untrusted holds.now))) }
{
    let base = Base::empty(alloc)?;
    let scope = Scope::Base(&base);
    let setting = Setting::new(&*around, Standing::WithKept, &scope);
    judge_assertion(&setting, 2, holds, faults);
    judge_once(around, Once::Untrusted, faults);
    Ok(())
}

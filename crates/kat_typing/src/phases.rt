//! Typing of the dispatch and of blocks.

ghost use Rattle.std.specs.Prelude.{◌≡◌, ◌+◌, ◌<◌, ◌^◌, ◌&&◌, nat_le, OnOk};
ghost use Rattle.kat_ast.specs.declared.decl.DeclForm.TheVariants as decl;
ghost use Rattle.kat_ast.specs.Declarations.{trees_of_decl, trees_of_phase};
ghost use Rattle.kat_syntax.specs.Limits.{most_within};
ghost use Rattle.kat_syntax.specs.TypeRules.{least_with};
ghost use Rattle.kat_syntax.specs.TypingDeclarations.{inner_faults, phase_faults, when_faults};

use crate::once::{Once, judge_once};
use kat_expr_types::{Base, Faults, Scope, Setting, Standing, judge_known};
use kat_stm_types::{judge_assertion, judge_truth};
use kat_syntax::{Block, Phase, TypeRule, When};
use kat_tables::Around;
use sqlite_items::Items;
use std::alloc::{AllocError, Global};

/// The most cycles of a block.
const MOST_WITHIN: u64 = 256;

/// The dispatch: its cases and the phase behind them.
pub fn judge_dispatch(
    alloc: Global,
    around: &Around<'_, '_>,
    cases: &Items<When>,
    otherwise: &Phase,
    faults: &mut Faults,
) -> Result<(), AllocError>
    requires { trees_of_decl (decl.Dispatch cases.now otherwise.now) < 2 ^ 32 }
    ensures { OnOk result (faults.new ≡ least_with faults.old
        (inner_faults around.now (decl.Dispatch cases.now otherwise.now))) }
{
    judge_whens(alloc, around, cases, otherwise, faults)?;
    judge_once(around, Once::Dispatch, faults);
    Ok(())
}

/// The cases of the dispatch, the first standing at tree 2, and the phase behind them.
fn judge_whens(
    alloc: Global,
    around: &Around<'_, '_>,
    cases: &Items<When>,
    otherwise: &Phase,
    faults: &mut Faults,
) -> Result<(), AllocError>
    requires { trees_of_decl (decl.Dispatch cases.now otherwise.now) < 2 ^ 32 }
    ensures { OnOk result (faults.new ≡ least_with faults.old
        (when_faults around.now 2 cases.now otherwise.now)) }
{
    let base = Base::empty(alloc)?;
    let scope = Scope::Base(&base);
    let setting = Setting::new(&*around, Standing::InDispatch, &scope);
    let mut at: u32 = 2;
    for case in cases.as_slice() {
        let trees = judge_truth(&setting, at + 2, &case.test, faults);
        at += 2 + trees;
        at += judge_phase(around, at, &case.phase, faults);
    }
    judge_phase(around, at + 2, otherwise, faults);
    Ok(())
}

/// A phase at this tree, and how many trees it has.
fn judge_phase(around: &Around<'_, '_>, at: u32, phase: &Phase, faults: &mut Faults) -> u32
    requires { at + trees_of_phase phase.now < 2 ^ 32 }
    ensures trees { result ≡ trees_of_phase phase.now }
    ensures faults { faults.new ≡ least_with faults.old (phase_faults around.now at phase.now) }
{
    match phase {
        Phase::Block(name) => {
            judge_known(around.has_block(name), at + 2, faults);
            3
        }
        _ => 1,
    }
}

/// A block: what holds at its entry, its cycles, and its change.
pub fn judge_block(
    alloc: Global,
    around: &Around<'_, '_>,
    block: &Block,
    faults: &mut Faults,
) -> Result<(), AllocError>
    requires { trees_of_decl (decl.Block block.now) < 2 ^ 32 }
    ensures { OnOk result (faults.new ≡ least_with faults.old
        (inner_faults around.now (decl.Block block.now))) }
{
    let base = Base::empty(alloc)?;
    let scope = Scope::Base(&base);
    let at_entry = Setting::new(&*around, Standing::WithKept, &scope);
    let within_at = 5 + judge_assertion(&at_entry, 5, &block.entry, faults);
    faults.unless(
        is_within(block.within),
        within_at + 2,
        TypeRule::WithinOutside,
    );
    let in_change = Setting::new(&*around, Standing::InChange, &scope);
    judge_truth(&in_change, within_at + 5, &block.change, faults);
    Ok(())
}

/// Whether a block may run so many cycles.
fn is_within(cycles: u64) -> bool
    ensures { result ≡ (nat_le 1 cycles && nat_le cycles most_within) }
{
    1 <= cycles && cycles <= MOST_WITHIN
}

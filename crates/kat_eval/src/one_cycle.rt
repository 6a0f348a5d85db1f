//! One cycle of a machine.

ghost use Rattle.kat_syntax.specs.Cycle.{cycle_of, as_cycle};
ghost use Rattle.kat_eval.specs.Cycle.{EndsAs};
ghost use Rattle.kat_eval.specs.Running.{progress_of, as_call_outcome};

use crate::exec::call_function;
use crate::running::{CallEnd, Running};
use kat_state::State;
use kat_syntax::{Checked, Place};
use sqlite_items::Items;
use std::alloc::Global;

/// How a cycle ends.
#[derive(Drop)]
pub enum CycleEnd {
    /// The new state, the calls that are left, and the indices of the memory that were stored, in
    /// order.
    Done {
        state: State,
        left: u64,
        stores: Items<u64>,
    },
    /// A call was made with none left.
    Out,
    /// A `fail`, a false `check`, or a load or store outside the memory, at this place.
    Fail {
        site: Place,
    },
    /// Memory ran out.
    Memory,
}

/// One cycle: a call of the step function with so many calls allowed. A call takes one from those
/// that are left. A cycle that comes to what has no meaning fails at the declaration of the step
/// function; none of a typed specification does.
pub fn cycle(alloc: Global, checked: &Checked, calls: u64, state: State) -> CycleEnd
    ensures { EndsAs result (cycle_of checked.now calls state) }
{
    let _spec = checked.spec();
    let step = match checked.step_function() {
        Some(step) => step,
        None => unreachable!(),
    };
    let mut running = Running {
        state,
        left: calls,
        stores: Items::new(alloc),
    };
    let values = Items::new(alloc);
    match call_function(alloc, Some(step), values, checked, &mut running) {
        Ok(end) => end_of_cycle(end, step.decl, running),
        Err(_) => CycleEnd::Memory,
    }
}

/// The end of a cycle, from that of the call of the step function, which is declared at this
/// number.
fn end_of_cycle(end: CallEnd, decl: u32, running: Running) -> CycleEnd
    ensures { EndsAs result
        (as_cycle (record { decl = decl; tree = 0 })
        (as_call_outcome end (progress_of running))) }
{
    match end {
        CallEnd::Done(_) => {
            let Running {
                state,
                left,
                stores,
            } = running;
            CycleEnd::Done {
                state,
                left,
                stores,
            }
        }
        CallEnd::Out => CycleEnd::Out,
        CallEnd::Fail(site) => CycleEnd::Fail { site },
        CallEnd::Stuck => CycleEnd::Fail {
            site: Place { decl, tree: 0 },
        },
    }
}

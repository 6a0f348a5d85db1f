//! The run of a machine, with its states written as it goes.
ghost use Rattle.std.specs.Prelude.{◌≡◌, ◌≤◌, OnOk, IfOk, IfErr};
ghost use Rattle.kat_io.specs.Seen.{IsWrite, TookAll, GaveUp};
ghost use Rattle.kat_syntax.specs.Run.{Ended};
ghost use Rattle.kat_runner.specs.StateText.{first_lines, later_lines, boundary_piece, end_piece};
ghost use Rattle.kat_runner.specs.Runner.{run_of_cycles, text_owed, EndsRun, ChangesOnlyStored};

use crate::shown::{sorted, update};
use crate::text::{push_boundary, push_ended, push_first_boundary};
use kat_eval::{CycleEnd, cycle};
use kat_io::{Sink, SinkError, writes_join};
use kat_state::State;
use kat_syntax::{Checked, Moded, Place, what_changes};
use kat_text::TextBuilder;
use std::alloc::{AllocError, Global};

/// Writes boundary 0, then makes each cycle and writes its boundary, and at the end writes the last
/// piece, each as one piece. The line of a run that ran out of calls or failed is left to the
/// caller. Each cycle has `calls` calls.
pub fn run<K: Sink>(
    alloc: Global,
    machine: &Moded,
    state: State,
    cycles: u64,
    calls: u64,
    sink: &mut K,
) -> RunEnd
    ensures ends { let run = run_of_cycles machine.now calls state cycles in
        EndsRun result machine.now run (K.seen sink.old) (K.seen sink.new) }
    ensures kept { (K.seen sink.old).faults ≤ (K.seen sink.new).faults }
{
    match run_cycles(alloc, machine.checked(), state, cycles, calls, sink) {
        Ok(end) => end,
        Err(SinkError::Failed) => RunEnd::WriteFault,
        Err(SinkError::Memory) => RunEnd::Memory,
    }
}

/// How a run ends.
#[derive(Drop)]
pub enum RunEnd {
    /// After the last cycle.
    Ended,
    /// In this cycle, counted from 1, a call was made with none left.
    Out(u64),
    /// This cycle, counted from 1, failed, at this place.
    Failed { cycle: u64, site: Place },
    /// The sink took no more; its count of faults rose.
    WriteFault,
    /// Memory ran out.
    Memory,
}

/// The run, whose end is never a fault; a fault is the error.
fn run_cycles<K: Sink>(
    alloc: Global,
    machine: &Checked,
    mut state: State,
    cycles: u64,
    calls: u64,
    sink: &mut K,
) -> Result<RunEnd, SinkError>
    ensures ok { let run = run_of_cycles machine.now calls state cycles in
        IfOk result (λ end. EndsRun end machine.now run (K.seen sink.old) (K.seen sink.new)) }
    ensures err { let text = text_owed machine.now (run_of_cycles machine.now calls state cycles) in
        IfErr result (λ error. GaveUp error text (K.seen sink.old) (K.seen sink.new)) }
{
    writes_join();
    what_changes();
    let mut printer = Printer::start(alloc, machine, &state, sink)?;
    for done in 0..cycles {
        match cycle(alloc, machine, calls, state) {
            CycleEnd::Done {
                state: next,
                stores,
                ..
            } => {
                printer.boundary(alloc, done + 1, machine, &next, stores.as_slice(), sink)?;
                state = next;
            }
            CycleEnd::Out => return Ok(RunEnd::Out(done + 1)),
            CycleEnd::Fail { site } => {
                return Ok(RunEnd::Failed {
                    cycle: done + 1,
                    site,
                });
            }
            CycleEnd::Memory => return Err(SinkError::Memory),
        }
    }
    printer.ended(cycles, sink)?;
    Ok(RunEnd::Ended)
}

/// What the boundaries of a run are printed with: the state that was printed last, which is copied
/// whole only once, and one buffer for the text of a piece.
#[derive(Drop)]
struct Printer {
    shown: State,
    text: TextBuilder,
}

impl Printer {
    /// Writes boundary 0.
    fn start<K: Sink>(
        alloc: Global,
        machine: &Checked,
        state: &State,
        sink: &mut K,
    ) -> Result<Printer, SinkError>
        ensures shown { IfOk result (λ printer. printer.shown ≡ state.now) }
        ensures ok { let piece = boundary_piece 0 (first_lines machine.now.decls state.now) in
            OnOk result (TookAll piece (K.seen sink.old) (K.seen sink.new)) }
        ensures err { let piece = boundary_piece 0 (first_lines machine.now.decls state.now) in
            IfErr result (λ error. GaveUp error piece (K.seen sink.old) (K.seen sink.new)) }
    {
        let printer = Printer::at_start(alloc, machine, state).map_err(|_| SinkError::Memory)?;
        sink.write_all(printer.text.as_bytes())?;
        Ok(printer)
    }

    /// The text of boundary 0, and a copy of its state.
    fn at_start(alloc: Global, machine: &Checked, state: &State) -> Result<Printer, AllocError>
        ensures shown { IfOk result (λ printer. printer.shown ≡ state.now) }
        ensures text { let lines = first_lines machine.now.decls state.now in
            IfOk result (λ printer. printer.text ≡ boundary_piece 0 lines) }
    {
        let shown = state.copy(alloc)?;
        let mut text = TextBuilder::new(alloc);
        push_first_boundary(&mut text, machine, state)?;
        Ok(Printer { shown, text })
    }

    /// Writes boundary k, before which these indices were stored.
    fn boundary<K: Sink>(
        &mut self,
        alloc: Global,
        k: u64,
        machine: &Checked,
        next: &State,
        stores: &[u64],
        sink: &mut K,
    ) -> Result<(), SinkError>
        requires { ChangesOnlyStored stores.now self.old.shown next.now }
        ensures shown { OnOk result (self.new.shown ≡ next.now) }
        ensures wrote { let lines = later_lines machine.now.decls self.old.shown next.now in
            IsWrite result (boundary_piece k lines) (K.seen sink.old) (K.seen sink.new) }
    {
        self.put_boundary(alloc, k, machine, next, stores)
            .map_err(|_| SinkError::Memory)?;
        sink.write_all(self.text.as_bytes())
    }

    /// The text of boundary k, and what its cycle changed.
    fn put_boundary(
        &mut self,
        alloc: Global,
        k: u64,
        machine: &Checked,
        next: &State,
        stores: &[u64],
    ) -> Result<(), AllocError>
        requires { ChangesOnlyStored stores.now self.old.shown next.now }
        ensures shown { OnOk result (self.new.shown ≡ next.now) }
        ensures text { let lines = later_lines machine.now.decls self.old.shown next.now in
            OnOk result (self.new.text ≡ boundary_piece k lines) }
    {
        self.text.clear();
        let stored = sorted(alloc, stores)?;
        push_boundary(
            &mut self.text,
            k,
            machine,
            &self.shown,
            next,
            stored.as_slice(),
        )?;
        update(alloc, &mut self.shown, next, stored.as_slice())
    }

    /// Writes the last piece of a run that ended.
    fn ended<K: Sink>(&mut self, last: u64, sink: &mut K) -> Result<(), SinkError>
        ensures { IsWrite result (end_piece last Ended) (K.seen sink.old) (K.seen sink.new) }
    {
        self.text.clear();
        push_ended(&mut self.text, last).map_err(|_| SinkError::Memory)?;
        sink.write_all(self.text.as_bytes())
    }
}

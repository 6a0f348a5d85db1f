//! What each job does: it asks for its inputs in turn, and answers with what they were taken as.

ghost use Rattle.std.specs.Prelude.{[], Some};
ghost use Rattle.kat_words.specs.declared.asked.Job.TheVariants as job;
ghost use Rattle.kat_top.specs.Answers.{Gives};
ghost use Rattle.kat_top.specs.Given.{Answered};
ghost use Rattle.kat_top.specs.Jobs.{answer_of_run};

use crate::fault::Fault;
use crate::inputs::{load_image, load_judged, load_moded, load_spec};
use crate::say::{refuse, say_canonical, say_fault, say_typed};
use crate::status::Status;
use kat_io::{Files, Sink};
use kat_runner::{RunEnd, run};
use kat_state::State;
use kat_syntax::Moded;
use kat_text::Text;
use std::alloc::Global;

/// `check SPEC`: that a specification is typed and moded.
pub fn check_file<F: Files, K: Sink>(
    alloc: Global,
    spec: &Text,
    files: &mut F,
    out: &mut K,
) -> Status
    ensures { Answered (Some (job.Check spec.now)) (F.seen files.old) (F.seen files.new)
        result (K.seen out.old) (K.seen out.new) }
{
    match load_judged(alloc, files, spec.as_str()) {
        Ok(found) => say_typed(alloc, out, &found),
        Err(error) => refuse(alloc, out, error),
    }
}

/// `print SPEC`: the canonical text of a specification.
pub fn print_file<F: Files, K: Sink>(
    alloc: Global,
    spec: &Text,
    files: &mut F,
    out: &mut K,
) -> Status
    ensures { Answered (Some (job.Print spec.now)) (F.seen files.old) (F.seen files.new)
        result (K.seen out.old) (K.seen out.new) }
{
    match load_spec(alloc, files, spec.as_str()) {
        Ok(found) => say_canonical(alloc, out, &found),
        Err(error) => refuse(alloc, out, error),
    }
}

/// `run SPEC IMAGE --cycles N --calls N`: the states of a machine that starts from an image.
/// Devices are none yet.
pub fn run_files<F: Files, K: Sink>(
    alloc: Global,
    spec: &Text,
    image: &Text,
    cycles: u64,
    calls: u64,
    files: &mut F,
    out: &mut K,
) -> Status
    ensures { Answered (Some (job.Run spec.now image.now cycles calls []))
        (F.seen files.old) (F.seen files.new) result (K.seen out.old) (K.seen out.new) }
{
    match load_moded(alloc, files, spec.as_str()) {
        Ok(machine) => match load_image(alloc, files, image.as_str(), &machine) {
            Ok(start) => run_from(alloc, &machine, start, cycles, calls, out),
            Err(error) => refuse(alloc, out, error),
        },
        Err(error) => refuse(alloc, out, error),
    }
}

/// Runs a machine from a state.
fn run_from<K: Sink>(
    alloc: Global,
    machine: &Moded,
    start: State,
    cycles: u64,
    calls: u64,
    out: &mut K,
) -> Status
    ensures { Gives (answer_of_run machine.now start cycles calls)
        result (K.seen out.old) (K.seen out.new) }
{
    match run(alloc, machine, start, cycles, calls, out) {
        RunEnd::Ended => Status::Ok,
        RunEnd::Out(cycle) => say_fault(alloc, out, &Fault::Out(cycle)),
        RunEnd::Failed { cycle, site } => say_fault(alloc, out, &Fault::Failed { cycle, site }),
        RunEnd::WriteFault => Status::WriteFault,
        RunEnd::Memory => Status::Memory,
    }
}

//! The whole program as one call.

ghost use Rattle.std.specs.Prelude.{◌≡◌, [], ◌∷◌, Some, not};
ghost use Rattle.std.specs.List.{list_any};
ghost use Rattle.kat_words.specs.declared.asked.Job.TheVariants as job;
ghost use Rattle.kat_top.specs.Causes.{StatusesCome};
ghost use Rattle.kat_top.specs.Complete.{IsComplete};
ghost use Rattle.kat_top.specs.Given.{Answered, HasCauses, Keeps, ReadsMade};
ghost use Rattle.kat_top.specs.Jobs.{asked, done_of, is_reserved};

use crate::fault::Fault;
use crate::jobs::{check_file, print_file, run_files};
use crate::laws::file_laws;
use crate::say::say_fault;
use crate::status::Status;
use kat_io::{Files, Sink};
use kat_text::Text;
use kat_words::{Devices, Job, WordsError, job};
use std::alloc::Global;

/// The whole program: does the job of the words, reads the files that they name, writes the answer,
/// and gives the status with which the program ends.
pub fn top<F: Files, K: Sink>(alloc: Global, words: &[String], files: &mut F, out: &mut K) -> Status
    // What was given is the answer to the words, for what the bytes of the files were read as: the
    // files are asked for in turn, each judged before the next; and with every status a prefix of
    // its text was written.
    ensures answer { Answered (asked words.now) (F.seen files.old) (F.seen files.new)
        result (K.seen out.old) (K.seen out.new) }

    // Where the files tell their bytes and no count of faults rose, the answer that they owe is
    // given whole, or memory ran out.
    ensures complete { IsComplete (asked words.now) (F.seen files.old) (F.seen files.new)
        result (K.seen out.old) (K.seen out.new) }

    // Each status comes wherever it has its cause, unless something outside fails, and only there.
    ensures statuses { StatusesCome (asked words.now) (F.seen files.old).told
        result (K.seen out.old) (K.seen out.new) }

    // A fault of reading or writing and a file that is too long come only where the count of that
    // rose.
    ensures causes { HasCauses result (F.seen files.old) (F.seen files.new)
        (K.seen out.old) (K.seen out.new) }

    // What the files tell stays, and no count falls.
    ensures kept { Keeps (F.seen files.old) (F.seen files.new) (K.seen out.old) (K.seen out.new) }

    // The reads that were added are those of the first files that the words name, in order, each
    // with the limit; of all that are asked for, where the files tell their bytes.
    ensures reads { ReadsMade (asked words.now) (F.seen files.old) (F.seen files.new) result }
{
    file_laws();
    answered(alloc, words, files, out)
}

/// Does the job of the words.
fn answered<F: Files, K: Sink>(
    alloc: Global,
    words: &[String],
    files: &mut F,
    out: &mut K,
) -> Status
    ensures { Answered (asked words.now) (F.seen files.old) (F.seen files.new)
        result (K.seen out.old) (K.seen out.new) }
{
    match job(alloc, words) {
        Ok(job) => do_job(alloc, &job, files, out),
        Err(WordsError::Usage) => say_fault(alloc, out, &Fault::Usage),
        Err(WordsError::Memory) => Status::Memory,
    }
}

/// Does a job. One that is not built yet is answered as words that ask for none.
fn do_job<F: Files, K: Sink>(alloc: Global, job: &Job, files: &mut F, out: &mut K) -> Status
    ensures { Answered (done_of (Some job.now)) (F.seen files.old) (F.seen files.new)
        result (K.seen out.old) (K.seen out.new) }
{
    match job {
        Job::Check { spec } => do_check(alloc, spec, files, out),
        Job::Print { spec } => do_print(alloc, spec, files, out),
        Job::Run {
            spec,
            image,
            cycles,
            calls,
            devices,
        } => do_run(alloc, spec, image, *cycles, *calls, devices, files, out),
        Job::Verify { .. } => say_fault(alloc, out, &Fault::Usage),
        Job::Replay { .. } => say_fault(alloc, out, &Fault::Usage),
        Job::Gen { .. } => say_fault(alloc, out, &Fault::Usage),
    }
}

/// `check SPEC`
fn do_check<F: Files, K: Sink>(alloc: Global, spec: &Text, files: &mut F, out: &mut K) -> Status
    ensures { Answered (done_of (Some (job.Check spec.now))) (F.seen files.old) (F.seen files.new)
        result (K.seen out.old) (K.seen out.new) }
{
    if is_reserved(spec) {
        return say_fault(alloc, out, &Fault::Usage);
    }
    check_file(alloc, spec, files, out)
}

/// `print SPEC`
fn do_print<F: Files, K: Sink>(alloc: Global, spec: &Text, files: &mut F, out: &mut K) -> Status
    ensures { Answered (done_of (Some (job.Print spec.now))) (F.seen files.old) (F.seen files.new)
        result (K.seen out.old) (K.seen out.new) }
{
    if is_reserved(spec) {
        return say_fault(alloc, out, &Fault::Usage);
    }
    print_file(alloc, spec, files, out)
}

/// `run SPEC IMAGE --cycles N --calls N`; with devices it is not built yet.
fn do_run<F: Files, K: Sink>(
    alloc: Global,
    spec: &Text,
    image: &Text,
    cycles: u64,
    calls: u64,
    devices: &Devices,
    files: &mut F,
    out: &mut K,
) -> Status
    ensures { Answered (done_of (Some (job.Run spec.now image.now cycles calls devices.now)))
        (F.seen files.old) (F.seen files.new) result (K.seen out.old) (K.seen out.new) }
{
    if !devices.as_slice().is_empty() {
        return say_fault(alloc, out, &Fault::Usage);
    }
    if !are_files(spec, image) {
        return say_fault(alloc, out, &Fault::Usage);
    }
    run_files(alloc, spec, image, cycles, calls, files, out)
}

/// Whether neither name is kept for a text that comes with the program.
fn are_files(spec: &Text, image: &Text) -> bool
    ensures { result ≡ not (list_any is_reserved (spec.now ∷ image.now ∷ [])) }
{
    !is_reserved(spec) && !is_reserved(image)
}

/// Whether a name is kept for a text that comes with the program.
fn is_reserved(name: &Text) -> bool
    ensures { result ≡ is_reserved name.now }
{
    match name.as_bytes().first() {
        Some(byte) => *byte == b'@',
        None => false,
    }
}

//! What holds of the answers that are owed. Each function does nothing: its contract is the law.

ghost use Rattle.std.specs.Prelude.{◌≡◌, Option};
ghost use Rattle.kat_words.specs.declared.asked.Job.{Job};
ghost use Rattle.kat_top.specs.Answers.{Answer};
ghost use Rattle.kat_top.specs.FileLaws.{FileLaws};
ghost use Rattle.kat_top.specs.Judging.{Told};
ghost use Rattle.kat_top.specs.Owed.{IsOwed};
ghost use Rattle.kat_top.specs.Told.{TextTellsToldRun, BeginningTellsToldRun};

use kat_forms::one_description;
use kat_image::{one_refusal, one_state};
use kat_laws::{images_are_states, text_tells_its_run};
use kat_syntax::{first_faults_are_least, one_reading};
use kat_tree::one_outcome;

/// What the lower crates say of the bytes of a file.
pub(crate) fn file_laws()
    ensures { FileLaws }
{
    one_outcome();
    one_reading();
    first_faults_are_least();
    one_description();
    one_state();
    one_refusal();
}

/// A job whose files tell their bytes has at most one answer: one status and one text.
pub fn one_answer()
    ensures { (job : Option Job) (told : Told) (a b : Answer) →
        IsOwed job told a → IsOwed job told b → a ≡ b }
{
    file_laws();
}

/// What `run` prints tells the run, of every machine: two runs of one machine that print the same
/// text have the same boundary states and the same end, whatever the images, cycles and calls. And
/// where one text begins with the texts of two such runs, they are the same, so that an output that
/// was cut off is the output of no run of that machine. The machine and the images are what bytes
/// stand for; nothing is supposed of the states.
pub fn text_tells_told_run()
    ensures whole { TextTellsToldRun }
    ensures beginning { BeginningTellsToldRun }
{
    text_tells_its_run();
    images_are_states();
}

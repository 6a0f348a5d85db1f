//! The laws of symbolic execution so far. Such a function does nothing: its contract is the law.

ghost use Rattle.kat_exec.specs.Examples.{ExamplesComeOut};
ghost use Rattle.kat_exec.specs.Laws.{PathsAreMet};

use kat_term::terms_by_parts;

/// Small walks and paths come to what they were worked out to come to.
pub fn examples_come_out()
    ensures { ExamplesComeOut }
{
    terms_by_parts();
}

/// Where every path of a walk ends or closes, contracts are met with fewer calls and the lemmas
/// that its jobs use hold, its jobs are met at each fragment that it stands for: it follows from the
/// two laws of one step that its statement names.
pub fn paths_are_met()
    ensures { PathsAreMet }
{}

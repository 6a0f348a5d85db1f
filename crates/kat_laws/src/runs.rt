//! What holds of the runs of a typed specification.

ghost use Rattle.kat_laws.specs.Runs.{StartsAreStates, MachinesHaveNames, RunsKeepStates, TextTellsItsRun, BeginningTellsItsRun};

use crate::text::{text_tells_its_end, text_tells_states};
use kat_syntax::{cycles_fail_at_trees, states_stay, types_name_earlier_ones};
use kat_tree::written_layers;

/// The names of the registers differ, and so do those of the members of an enum and of the
/// constructors of a union; each is one word, without blanks, newlines or brackets. The indices of
/// the memory are below 2^64.
pub fn machines_have_names()
    ensures { MachinesHaveNames }
{
    written_layers();
}

/// The state in which every register has the first value of its type and every cell is 0 is a state
/// of the machine.
pub fn starts_are_states()
    ensures { StartsAreStates }
{
    types_name_earlier_ones();
}

/// A run from a state of the machine, with any number of calls in a cycle and over any cycles and
/// outside writes, fewer than 2^64, is a run of the machine: the state at every boundary has one
/// value of its declared type for each register and a number that fits for each cell, and the
/// numbers of its end are below 2^64.
pub fn runs_keep_states()
    ensures { RunsKeepStates }
{
    states_stay();
    cycles_fail_at_trees();
}

/// The output of a run tells the run, of every machine: two runs that print the same text have the
/// same boundary states and the same end, from any states of the machine on, with any number of
/// calls and over any events, fewer than 2^64. And where one text begins with the texts of two
/// runs, they are the same, so that an output that was cut off is the output of no run of that
/// machine. Unlike [`crate::text_tells_states`], this supposes nothing of the states that a run
/// passes through, nor of its end.
pub fn text_tells_its_run()
    ensures whole { TextTellsItsRun }
    ensures beginning { BeginningTellsItsRun }
{
    text_tells_states();
    text_tells_its_end();
    machines_have_names();
    runs_keep_states();
}

//! The laws of typed machines. A function here does nothing: its contract is the law.

ghost use Rattle.kat_safety.specs.NeverStuck.{ExpressionsHaveValues, StatementsAreNotStuck, CallsAreNotStuck, CyclesAreNotStuck, RunsAreNotStuck, RunsFailInBodies};

use kat_syntax::{statements_do_their_parts, states_stay, types_name_earlier_ones};
use kat_value::{operations_are_exact, types_of_values, values_show_types};

/// An expression without faults of typing has a value of its type, among locals of its scope,
/// wherever it stands: in a statement, in a condition of the dispatch, over kept values in the
/// untrusted assertion and in entries, and over those of both ends in the change of a block.
pub fn typed_expressions_have_values()
    ensures { ExpressionsHaveValues }
{
    operations_are_exact();
    values_show_types();
    types_of_values();
    types_name_earlier_ones();
}

/// A statement without faults of typing is not stuck, from a state of the machine on and among
/// locals of its scope, and where it is done its value is of its type and the state one of the
/// machine.
pub fn typed_statements_are_not_stuck()
    ensures { StatementsAreNotStuck }
{
    typed_expressions_have_values();
    values_show_types();
    types_of_values();
    states_stay();
}

/// A call of a function of the specification with arguments of its parameters' types is not stuck,
/// and gives a value of the type that is declared.
pub fn typed_calls_are_not_stuck()
    ensures { CallsAreNotStuck }
{
    typed_expressions_have_values();
    values_show_types();
    types_of_values();
    states_stay();
}

/// A cycle from a state of the machine is not stuck, and leaves one.
pub fn cycles_are_not_stuck()
    ensures { CyclesAreNotStuck }
{
    typed_expressions_have_values();
    values_show_types();
    types_of_values();
    states_stay();
}

/// No run is stuck, over any cycles and outside writes, from a state of the machine on: so it fails
/// at a `fail`, a `check`, a `load` or a `store` of a body, at the tree that is named.
pub fn runs_are_not_stuck()
    ensures never { RunsAreNotStuck }
    ensures fails { RunsFailInBodies }
{
    typed_expressions_have_values();
    values_show_types();
    types_of_values();
    states_stay();
    statements_do_their_parts();
}

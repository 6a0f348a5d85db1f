//! What holds of meanings, of runs, and of specifications without faults of typing. A function here
//! does nothing: its contract is the law.

ghost use Rattle.std.specs.Prelude.{MatchOption};
ghost use Rattle.kat_ast.specs.Spec.{Spec};
ghost use Rattle.kat_syntax.specs.TypeTable.{NamesEarlierTypes, types_of_decls};
ghost use Rattle.kat_syntax.specs.FirstTypeFault.{IsTyped, IsFirstTypeFault, first_type_fault};
ghost use Rattle.kat_syntax.specs.MeaningLaws.{StatementsByParts, DepthIsEnough, LeftNeverRises, StatementsChangeWhatTheyWrite, OutsideWritesChangeOnePlace, MoreCallsChangeNoOutcome, StuckCyclesFailAtADeclaration, ValuesStayShown, RefusedWritesChangeNothing, StatesStay, CyclesFailAtTrees};

use kat_ast::places_are_of_the_tree;
use kat_value::{operations_are_exact, types_of_values, values_show_types};

/// What a statement does is what its form does of what its parts do, and a part is counted for as
/// many trees as it has.
pub fn statements_do_their_parts()
    ensures { StatementsByParts }
{}

/// The depth of calls in one another is bounded by the calls that are left: more changes nothing.
pub fn depth_is_enough()
    ensures { DepthIsEnough }
{}

/// Calls are spent and never given back; more of them change no outcome but that of having run out.
pub fn calls_are_spent()
    ensures left { LeftNeverRises }
    ensures more { MoreCallsChangeNoOutcome }
{}

/// A statement changes the registers that are written and the cells that were stored, and an
/// outside write changes its place; a write that is refused changes nothing.
pub fn what_changes()
    ensures statements { StatementsChangeWhatTheyWrite }
    ensures outside { OutsideWritesChangeOnePlace }
    ensures refused { RefusedWritesChangeNothing }
{}

/// A cycle that is stuck fails at its step function's declaration, and no other failure stands
/// there.
pub fn stuck_cycles_fail()
    ensures { StuckCyclesFailAtADeclaration }
{}

/// Values are of the types that they show, typed or not, where those before are.
pub fn values_stay_shown()
    ensures { ValuesStayShown }
{
    operations_are_exact();
    values_show_types();
    types_of_values();
}

/// A state of the machine stays one behind a statement, a cycle and an outside write, typed or not.
pub fn states_stay()
    ensures { StatesStay }
{}

/// A cycle fails at a tree that a declaration may have, of a declaration or behind the last one.
pub fn cycles_fail_at_trees()
    ensures { CyclesFailAtTrees }
{
    places_are_of_the_tree();
    statements_do_their_parts();
}

/// The first fault of a specification is the least, by tree and condition, of the first declaration
/// that has any; where there is none, the specification is typed.
pub fn first_faults_are_least()
    ensures { (spec : Spec) →
        MatchOption (first_type_fault spec) (IsTyped spec) (IsFirstTypeFault spec) }
{}

/// In the table of types of a typed specification each constructor's payload and each field is unit,
/// bool, bits of a width from 1 to 64, or an enum, a union or a record type that stands earlier.
pub fn types_name_earlier_ones()
    ensures { (spec : Spec) → IsTyped spec → NamesEarlierTypes (types_of_decls spec.decls) }
{}

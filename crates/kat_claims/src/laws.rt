//! The laws of what is claimed.

ghost use Rattle.kat_claims.specs.Assertions.{HoldersAreFragments};
ghost use Rattle.kat_claims.specs.Budgets.{FewerCallsMeet};
ghost use Rattle.kat_claims.specs.Fragments.{JoinsAreUnions};
ghost use Rattle.kat_claims.specs.Names.{OnlyNamesReadCount};
ghost use Rattle.kat_claims.specs.Outside.{OutsideWritesKeep};
ghost use Rattle.kat_claims.specs.Runs.{RunsGoByEvents};
ghost use Rattle.kat_claims.specs.Security.{MachinesAreJudged};

use kat_syntax::{calls_are_spent, what_changes};

/// The union of disjoint fragments does not depend on their order or grouping, has nothing as its
/// unit, and is determined by its parts.
pub fn fragments_join()
    ensures { JoinsAreUnions }
{}

/// A contract that is met with some number of calls is met with fewer: a budget only cuts runs
/// short.
pub fn contracts_go_by_budgets()
    ensures { FewerCallsMeet }
{
    calls_are_spent();
}

/// What holds an assertion is a fragment of the machine: it has registers and cells of the machine
/// alone, with values that fit them.
pub fn holders_have_places()
    ensures { HoldersAreFragments }
{}

/// What an assertion says goes by the values of the names that it reads, and by no other name.
pub fn only_names_read_count()
    ensures { OnlyNamesReadCount }
{}

/// What is written from outside is no part of what security speaks of: in a typed specification
/// such a write changes neither the phase nor the kept values nor any code cell.
pub fn outside_writes_keep()
    ensures { OutsideWritesKeep }
{
    what_changes();
}

/// A run that ended in a cycle is the same with more events. One whose events are cut off at a
/// cycle, or in a typed specification anywhere, keeps what a run of a secure specification does.
pub fn runs_go_by_events()
    ensures { RunsGoByEvents }
{
    outside_writes_keep();
}

/// Of small machines, one whose step does nothing is secure. Those are not, from a state that boots,
/// that break a clause each: a step that fails, an untrusted cycle that writes a protected register,
/// one that leads inside, a block that stays inside past its cycles, one whose exit breaks its
/// change. A machine of which no state boots is secure, which says nothing of it.
pub fn security_says_what_it_should()
    ensures { MachinesAreJudged }
{}

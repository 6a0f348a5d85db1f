//! The laws of moves so far. Such a function does nothing: its contract is the law.

ghost use Rattle.kat_heap.specs.Laws.{JobsAreMetBackwards};

/// Where a move comes to a walk from whose jobs those before follow, and the jobs of each walk that
/// it leads to are met, the jobs before are met: the rule that every kind of move is used by.
pub fn jobs_are_met_backwards()
    ensures { JobsAreMetBackwards }
{}

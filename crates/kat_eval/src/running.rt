//! What a running cycle has, and how statements and calls end.

ghost use Rattle.std.specs.Prelude.{◌≡◌, ◌+◌, ◌<◌, ◌^◌, ℕ};
ghost use Rattle.kat_ast.specs.Types.{trees_of_type, trees_of_params};
ghost use Rattle.kat_syntax.specs.Machine.{Progress};
ghost use Rattle.kat_syntax.specs.Outcomes.{at_site, inside, place_in, There};
ghost use Rattle.kat_eval.specs.Running.{as_outcome, as_call_outcome, IsBelow};

use kat_state::State;
use kat_syntax::{FunctionSeen, Place};
use kat_value::Value;
use sqlite_items::Items;

/// The state, the calls that are left, and the indices that were stored, in order.
#[derive(Drop)]
pub struct Running {
    pub state: State,
    pub left: u64,
    pub stores: Items<u64>,
}

/// Where a failure stands.
#[derive(Clone, Copy, Drop)]
pub enum Site {
    /// At this tree of the form that was run, that form being tree 0.
    Here(u32),
    /// In a function that it called.
    There(Place),
}

/// How a statement ends.
#[derive(Drop)]
pub enum StmEnd {
    Done(Value),
    /// A call was made with none left.
    Out,
    Fail(Site),
    /// It came to what has no meaning.
    Stuck,
}

/// How a call ends.
#[derive(Drop)]
pub enum CallEnd {
    Done(Value),
    /// A call was made with none left.
    Out,
    Fail(Place),
    /// It came to what has no meaning.
    Stuck,
}

impl StmEnd {
    /// The end of a part, as an end of the form in which it has the tree of this number.
    pub fn inside(self, at: u32) -> StmEnd
        requires { IsBelow (2 ^ 32) at self }
        ensures outcome { (p : Progress) → as_outcome result p ≡ inside at (as_outcome self p) }
        ensures within { (n : ℕ) → IsBelow n 0 self → IsBelow (at + n) 0 result }
    {
        match self {
            StmEnd::Fail(Site::Here(tree)) => StmEnd::Fail(Site::Here(at + tree)),
            end => end,
        }
    }

    /// The end of a function's body, as that of a call of it.
    pub fn of_function(self, function: FunctionSeen<'_>) -> CallEnd
        requires { IsBelow (2 ^ 32)
            (3 + trees_of_params function.params.now + trees_of_type function.result.now) self }
        ensures { (p : Progress) → as_call_outcome result p
            ≡ at_site (place_in function.entry.decl)
            (inside (3 + trees_of_params function.entry.params.now
            + trees_of_type function.entry.result.now) (as_outcome self p)) }
    {
        match self {
            StmEnd::Done(value) => CallEnd::Done(value),
            StmEnd::Out => CallEnd::Out,
            StmEnd::Fail(Site::Here(tree)) => CallEnd::Fail(Place {
                decl: function.decl,
                tree: function.body_at() + tree,
            }),
            StmEnd::Fail(Site::There(place)) => CallEnd::Fail(place),
            StmEnd::Stuck => CallEnd::Stuck,
        }
    }
}

impl CallEnd {
    /// The end of a call, as that of the statement that calls.
    pub fn of_statement(self) -> StmEnd
        ensures outcome { (p : Progress) →
            as_outcome result p ≡ at_site There (as_call_outcome self p) }
        ensures within { IsBelow 1 0 result }
    {
        match self {
            CallEnd::Done(value) => StmEnd::Done(value),
            CallEnd::Out => StmEnd::Out,
            CallEnd::Fail(place) => StmEnd::Fail(Site::There(place)),
            CallEnd::Stuck => StmEnd::Stuck,
        }
    }
}

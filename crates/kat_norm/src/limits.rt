//! The limits on normal forms.

ghost use Rattle.kat_norm.specs.Answers.{TellsSize};
ghost use Rattle.kat_norm.specs.Limits.{limit_of};

use kat_term::{MAX_DEPTH, MAX_NODES, NormError, Term, nodes_within, room_behind};

/// The most rules that one normal form takes.
pub const MAX_RULES: u32 = 1_000_000;

/// Asks the limits on its size of a term: of nodes, then of depth.
#[tactic(auto, unfolding(kat_term::specs::Limits::max_nodes, kat_term::specs::Limits::max_depth))]
pub fn within_limits(term: &Term) -> Result<(), NormError>
    ensures { TellsSize result (limit_of term.now) }
{
    if room_behind(term, MAX_NODES, MAX_DEPTH).is_some() {
        Ok(())
    } else if nodes_within(term, MAX_NODES).is_none() {
        Err(NormError::Nodes)
    } else {
        Err(NormError::Depth)
    }
}

//! The nodes and the depth of a term, gone over no further than a limit.

ghost use Rattle.std.specs.Prelude.{◌≡◌, ◌+◌, ◌<◌, ◌≤◌, ◌⊎◌, nat_le, sum, MatchOption, map};
ghost use Rattle.kat_term.specs.Sizes.{nodes, depth, greatest};

use crate::term::Term;

/// What is left of a room for nodes behind a term; none exactly where the term has more. It goes
/// over no more nodes than the room has.
#[cycle(nodes)]
pub fn nodes_within(term: &Term, room: u32) -> Option<u32>
    ensures { MatchOption result (room < nodes term.now) (λ rest. nodes term.now + rest ≡ room) }
{
    let rest = room.checked_sub(1)?;
    match term {
        Term::Apply { args, .. } => all_within(args.get().as_slice(), rest),
        Term::Make { inner, .. } => nodes_within(inner.get(), rest),
        Term::Rec { fields, .. } => all_within(fields.get().as_slice(), rest),
        Term::Var(_) | Term::Lit(_) => Some(rest),
    }
}

/// The same of terms.
#[cycle(nodes)]
fn all_within(terms: &[Term], room: u32) -> Option<u32>
    ensures { MatchOption result (room < sum (map nodes terms.now))
        (λ rest. sum (map nodes terms.now) + rest ≡ room) }
{
    let mut rest = room;
    for term in terms {
        rest = nodes_within(term, rest)?;
    }
    Some(rest)
}

/// What is left of a room for nodes behind a term that is no deeper than this; none exactly where
/// it has more nodes or is deeper. It asks both in one go.
#[cycle(room)]
pub fn room_behind(term: &Term, room: u32, most: u32) -> Option<u32>
    ensures { MatchOption result ((room < nodes term.now) ⊎ (most < depth term.now))
        (λ rest. (nodes term.now + rest ≡ room) × (depth term.now ≤ most)) }
{
    let rest = room.checked_sub(1)?;
    let deeper = most.checked_sub(1)?;
    match term {
        Term::Apply { args, .. } => room_behind_all(args.get().as_slice(), rest, deeper),
        Term::Make { inner, .. } => room_behind(inner.get(), rest, deeper),
        Term::Rec { fields, .. } => room_behind_all(fields.get().as_slice(), rest, deeper),
        Term::Var(_) | Term::Lit(_) => Some(rest),
    }
}

/// The same of terms.
#[cycle(room)]
fn room_behind_all(terms: &[Term], room: u32, most: u32) -> Option<u32>
    ensures { MatchOption result
        ((room < sum (map nodes terms.now)) ⊎ (most < greatest (map depth terms.now)))
        (λ rest. (sum (map nodes terms.now) + rest ≡ room)
        × (greatest (map depth terms.now) ≤ most)) }
{
    let mut rest = room;
    for term in terms {
        rest = room_behind(term, rest, most)?;
    }
    Some(rest)
}

/// Whether a term's depth is at most this. It goes no deeper.
#[cycle(depth)]
pub fn has_depth(term: &Term, most: u32) -> bool
    ensures { result ≡ nat_le (depth term.now) most }
{
    if most == 0 {
        return false;
    }
    match term {
        Term::Apply { args, .. } => all_have_depth(args.get().as_slice(), most - 1),
        Term::Make { inner, .. } => has_depth(inner.get(), most - 1),
        Term::Rec { fields, .. } => all_have_depth(fields.get().as_slice(), most - 1),
        Term::Var(_) | Term::Lit(_) => true,
    }
}

/// The same of terms.
#[cycle(depth)]
fn all_have_depth(terms: &[Term], most: u32) -> bool
    ensures { result ≡ nat_le (greatest (map depth terms.now)) most }
{
    for term in terms {
        if !has_depth(term, most) {
            return false;
        }
    }
    true
}

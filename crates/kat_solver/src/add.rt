//! Formulas added to a settled world.

ghost use Rattle.std.specs.Prelude.{◌≡◌, ◌++◌, [], ◌∷◌, Some, IfOk};
ghost use Rattle.kat_known.specs.Normal.{norm_in};
ghost use Rattle.kat_solver.specs.Add.{max_members, stage_of, added, added_from, appended, atom_known, known_literal, literal_taken, normed_taken, or_taken, all_added, taken};
ghost use Rattle.kat_solver.specs.declared.settled.Settled.TheVariants.{Open};

use crate::agenda::{Agenda, with_last};
use crate::moving::{moving, staying};
use crate::normed::normed_under;
use crate::pairs::pair_of;
use crate::settled::Settled;
use kat_known::{contains, is_atom, known, reduced};
use kat_norm::{Pair, Substitution};
use kat_term::{Term, Terms, World, arg_of, args_of, copy_term, same_term, truth_in};
use kat_value::Op;
use sqlite_items::Items;
use std::alloc::{AllocError, Global};

/// The most members that are taken from the agenda of one formula.
const MAX_MEMBERS: u32 = 100_000;

/// A settled world of the variables of a world with formulas added, in their order. Those that are
/// added to an unsettled one are settled.
pub fn all_added(
    alloc: Global,
    world: &World,
    settled: Settled,
    formulas: &[Term],
) -> Result<Settled, AllocError>
    ensures { IfOk result
        (λ s. s ≡ all_added world.now.vars (norm_in world.now.vars) settled formulas.now) }
{
    let mut settled = settled;
    for formula in formulas {
        settled = added(alloc, world, settled, copy_term(alloc, formula)?)?;
    }
    Ok(settled)
}

/// A settled world of the variables of a world with a formula added, by an agenda that begins with
/// it. What is left on the agenda when 100,000 members are taken is dropped.
pub fn added(
    alloc: Global,
    world: &World,
    settled: Settled,
    formula: Term,
) -> Result<Settled, AllocError>
    ensures { IfOk result
        (λ s. s ≡ added world.now.vars (norm_in world.now.vars) settled formula) }
{
    match settled {
        Settled::Closed => Ok(Settled::Closed),
        Settled::Open { pairs, list } => {
            let mut agenda = Agenda::new(alloc);
            agenda.push_first(formula)?;
            added_from(
                alloc,
                world,
                Stage {
                    agenda,
                    pairs,
                    list,
                },
            )
        }
    }
}

/// Formulas that are still to be added to a substitution and a list.
#[derive(Drop)]
pub struct Stage {
    pub agenda: Agenda,
    pub pairs: Substitution,
    pub list: Terms,
}

/// What an agenda makes of a substitution and a list.
fn added_from(alloc: Global, world: &World, start: Stage) -> Result<Settled, AllocError>
    ensures { IfOk result (λ s. s ≡ added_from world.now.vars (norm_in world.now.vars) max_members
        start.agenda start.pairs start.list) }
{
    let mut left = MAX_MEMBERS;
    let mut stage = start;
    while left > 0 {
        let Some(formula) = stage.agenda.take_first() else {
            return Ok(opened(stage));
        };
        let Some(next) = taken(alloc, world, stage, formula)? else {
            return Ok(Settled::Closed);
        };
        stage = next;
        left -= 1;
    }
    Ok(opened(stage))
}

/// The settled world of a stage; what is left on its agenda is dropped.
fn opened(stage: Stage) -> Settled
    ensures { result ≡ Open stage.pairs stage.list }
{
    let Stage { pairs, list, .. } = stage;
    Settled::Open { pairs, list }
}

/// A formula taken from an agenda: it is normed under the substitution, and dropped where its normal
/// form passes a limit. There is no stage where it closes.
fn taken(
    alloc: Global,
    world: &World,
    stage: Stage,
    formula: Term,
) -> Result<Option<Stage>, AllocError>
    ensures { IfOk result (λ r. r ≡ taken world.now.vars (norm_in world.now.vars) formula
        stage.agenda stage.pairs stage.list) }
{
    match normed_under(alloc, world, &stage.pairs, formula)? {
        Some(normal) => normed_taken(alloc, world, stage, normal),
        None => Ok(Some(stage)),
    }
}

/// A normed formula taken, by what it is.
fn normed_taken(
    alloc: Global,
    world: &World,
    stage: Stage,
    formula: Term,
) -> Result<Option<Stage>, AllocError>
    ensures { IfOk result (λ r. r ≡ normed_taken world.now.vars (norm_in world.now.vars)
        stage.agenda stage.pairs stage.list formula) }
{
    if let Some(holds) = truth_in(&formula) {
        return Ok(if holds { Some(stage) } else { None });
    }
    if let Some(sides) = args_of(Op::And, &formula) {
        return Ok(Some(and_taken(alloc, stage, sides.first, sides.second)?));
    }
    if args_of(Op::Or, &formula).is_some() {
        return Ok(Some(or_taken(alloc, world, stage, formula)?));
    }
    if let Some(pair) = pair_of(alloc, &formula)? {
        return Ok(Some(pair_taken(alloc, stage, pair)?));
    }
    literal_taken(alloc, world, stage, formula)
}

/// Both sides of an `and` go to the front.
fn and_taken(alloc: Global, stage: Stage, first: &Term, second: &Term) -> Result<Stage, AllocError>
    ensures { IfOk result (λ s. s ≡ stage_of (first.now ∷ second.now ∷ stage.agenda)
        stage.pairs stage.list) }
{
    let mut stage = stage;
    stage.agenda.push_first(copy_term(alloc, second)?)?;
    stage.agenda.push_first(copy_term(alloc, first)?)?;
    Ok(stage)
}

/// An `or` is reduced by the list. If that changes it, it goes to the front; else it is appended
/// unless it is there.
fn or_taken(alloc: Global, world: &World, stage: Stage, formula: Term) -> Result<Stage, AllocError>
    ensures { IfOk result (λ s. s ≡ or_taken world.now.vars (norm_in world.now.vars)
        stage.agenda stage.pairs stage.list formula) }
{
    let mut stage = stage;
    let copy = copy_term(alloc, &formula)?;
    let less = reduced(alloc, world, stage.list.as_slice(), copy)?;
    if !same_term(&less, &formula) {
        stage.agenda.push_first(less)?;
        return Ok(stage);
    }
    if !contains(&formula, stage.list.as_slice()) {
        stage.list.push(formula)?;
    }
    Ok(stage)
}

/// A pair goes to the substitution, and all of the list to the front.
fn pair_taken(alloc: Global, stage: Stage, pair: Pair) -> Result<Stage, AllocError>
    ensures { IfOk result (λ s. s ≡ stage_of (stage.list ++ stage.agenda)
        (stage.pairs ++ pair ∷ []) []) }
{
    let Stage {
        mut agenda,
        mut pairs,
        list,
    } = stage;
    agenda.push_all_first(list)?;
    pairs.push(pair)?;
    Ok(Stage {
        agenda,
        pairs,
        list: Items::new(alloc),
    })
}

/// An atom or negated atom that is known to be true is dropped, one that is known to be false
/// closes, and another is appended.
fn literal_taken(
    alloc: Global,
    world: &World,
    stage: Stage,
    formula: Term,
) -> Result<Option<Stage>, AllocError>
    ensures { IfOk result (λ r. r ≡ literal_taken world.now.vars (norm_in world.now.vars)
        stage.agenda stage.pairs stage.list formula
        (known_literal world.now.vars (norm_in world.now.vars) stage.list formula)) }
{
    match known_literal(alloc, world, stage.list.as_slice(), &formula)? {
        Some(true) => Ok(Some(stage)),
        Some(false) => Ok(None),
        None => Ok(Some(appended(alloc, world, stage, formula)?)),
    }
}

/// A formula is appended to the list; each `or` of the list that reducing then changes moves to the
/// agenda's end.
fn appended(alloc: Global, world: &World, stage: Stage, formula: Term) -> Result<Stage, AllocError>
    ensures { IfOk result (λ s. s ≡ appended world.now.vars (norm_in world.now.vars)
        stage.agenda stage.pairs (stage.list ++ formula ∷ [])) }
{
    let mut stage = stage;
    stage.list.push(formula)?;
    let moving = moving(alloc, world, stage.list.as_slice())?;
    if moving.is_empty() {
        return Ok(stage);
    }
    let Stage {
        agenda,
        pairs,
        list,
    } = stage;
    let staying = staying(alloc, world, list.as_slice())?;
    Ok(Stage {
        agenda: with_last(alloc, agenda, moving)?,
        pairs,
        list: staying,
    })
}

/// What is known of an atom or a negated atom.
fn known_literal(
    alloc: Global,
    world: &World,
    list: &[Term],
    formula: &Term,
) -> Result<Option<bool>, AllocError>
    ensures { IfOk result (λ r. r ≡ known_literal world.now.vars (norm_in world.now.vars)
        list.now formula.now) }
{
    let Some(atom) = arg_of(Op::Not, formula) else {
        return atom_known(alloc, world, list, formula);
    };
    match atom_known(alloc, world, list, atom)? {
        Some(holds) => Ok(Some(!holds)),
        None => Ok(None),
    }
}

/// What is known of a term that is an atom.
fn atom_known(
    alloc: Global,
    world: &World,
    list: &[Term],
    term: &Term,
) -> Result<Option<bool>, AllocError>
    ensures { IfOk result (λ r. r ≡ atom_known world.now.vars (norm_in world.now.vars)
        list.now term.now) }
{
    if is_atom(term, world.vars()) {
        known(alloc, world, list, term)
    } else {
        Ok(None)
    }
}

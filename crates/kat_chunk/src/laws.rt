//! The laws of what chunks stand for. Such a function does nothing: its contract is the law.

ghost use Rattle.kat_chunk.specs.Laws.{ChunksHaveParts, PartsAreAdded, MoreMayBeOwned, PartsStay, CellsComeOut, HolesAreFilled};

use kat_claims::fragments_join;
use kat_term::worlds_grow;
use kat_value::equality_is_tested;

/// Each chunk of a list has its part, disjoint from those of the others; what another chunk stands
/// for may stand in its place. A chunk that is added adds its part, and more may be owned.
pub fn chunks_have_parts()
    ensures focus { ChunksHaveParts }
    ensures added { PartsAreAdded }
    ensures more { MoreMayBeOwned }
{
    fragments_join();
}

/// Chunks stand for what they stood for as the valuation is extended.
pub fn parts_stay()
    ensures { PartsStay }
{
    worlds_grow();
}

/// A cell that a region has comes out of it and leaves a hole, and a cell at a hole fills it.
pub fn cells_of_regions()
    ensures out { CellsComeOut }
    ensures filled { HolesAreFilled }
{
    equality_is_tested();
}

//! Laws of what the contracts speak of. A function here does nothing: its contract is the law.
ghost use Rattle.kat_io.specs.WriteLaws.{WritesJoin, GaveUpInMore, GaveUpAtOnce};

/// A piece written whole and another write are one write of both; so are a piece that was given up
/// and one that was not begun.
pub fn writes_join()
    ensures join { WritesJoin }
    ensures more { GaveUpInMore }
    ensures at_once { GaveUpAtOnce }
{}

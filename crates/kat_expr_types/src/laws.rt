//! Laws of noting faults. Each function here does nothing: its contract is the law.

ghost use Rattle.kat_expr_types.specs.Laws.{NotingLaws, TreesLaws};

/// Faults are noted part by part, and what is known of expressions has their trees.
pub fn typing_laws()
    ensures noting { NotingLaws }
    ensures trees { TreesLaws }
{}

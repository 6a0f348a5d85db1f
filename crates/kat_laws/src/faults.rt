//! What holds of declarations without faults.

ghost use Rattle.kat_laws.specs.CleanDeclarations.{CleanDeclarations};

/// Each declaration of a specification without faults of typing has none by itself: its names are
/// the first of their kind, nothing inside it has a fault, and each condition that its typing asks
/// is met. There are no more declarations than there may be.
pub fn clean_declarations()
    ensures { CleanDeclarations }
{}

//! What the rule says of entries by their numbers. A function here does nothing: its contract is
//! the law.

ghost use Rattle.std.specs.Prelude.{◌≡◌, ℕ, List};
ghost use Rattle.kat_machines.specs.declared.pmp.Access.{Access};
ghost use Rattle.kat_machines.specs.declared.pmp.Entry.{Entry};
ghost use Rattle.kat_machines.specs.declared.pmp.Priv.{Priv};
ghost use Rattle.kat_machines.specs.ByNumber.{IsDecidedBy, IsDecidedByNone, granted_by, is_free};
ghost use Rattle.kat_machines.specs.Pmp.{allows};

/// The least entry that matches an index decides on an access to it, and where none matches the
/// mode alone does.
pub fn the_least_match_decides()
    ensures decided { (entries : List Entry) (mode : Priv) (kind : Access) (index i : ℕ) →
        IsDecidedBy entries index i →
        allows entries mode kind index ≡ granted_by entries i mode kind }
    ensures undecided { (entries : List Entry) (mode : Priv) (kind : Access) (index : ℕ) →
        IsDecidedByNone entries index →
        allows entries mode kind index ≡ is_free mode }
{}

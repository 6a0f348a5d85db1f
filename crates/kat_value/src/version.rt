//! The versions of the language.

ghost use Rattle.std.specs.Prelude.{◌≡◌};
ghost use Rattle.kat_value.specs.Version.{is_version};

/// The newest version of the language.
pub const NEWEST: u64 = 1;

/// Whether the language has a version of this number.
pub fn is_version(number: u64) -> bool
    ensures { result ≡ is_version number }
{
    number == NEWEST
}

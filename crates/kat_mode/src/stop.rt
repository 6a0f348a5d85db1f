//! Why a reading stops.

ghost use Rattle.std.specs.Prelude.{◌≡◌};
ghost use Rattle.kat_mode.specs.declared.stop.Stop.TheVariants.{Memory};

use kat_text::Text;
use std::alloc::AllocError;

/// Why a reading stops.
#[derive(Clone, Copy, Drop)]
pub enum Stop<'a> {
    /// This name is used, or left, unbound.
    At(&'a Text),
    /// Memory ran out.
    Memory,
}

impl<'a> From<AllocError> for Stop<'a> {
    ghost from_gives = { λ _ e. e ≡ Memory };

    fn from(_error: AllocError) -> Stop<'a> {
        Stop::Memory
    }
}

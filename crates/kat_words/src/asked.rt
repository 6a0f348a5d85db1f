//! What words may ask for.

ghost use Rattle.std.specs.Prelude.{◌≡◌};
ghost use Rattle.kat_words.specs.declared.asked.WordsError.TheVariants.{Memory};

use crate::devices::Devices;
use kat_text::Text;
use std::alloc::{AllocError, AllocFailed};

/// What the words ask for. The name of a file is the word as it stands: what a name that begins
/// with `@` means is not asked here.
#[derive(Debug, Drop)]
pub enum Job {
    /// `check SPEC`: whether the specification is typed.
    Check {
        spec: Text,
    },
    /// `print SPEC`: its canonical text.
    Print {
        spec: Text,
    },
    /// `verify SPEC`: whether it meets its contracts.
    Verify {
        spec: Text,
    },
    /// `replay SPEC REPORT`: the path that a report of `verify` names.
    Replay {
        spec: Text,
        report: Text,
    },
    /// `run SPEC IMAGE --cycles N --calls N [--devices LIST]`: 0 to 1,000,000 cycles from the
    /// image, each with 1 to 64 calls, and with the devices of these numbers.
    Run {
        spec: Text,
        image: Text,
        cycles: u64,
        calls: u64,
        devices: Devices,
    },
    /// `gen N`: the verdict on the generated specification of this number, 1 to 500.
    Gen {
        number: u32,
    },
}

/// Why the words give no job.
#[derive(Clone, Copy, Debug, PartialEq, Eq)]
pub enum WordsError {
    /// They ask for none.
    Usage,
    /// No memory is left.
    Memory,
}

impl From<AllocError> for WordsError {
    ghost from_gives = { λ _ e. e ≡ Memory };

    fn from(_error: AllocError) -> WordsError {
        WordsError::Memory
    }
}

impl<T: Drop> From<AllocFailed<T>> for WordsError {
    ghost from_gives = { λ _ e. e ≡ Memory };

    fn from(_error: AllocFailed<T>) -> WordsError {
        WordsError::Memory
    }
}

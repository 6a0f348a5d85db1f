//! The check itself.

ghost use Rattle.std.specs.Prelude.{◌≡◌, IfOk, IfErr};
ghost use Rattle.kat_syntax.specs.Modes.{IsModed, first_mode_fault};
ghost use Rattle.kat_mode.specs.Errors.{IsErrorOf};

use crate::first::first_mode_fault;
use kat_syntax::{Checked, Moded};
use kat_text::Text;
use std::alloc::Global;

/// Why a specification is not taken as a moded one.
#[derive(Debug, Drop)]
pub enum ModeError {
    /// It has faults of modes; in the first this name is used, or left, unbound, in this
    /// declaration.
    Unbound { decl: u32, name: Text },
    /// Memory ran out.
    Memory,
}

/// Takes a typed specification as a moded one, where each use of a name follows its binding and
/// each name is bound at the end of its scope; otherwise the error is the first fault.
pub fn check_modes(alloc: Global, checked: Checked) -> Result<Moded, ModeError>
    ensures same { IfOk result (λ moded. moded ≡ checked) }
    ensures moded { IfOk result (λ moded. IsModed checked) }
    ensures refused { IfErr result (IsErrorOf (first_mode_fault checked)) }
{
    match first_mode_fault(alloc, checked.spec()) {
        Ok(None) => Ok(Moded::new(checked)),
        Ok(Some(fault)) => Err(ModeError::Unbound {
            decl: fault.decl,
            name: fault.name,
        }),
        Err(_) => Err(ModeError::Memory),
    }
}

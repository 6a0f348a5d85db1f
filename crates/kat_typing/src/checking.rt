//! The check itself.

ghost use Rattle.std.specs.Prelude.{◌≡◌, IfOk, IfErr};
ghost use Rattle.kat_syntax.specs.FirstTypeFault.{IsTyped, first_type_fault};
ghost use Rattle.kat_typing.specs.Errors.{IsErrorOf};

use crate::first::first_type_fault;
use kat_syntax::{Checked, Spec, TypeRule, first_faults_are_least};
use std::alloc::Global;

/// Why a specification is not taken as a typed one.
#[derive(Clone, Copy, Drop)]
pub enum TypeError {
    /// It has faults of typing; the first stands at this tree of this declaration, and is that of
    /// this condition.
    Code {
        decl: u32,
        tree: u32,
        rule: TypeRule,
    },
    /// Memory ran out.
    Memory,
}

/// Takes a specification as a typed one, where no condition of a fault of typing holds at any tree;
/// otherwise the error is the first fault.
pub fn check(alloc: Global, spec: Spec) -> Result<Checked, TypeError>
    ensures same { IfOk result (λ checked. checked ≡ spec) }
    ensures typed { IfOk result (λ checked. IsTyped spec) }
    ensures refused { IfErr result (IsErrorOf (first_type_fault spec)) }
{
    match first_type_fault(alloc, &spec) {
        Ok(None) => {
            first_faults_are_least();
            match Checked::new(alloc, spec) {
                Ok(checked) => Ok(checked),
                Err(_) => Err(TypeError::Memory),
            }
        }
        Ok(Some(fault)) => Err(TypeError::Code {
            decl: fault.decl,
            tree: fault.tree,
            rule: fault.rule,
        }),
        Err(_) => Err(TypeError::Memory),
    }
}

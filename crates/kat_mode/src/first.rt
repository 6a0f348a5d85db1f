//! The first fault of modes of a specification.

ghost use Rattle.std.specs.Prelude.{◌≡◌, IfOk};
ghost use Rattle.std.specs.Option.{option_copied};
ghost use Rattle.kat_syntax.specs.Modes.{decl_reading, first_mode_fault, inputs_among, stop_of};

use crate::decl::read_decl;
use crate::inputs::Inputs;
use crate::stop::Stop;
use kat_syntax::{Decl, Spec};
use kat_text::Text;
use std::alloc::{AllocError, Global};
use std::marker::Model;

/// A name that is used, or left, unbound, with the number of its declaration.
#[derive(Drop)]
pub struct ModeFault {
    pub decl: u32,
    pub name: Text,
}

impl Model for ModeFault {
    ghost use Rattle.kat_syntax.specs.Modes.{ModeFault as FaultSeen};

    ghost Value = { FaultSeen };

    ghost view = { λ f. record { decl = f.decl; name = f.name } };

    ghost inverse = { λ f. record { decl = f.decl; name = f.name } };
}

/// The first fault of modes of a specification, if it has one: the first in the order of the
/// declarations, and in each in the order of reading. 2^32 declarations are taken for more than
/// memory holds.
pub fn first_mode_fault(alloc: Global, spec: &Spec) -> Result<Option<ModeFault>, AllocError>
    ensures { IfOk result (λ found. found ≡ first_mode_fault spec.now) }
{
    let decls = spec.decls();
    if decls.len() > u32::MAX as usize {
        return Err(AllocError);
    }
    let inputs = Inputs::of(alloc, decls)?;
    for (number, decl) in decls.iter().enumerate() {
        if let Some(name) = stop_in(alloc, &inputs, decl)? {
            return Ok(Some(ModeFault {
                decl: number as u32,
                name: name.copy()?,
            }));
        }
    }
    Ok(None)
}

/// The name at which the reading of a declaration stops.
fn stop_in<'a>(
    alloc: Global,
    inputs: &Inputs<'a>,
    decl: &'a Decl,
) -> Result<Option<&'a Text>, AllocError>
    ensures { IfOk result (λ name. option_copied name
        ≡ stop_of (decl_reading (inputs_among inputs.now) decl.now)) }
{
    match read_decl(alloc, inputs, decl.form()) {
        Ok(()) => Ok(None),
        Err(Stop::At(name)) => Ok(Some(name)),
        Err(Stop::Memory) => Err(AllocError),
    }
}

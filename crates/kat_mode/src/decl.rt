//! The reading of the assertions of a declaration.

ghost use Rattle.std.specs.Prelude.{◌≡◌, []};
ghost use Rattle.kat_syntax.specs.Modes.{and_read, decl_reading, inputs_among, leave_all, names_of, read_binding, reading_of, stop_of};
ghost use Rattle.kat_mode.specs.Reading.{Follows, StopsAt};

use crate::assertion::read_assertion;
use crate::expr::ask_name;
use crate::inputs::Inputs;
use crate::stop::Stop;
use crate::unbound::Unbound;
use kat_syntax::{Assertion, DeclForm, Param};
use std::alloc::Global;

/// Reads the assertions of a declaration, in order.
pub fn read_decl<'a>(alloc: Global, inputs: &Inputs<'a>, decl: &'a DeclForm) -> Result<(), Stop<'a>>
    ensures { StopsAt result (stop_of (decl_reading (inputs_among inputs.now) decl.now)) }
{
    match decl {
        DeclForm::Predicate {
            outputs,
            definition,
            ..
        } => read_binding(alloc, inputs, outputs.as_slice(), definition),
        DeclForm::Contract {
            names,
            pre,
            post,
            ..
        } => read_both(alloc, inputs, names.as_slice(), pre, post),
        DeclForm::Lemma {
            names,
            pre,
            post,
            ..
        } => read_both(alloc, inputs, names.as_slice(), pre, post),
        DeclForm::Untrusted(holds) => read_bound(alloc, inputs, holds),
        DeclForm::Block(block) => read_bound(alloc, inputs, &block.entry),
        _ => Ok(()),
    }
}

/// A precondition binds these names, which are bound in the postcondition.
fn read_both<'a>(
    alloc: Global,
    inputs: &Inputs<'a>,
    names: &'a [Param],
    pre: &'a Assertion,
    post: &'a Assertion,
) -> Result<(), Stop<'a>>
    ensures { StopsAt result (stop_of (and_read
        (read_binding (inputs_among inputs.now) (names_of names.now) pre.now)
        (λ unbound. reading_of (inputs_among inputs.now) post.now []))) }
{
    read_binding(alloc, inputs, names, pre)?;
    read_bound(alloc, inputs, post)
}

/// An assertion that binds these names.
fn read_binding<'a>(
    alloc: Global,
    inputs: &Inputs<'a>,
    names: &'a [Param],
    assertion: &'a Assertion,
) -> Result<(), Stop<'a>>
    ensures { StopsAt result (stop_of
        (read_binding (inputs_among inputs.now) (names_of names.now) assertion.now)) }
{
    let mut unbound = Unbound::none(alloc);
    unbound.unbind_all(names)?;
    read_assertion(inputs, &mut unbound, assertion)?;
    ask_params(&unbound, names)
}

/// The names of parameters have to be bound.
fn ask_params<'a>(unbound: &Unbound<'a>, params: &'a [Param]) -> Result<(), Stop<'a>>
    ensures { Follows (leave_all (names_of params.now)) unbound.now unbound.now result }
{
    for param in params {
        ask_name(unbound, &param.name)?;
    }
    Ok(())
}

/// An assertion with all names around it bound.
fn read_bound<'a>(
    alloc: Global,
    inputs: &Inputs<'a>,
    assertion: &'a Assertion,
) -> Result<(), Stop<'a>>
    ensures { StopsAt result
        (stop_of (reading_of (inputs_among inputs.now) assertion.now [])) }
{
    let mut unbound = Unbound::none(alloc);
    read_assertion(inputs, &mut unbound, assertion)
}

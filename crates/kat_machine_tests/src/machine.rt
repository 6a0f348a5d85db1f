//! Machines of texts, and the states of their images.

ghost use Rattle.std.specs.Prelude.{◌≤◌, length, IfSome, IsSomeAnd};
ghost use Rattle.std.specs.List.{AllByRecursion};
ghost use Rattle.kat_ast.specs.Declarations.{IsDecl};
ghost use Rattle.kat_syntax.specs.States.{IsState};
ghost use Rattle.kat_laws.specs.Runs.{IsMachine};

use kat_forms::read_spec;
use kat_image::read_image;
use kat_laws::images_are_states;
use kat_state::State;
use kat_syntax::{Checked, Spec};
use kat_tree::{places, read_tree, spelled_is_writable, trees_fit_their_text};
use kat_typing::check;
use std::alloc::Global;

/// The machine of a text; none where it is not typed, or memory runs out.
pub(crate) fn machine_of(alloc: Global, text: &str) -> Option<Checked>
    ensures { IfSome result IsMachine }
{
    match check(alloc, spec_of(alloc, text.as_bytes())?) {
        Ok(machine) => Some(machine),
        Err(_) => None,
    }
}

/// The specification of a text; none where it is too long, not of the language, or memory runs out.
fn spec_of(alloc: Global, text: &[u8]) -> Option<Spec>
    ensures { IfSome result (λ spec. AllByRecursion IsDecl spec.decls) }
{
    if text.len() > 4_096 {
        return None;
    }
    let Ok(tree) = read_tree(alloc, text) else {
        return None;
    };
    trees_fit_their_text();
    spelled_is_writable();
    places();
    match read_spec(alloc, &tree) {
        Ok(spec) => Some(spec),
        Err(_) => None,
    }
}

/// The state that bytes are an image of; none where they are not, or memory runs out.
pub(crate) fn state_of(alloc: Global, machine: &Checked, image: &[u8]) -> Option<State>
    requires { IsMachine machine.now }
    ensures { IfSome result (IsState machine.now.decls) }
{
    images_are_states();
    match read_image(alloc, image, machine) {
        Ok(state) => Some(state),
        Err(_) => None,
    }
}

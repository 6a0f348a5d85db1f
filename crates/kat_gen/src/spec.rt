//! The generated specification of a number, and its text.

ghost use Rattle.std.specs.Prelude.{◌≡◌, ◌++◌, ◌≤◌, IfOk, OnOk};
ghost use Rattle.std.specs.String.{string_bytes};
ghost use Rattle.kat_ast.specs.Specifications.{Reads, canonical_text};
ghost use Rattle.kat_tree.specs.Lexeme.{joined};
ghost use Rattle.kat_gen.specs.Generated.{IsAsked, generated_of};
ghost use Rattle.kat_gen.specs.Pieces.{counters_text, decls_pieces, generated_pieces};

use crate::counter::push_counter;
use crate::laws::generated_has_its_form;
use crate::machine::{push_boundary, push_cycle, push_first};
use kat_print::reads_back;
use kat_text::TextBuilder;
use std::alloc::{AllocError, Global};

/// The canonical text of the generated specification of a number, 1 to 500. It reads back to the
/// specification, and takes a time and a memory that grow with the number.
pub fn spec_of(alloc: Global, number: u32) -> Result<String, AllocError>
    requires { IsAsked number }
    ensures canonical { IfOk result (λ s. string_bytes s ≡ canonical_text (generated_of number)) }
    ensures read_back { IfOk result (λ s. Reads (string_bytes s) (generated_of number)) }
{
    generated_has_its_form();
    reads_back();
    Ok(generated(alloc, number)?.into_string())
}

/// The text of the generated specification.
fn generated(alloc: Global, number: u32) -> Result<TextBuilder, AllocError>
    requires { number ≤ 500 }
    ensures { IfOk result (λ t. t ≡ joined (generated_pieces number)) }
{
    let mut out = TextBuilder::new(alloc);
    out.push_text("(spec 1")?;
    push_decls(&mut out, number)?;
    out.push_text(")\n")?;
    Ok(out)
}

/// The declarations in their order.
fn push_decls(out: &mut TextBuilder, number: u32) -> Result<(), AllocError>
    requires { number ≤ 500 }
    ensures { OnOk result (out.new ≡ out.old ++ joined (decls_pieces number)) }
{
    push_first(out)?;
    push_counters(out, number)?;
    push_cycle(out, number)?;
    push_boundary(out, number)
}

/// The declarations of each number below this one.
fn push_counters(out: &mut TextBuilder, number: u32) -> Result<(), AllocError>
    requires { number ≤ 500 }
    ensures { OnOk result (out.new ≡ out.old ++ counters_text number) }
{
    for i in 0..number {
        push_counter(out, i)?;
    }
    Ok(())
}

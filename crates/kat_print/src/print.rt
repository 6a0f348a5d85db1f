//! The canonical text of a specification.

ghost use Rattle.std.specs.Prelude.{◌≡◌, ◌++◌, map, IfOk, OnOk};
ghost use Rattle.std.specs.String.{string_bytes};
ghost use Rattle.kat_tree.specs.Written.{behind_spaces};
ghost use Rattle.kat_ast.specs.Specifications.{Reads, canonical_text};
ghost use Rattle.kat_print.specs.Declarations.{text_of_decl, text_of_spec};

use crate::declarations::put_decl;
use crate::laws::reads_back;
use kat_ast::{Decl, Spec};
use kat_text::TextBuilder;
use std::alloc::{AllocError, Global};

/// The canonical text of a specification: `(spec V D ..)` and a newline, with one space between two
/// trees, none inside the ends of brackets, and numbers in decimal. It reads back to the
/// specification.
pub fn print_spec(alloc: Global, spec: &Spec) -> Result<String, AllocError>
    ensures canonical { IfOk result (λ s. string_bytes s ≡ canonical_text spec.now) }
    ensures read_back { IfOk result (λ s. Reads (string_bytes s) spec.now) }
{
    reads_back();
    let mut out = TextBuilder::new(alloc);
    put_spec(&mut out, spec.version(), spec.decls())?;
    out.push_newline()?;
    Ok(out.into_string())
}

/// A version and declarations as a specification.
fn put_spec(out: &mut TextBuilder, version: u64, decls: &[Decl]) -> Result<(), AllocError>
    ensures { OnOk result (out.new ≡
        out.old ++ text_of_spec (record { version = version; decls = decls.now })) }
{
    out.push_head("spec")?;
    out.push_decimal_part(version)?;
    put_decls(out, decls)?;
    out.push_close()
}

/// Declarations, each behind a space.
fn put_decls(out: &mut TextBuilder, decls: &[Decl]) -> Result<(), AllocError>
    ensures { OnOk result (out.new ≡ out.old ++ behind_spaces (map text_of_decl decls.now)) }
{
    for decl in decls {
        out.push_space()?;
        put_decl(out, decl.form())?;
    }
    Ok(())
}

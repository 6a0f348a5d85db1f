//! Parts of a list, each behind a space.

ghost use Rattle.std.specs.Prelude.{◌≡◌, ◌++◌, ◌∷◌, OnOk};

use kat_text::{Text, TextBuilder};
use std::alloc::AllocError;

/// A name behind a space.
pub fn put_name(out: &mut TextBuilder, name: &Text) -> Result<(), AllocError>
    ensures { OnOk result (out.new ≡ out.old ++ 32 ∷ name.now) }
{
    out.push_part(name.as_str())
}

/// The start of a list, with its first word, behind a space.
pub fn put_head(out: &mut TextBuilder, head: &str) -> Result<(), AllocError>
    ensures { OnOk result (out.new ≡ out.old ++ 32 ∷ 40 ∷ head.now) }
{
    out.push_space()?;
    out.push_head(head)
}

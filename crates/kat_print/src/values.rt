//! Values, and the lines of registers.

ghost use Rattle.std.specs.Prelude.{◌≡◌, ◌++◌, ◌+◌, ◌/◌, [], ◌∷◌, map, codes, IfOk, OnOk};
ghost use Rattle.std.specs.String.{string_bytes};
ghost use Rattle.kat_text.specs.Hexadecimal.{hex_digits};
ghost use Rattle.kat_tree.specs.Written.{behind_spaces};
ghost use Rattle.kat_print.specs.Lists.{listed};
ghost use Rattle.kat_print.specs.Values.{text_of_value, register_line};

use crate::terms::{name_of_ctor, name_of_member, name_of_type};
use kat_text::TextBuilder;
use kat_value::{Types, Value};
use std::alloc::{AllocError, Global};

/// The text of a value: `unit`, `true`, `false`, bits as `0x` and as many lower-case digits as a
/// quarter of the width rounded up, a member by its name, `(K value)` and `(R value ..)`, with the
/// names of the table of types.
pub fn print_value(alloc: Global, types: &Types, value: &Value) -> Result<String, AllocError>
    ensures { IfOk result (λ s. string_bytes s ≡ text_of_value types.now value.now) }
{
    let mut out = TextBuilder::new(alloc);
    push_value(&mut out, types, value)?;
    Ok(out.into_string())
}

/// The line of a register, `reg NAME VALUE`, with its newline.
pub fn push_register_line(
    out: &mut TextBuilder,
    types: &Types,
    name: &str,
    value: &Value,
) -> Result<(), AllocError>
    ensures { OnOk result (out.new ≡ out.old ++ register_line types.now name.now value.now) }
{
    out.push_text("reg ")?;
    out.push_text(name)?;
    out.push_text(" ")?;
    push_value(out, types, value)?;
    out.push_newline()
}

/// A value.
#[cycle(value)]
pub fn push_value(out: &mut TextBuilder, types: &Types, value: &Value) -> Result<(), AllocError>
    ensures { OnOk result (out.new ≡ out.old ++ text_of_value types.now value.now) }
{
    match value {
        Value::Unit => out.push_text("unit"),
        Value::Bool(true) => out.push_text("true"),
        Value::Bool(false) => out.push_text("false"),
        Value::Bits { width, number } => push_hexadecimal(out, *width, *number),
        Value::Member { of, index } => out.push_text(name_of_member(types, *of, *index)),
        Value::Made { of, ctor, inner } => {
            push_made(out, types, name_of_ctor(types, *of, *ctor), inner.get())
        }
        Value::Rec { of, fields } => {
            push_record(out, types, name_of_type(types, *of), fields.as_slice())
        }
    }
}

/// A constructor with its payload.
#[cycle(value)]
fn push_made(
    out: &mut TextBuilder,
    types: &Types,
    ctor: &str,
    payload: &Value,
) -> Result<(), AllocError>
    ensures { OnOk result (out.new ≡ out.old
        ++ listed ctor.now (text_of_value types.now payload.now ∷ [])) }
{
    out.push_head(ctor)?;
    out.push_space()?;
    push_value(out, types, payload)?;
    out.push_close()
}

/// A record with its fields.
#[cycle(value)]
fn push_record(
    out: &mut TextBuilder,
    types: &Types,
    of: &str,
    fields: &[Value],
) -> Result<(), AllocError>
    ensures { OnOk result (out.new ≡ out.old
        ++ listed of.now (map (text_of_value types.now) fields.now)) }
{
    out.push_head(of)?;
    push_values(out, types, fields)?;
    out.push_close()
}

/// Values, each behind a space.
#[cycle(value)]
fn push_values(out: &mut TextBuilder, types: &Types, values: &[Value]) -> Result<(), AllocError>
    ensures { OnOk result (out.new
        ≡ out.old ++ behind_spaces (map (text_of_value types.now) values.now)) }
{
    for value in values {
        out.push_space()?;
        push_value(out, types, value)?;
    }
    Ok(())
}

/// A number of so many bits.
fn push_hexadecimal(out: &mut TextBuilder, width: u32, number: u64) -> Result<(), AllocError>
    ensures { OnOk result (out.new
        ≡ out.old ++ codes "0x" ++ hex_digits ((width + 3) / 4) number) }
{
    out.push_text("0x")?;
    out.push_hexadecimal(number, width.div_ceil(4))
}

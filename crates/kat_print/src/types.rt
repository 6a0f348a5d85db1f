//! Types, parameters and lists of names.

ghost use Rattle.std.specs.Prelude.{◌≡◌, ◌++◌, [], ◌∷◌, map, OnOk};
ghost use Rattle.kat_tree.specs.Written.{behind_spaces};
ghost use Rattle.kat_print.specs.Lists.{bracketed, listed};
ghost use Rattle.kat_print.specs.Types.{text_of_type, text_of_param, text_of_params};

use crate::parts::put_name;
use kat_ast::{Param, TypeName};
use kat_text::{Text, TextBuilder};
use std::alloc::AllocError;

/// A type.
pub fn put_type(out: &mut TextBuilder, ty: &TypeName) -> Result<(), AllocError>
    ensures { OnOk result (out.new ≡ out.old ++ text_of_type ty.now) }
{
    match ty {
        TypeName::Unit => out.push_text("unit"),
        TypeName::Bool => out.push_text("bool"),
        TypeName::Bits(width) => {
            out.push_head("bits")?;
            out.push_decimal_part(*width)?;
            out.push_close()
        }
        TypeName::Named(name) => out.push_text(name.as_str()),
    }
}

/// A type behind a space.
pub fn put_type_part(out: &mut TextBuilder, ty: &TypeName) -> Result<(), AllocError>
    ensures { OnOk result (out.new ≡ out.old ++ 32 ∷ text_of_type ty.now) }
{
    out.push_space()?;
    put_type(out, ty)
}

/// A name with its type, `(x T)`.
pub fn put_typed(out: &mut TextBuilder, name: &Text, ty: &TypeName) -> Result<(), AllocError>
    ensures { OnOk result (out.new ≡ out.old ++ listed name.now (text_of_type ty.now ∷ [])) }
{
    out.push_head(name.as_str())?;
    put_type_part(out, ty)?;
    out.push_close()
}

/// A list of parameters.
pub fn put_params(out: &mut TextBuilder, params: &[Param]) -> Result<(), AllocError>
    ensures { OnOk result (out.new ≡ out.old ++ text_of_params params.now) }
{
    out.push_text("(")?;
    if let Some((first, rest)) = params.split_first() {
        put_typed(out, &first.name, &first.ty)?;
        put_more_params(out, rest)?;
    }
    out.push_close()
}

/// Parameters behind a space.
pub fn put_params_part(out: &mut TextBuilder, params: &[Param]) -> Result<(), AllocError>
    ensures { OnOk result (out.new ≡ out.old ++ 32 ∷ text_of_params params.now) }
{
    out.push_space()?;
    put_params(out, params)
}

/// Parameters, each behind a space.
fn put_more_params(out: &mut TextBuilder, params: &[Param]) -> Result<(), AllocError>
    ensures { OnOk result (out.new ≡ out.old ++ behind_spaces (map text_of_param params.now)) }
{
    for param in params {
        out.push_space()?;
        put_typed(out, &param.name, &param.ty)?;
    }
    Ok(())
}

/// A list of names.
pub fn put_names(out: &mut TextBuilder, names: &[Text]) -> Result<(), AllocError>
    ensures { OnOk result (out.new ≡ out.old ++ bracketed names.now) }
{
    out.push_text("(")?;
    if let Some((first, rest)) = names.split_first() {
        out.push_text(first.as_str())?;
        put_more_names(out, rest)?;
    }
    out.push_close()
}

/// Names, each behind a space.
fn put_more_names(out: &mut TextBuilder, names: &[Text]) -> Result<(), AllocError>
    ensures { OnOk result (out.new ≡ out.old ++ behind_spaces names.now) }
{
    for name in names {
        put_name(out, name)?;
    }
    Ok(())
}

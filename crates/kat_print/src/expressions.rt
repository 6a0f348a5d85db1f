//! Expressions.

ghost use Rattle.std.specs.Prelude.{◌≡◌, ◌++◌, [], ◌∷◌, map, codes, OnOk};
ghost use Rattle.std.specs.Fmt.{decimal};
ghost use Rattle.kat_tree.specs.Written.{behind_spaces};
ghost use Rattle.kat_print.specs.Lists.{listed};
ghost use Rattle.kat_print.specs.Expressions.{number_texts, text_of_op, text_of_expr};

use crate::parts::put_name;
use kat_ast::{Expr, Op};
use kat_text::{Text, TextBuilder};
use kat_value::{OpNumbers, numbers_of_op, word_of_op};
use std::alloc::AllocError;

/// An expression.
#[cycle(expr)]
pub fn put_expr(out: &mut TextBuilder, expr: &Expr) -> Result<(), AllocError>
    ensures { OnOk result (out.new ≡ out.old ++ text_of_expr expr.now) }
{
    match expr {
        Expr::Name(name) => out.push_text(name.as_str()),
        Expr::Unit => out.push_text("unit"),
        Expr::Truth(true) => out.push_text("true"),
        Expr::Truth(false) => out.push_text("false"),
        Expr::Bits { width, number } => put_bits(out, *width, *number),
        Expr::Of { of, member } => put_two_names(out, "of", of, member),
        Expr::Make { ctor, payload } => put_named_of(out, "make", ctor, payload.get()),
        Expr::Rec { of, fields } => put_named_of_all(out, "rec", of, fields.as_slice()),
        Expr::Register(register) => put_named(out, "reg", register),
        Expr::Kept(register) => put_named(out, "kept", register),
        Expr::KeptCell(cell) => put_numbered(out, "kept_cell", *cell),
        Expr::Before(register) => put_named(out, "before", register),
        Expr::After(register) => put_named(out, "after", register),
        Expr::BeforeCell(cell) => put_numbered(out, "before_cell", *cell),
        Expr::AfterCell(cell) => put_numbered(out, "after_cell", *cell),
        Expr::Apply { op, args } => put_apply(out, *op, args.as_slice()),
        Expr::Get { of, field, value } => put_get(out, of, field, value.get()),
    }
}

/// An expression behind a space.
#[cycle(expr)]
pub fn put_part(out: &mut TextBuilder, expr: &Expr) -> Result<(), AllocError>
    ensures { OnOk result (out.new ≡ out.old ++ 32 ∷ text_of_expr expr.now) }
{
    out.push_space()?;
    put_expr(out, expr)
}

/// Expressions, each behind a space.
#[cycle(expr)]
pub fn put_exprs(out: &mut TextBuilder, exprs: &[Expr]) -> Result<(), AllocError>
    ensures { OnOk result (out.new ≡ out.old ++ behind_spaces (map text_of_expr exprs.now)) }
{
    for expr in exprs {
        put_part(out, expr)?;
    }
    Ok(())
}

/// A form with one name.
pub fn put_named(out: &mut TextBuilder, head: &str, name: &Text) -> Result<(), AllocError>
    ensures { OnOk result (out.new ≡ out.old ++ listed head.now (name.now ∷ [])) }
{
    out.push_head(head)?;
    put_name(out, name)?;
    out.push_close()
}

/// A form with one expression.
pub fn put_of(out: &mut TextBuilder, head: &str, expr: &Expr) -> Result<(), AllocError>
    ensures { OnOk result (out.new ≡ out.old ++ listed head.now (text_of_expr expr.now ∷ [])) }
{
    out.push_head(head)?;
    put_part(out, expr)?;
    out.push_close()
}

/// A form with two expressions.
pub fn put_of_two(
    out: &mut TextBuilder,
    head: &str,
    first: &Expr,
    second: &Expr,
) -> Result<(), AllocError>
    ensures { OnOk result (out.new ≡ out.old
        ++ listed head.now (text_of_expr first.now ∷ text_of_expr second.now ∷ [])) }
{
    out.push_head(head)?;
    put_part(out, first)?;
    put_part(out, second)?;
    out.push_close()
}

/// A form with a name and an expression.
#[cycle(expr)]
pub fn put_named_of(
    out: &mut TextBuilder,
    head: &str,
    name: &Text,
    expr: &Expr,
) -> Result<(), AllocError>
    ensures { OnOk result (out.new ≡ out.old
        ++ listed head.now (name.now ∷ text_of_expr expr.now ∷ [])) }
{
    out.push_head(head)?;
    put_name(out, name)?;
    put_part(out, expr)?;
    out.push_close()
}

/// A form with a name and expressions.
#[cycle(expr)]
pub fn put_named_of_all(
    out: &mut TextBuilder,
    head: &str,
    name: &Text,
    exprs: &[Expr],
) -> Result<(), AllocError>
    ensures { OnOk result (out.new ≡ out.old
        ++ listed head.now (name.now ∷ map text_of_expr exprs.now)) }
{
    out.push_head(head)?;
    put_name(out, name)?;
    put_exprs(out, exprs)?;
    out.push_close()
}

/// A form with one number.
fn put_numbered(out: &mut TextBuilder, head: &str, number: u64) -> Result<(), AllocError>
    ensures { OnOk result (out.new ≡ out.old ++ listed head.now (decimal number ∷ [])) }
{
    out.push_head(head)?;
    out.push_decimal_part(number)?;
    out.push_close()
}

/// A form with two names.
fn put_two_names(
    out: &mut TextBuilder,
    head: &str,
    first: &Text,
    second: &Text,
) -> Result<(), AllocError>
    ensures { OnOk result (out.new ≡ out.old ++ listed head.now (first.now ∷ second.now ∷ [])) }
{
    out.push_head(head)?;
    put_name(out, first)?;
    put_name(out, second)?;
    out.push_close()
}

/// A number of a width.
pub fn put_bits(out: &mut TextBuilder, width: u64, number: u64) -> Result<(), AllocError>
    ensures { OnOk result (out.new ≡ out.old
        ++ listed (codes "bits") (decimal width ∷ decimal number ∷ [])) }
{
    out.push_head("bits")?;
    out.push_decimal_part(width)?;
    out.push_decimal_part(number)?;
    out.push_close()
}

#[cycle(expr)]
fn put_get(out: &mut TextBuilder, of: &Text, field: &Text, value: &Expr) -> Result<(), AllocError>
    ensures { OnOk result (out.new ≡ out.old
        ++ listed (codes "get") (of.now ∷ field.now ∷ text_of_expr value.now ∷ [])) }
{
    out.push_head("get")?;
    put_name(out, of)?;
    put_name(out, field)?;
    put_part(out, value)?;
    out.push_close()
}

/// An operation with its arguments.
#[cycle(expr)]
fn put_apply(out: &mut TextBuilder, op: Op, args: &[Expr]) -> Result<(), AllocError>
    ensures { OnOk result (out.new ≡ out.old
        ++ listed (text_of_op op) (map text_of_expr args.now)) }
{
    out.push_head(word_of_op(op))?;
    put_numbers(out, op)?;
    put_exprs(out, args)?;
    out.push_close()
}

/// The numbers that an operation is written with, before its arguments.
pub fn put_numbers(out: &mut TextBuilder, op: Op) -> Result<(), AllocError>
    ensures { OnOk result (out.new ≡ out.old ++ behind_spaces (number_texts op)) }
{
    match numbers_of_op(op) {
        OpNumbers::Zero => Ok(()),
        OpNumbers::One(number) => out.push_decimal_part(number),
        OpNumbers::Two(first, second) => {
            out.push_decimal_part(first)?;
            out.push_decimal_part(second)
        }
    }
}

//! The names in expressions, each of which has to be bound.

ghost use Rattle.std.specs.Prelude.{◌≡◌, map};
ghost use Rattle.kat_syntax.specs.Modes.{used_in, names_of_parts, read_names, leave};
ghost use Rattle.kat_mode.specs.Reading.{Follows};

use crate::stop::Stop;
use crate::unbound::Unbound;
use kat_syntax::Expr;
use kat_text::Text;

/// All names in an expression have to be bound.
#[cycle(expr)]
pub fn ask_expr<'a>(unbound: &Unbound<'a>, expr: &'a Expr) -> Result<(), Stop<'a>>
    ensures { Follows (read_names (used_in expr.now).names) unbound.now unbound.now result }
{
    match expr {
        Expr::Name(name) => ask_name(unbound, name),
        Expr::Make { payload, .. } => ask_expr(unbound, payload.get()),
        Expr::Rec { fields, .. } => ask_exprs(unbound, fields.as_slice()),
        Expr::Apply { args, .. } => ask_exprs(unbound, args.as_slice()),
        Expr::Get { value, .. } => ask_expr(unbound, value.get()),
        Expr::Unit
        | Expr::Truth(_)
        | Expr::Bits { .. }
        | Expr::Of { .. }
        | Expr::Register(_)
        | Expr::Kept(_)
        | Expr::KeptCell(_)
        | Expr::Before(_)
        | Expr::After(_)
        | Expr::BeforeCell(_)
        | Expr::AfterCell(_) => Ok(()),
    }
}

/// All names in expressions have to be bound.
#[cycle(expr)]
pub fn ask_exprs<'a>(unbound: &Unbound<'a>, exprs: &'a [Expr]) -> Result<(), Stop<'a>>
    ensures { Follows (read_names (names_of_parts (map used_in exprs.now)))
        unbound.now unbound.now result }
{
    for expr in exprs {
        ask_expr(unbound, expr)?;
    }
    Ok(())
}

/// A name has to be bound.
pub fn ask_name<'a>(unbound: &Unbound<'a>, name: &'a Text) -> Result<(), Stop<'a>>
    ensures { Follows (leave name.now) unbound.now unbound.now result }
{
    if unbound.has(name) {
        Err(Stop::At(name))
    } else {
        Ok(())
    }
}

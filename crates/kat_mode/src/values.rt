//! Values and conditions, which may bind names.

ghost use Rattle.std.specs.Prelude.{◌≡◌, true, Some, map};
ghost use Rattle.std.specs.Option.{option_copied, option_map};
ghost use Rattle.kat_syntax.specs.Modes.{Stopped, used_in, read_args, read_equation, read_truth, read_value, read_values};
ghost use Rattle.kat_mode.specs.Reading.{Follows};
ghost use Rattle.kat_mode.specs.Turning.{is_unbound};

use crate::expr::{ask_expr, ask_exprs};
use crate::stop::Stop;
use crate::unbound::Unbound;
use kat_syntax::{Expr, Op};
use kat_text::Text;

/// An expression where a value stands: an unbound name alone is bound by it.
pub fn read_value<'a>(unbound: &mut Unbound<'a>, value: &'a Expr) -> Result<(), Stop<'a>>
    ensures { Follows (read_value (used_in value.now)) unbound.old unbound.new result }
{
    match name_alone(value) {
        Some(name) if unbound.has(name) => {
            unbound.bind(name)?;
            Ok(())
        }
        _ => ask_expr(unbound, value),
    }
}

/// Values, one behind the other.
pub fn read_values<'a>(unbound: &mut Unbound<'a>, values: &'a [Expr]) -> Result<(), Stop<'a>>
    ensures { Follows (read_values (map used_in values.now)) unbound.old unbound.new result }
{
    for value in values {
        read_value(unbound, value)?;
    }
    Ok(())
}

/// Arguments, of which so many are inputs and the others outputs.
pub fn read_args<'a>(
    inputs: usize,
    unbound: &mut Unbound<'a>,
    args: &'a [Expr],
) -> Result<(), Stop<'a>>
    ensures { Follows (read_args inputs (map used_in args.now)) unbound.old unbound.new result }
{
    let first = inputs.min(args.len());
    ask_exprs(unbound, &args[..first])?;
    read_values(unbound, &args[first..])
}

/// A condition: `(eq x E)` binds an unbound x, and then all names in E have to be bound.
pub fn read_truth<'a>(unbound: &mut Unbound<'a>, test: &'a Expr) -> Result<(), Stop<'a>>
    ensures { Follows (read_truth (used_in test.now)) unbound.old unbound.new result }
{
    match equated(test) {
        Some((name, equal)) if unbound.has(name) => bind_equal(unbound, name, equal),
        _ => ask_expr(unbound, test),
    }
}

/// An unbound name is bound by what it is equal to. It is at fault itself where a name in that is
/// unbound.
fn bind_equal<'a>(
    unbound: &mut Unbound<'a>,
    name: &'a Text,
    equal: &'a Expr,
) -> Result<(), Stop<'a>>
    requires { is_unbound unbound.old name.now ≡ true }
    ensures { Follows
        (read_equation (Some (name.now, (used_in equal.now).names)) (Stopped name.now))
        unbound.old unbound.new result }
{
    match ask_expr(unbound, equal) {
        Ok(()) => {
            unbound.bind(name)?;
            Ok(())
        }
        Err(Stop::At(_)) => Err(Stop::At(name)),
        Err(Stop::Memory) => Err(Stop::Memory),
    }
}

/// The name and the expression that an equation of a name says to be equal.
fn equated<'a>(test: &'a Expr) -> Option<(&'a Text, &'a Expr)>
    ensures { option_map (λ equation. (equation.0.now, (used_in equation.1.now).names)) result
        ≡ (used_in test.now).equates }
{
    match test {
        Expr::Apply { op: Op::Eq, args } => match args.as_slice() {
            [first, second] => Some((name_alone(first)?, second)),
            _ => None,
        },
        _ => None,
    }
}

/// The name that an expression is alone.
fn name_alone<'a>(expr: &'a Expr) -> Option<&'a Text>
    ensures { option_copied result ≡ (used_in expr.now).alone }
{
    match expr {
        Expr::Name(name) => Some(name),
        _ => None,
    }
}

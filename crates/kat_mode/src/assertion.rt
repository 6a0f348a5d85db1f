//! The reading of assertions.

ghost use Rattle.std.specs.Prelude.{◌≡◌, ℕ};
ghost use Rattle.kat_ast.specs.declared.type_name.TypeName.{TypeName};
ghost use Rattle.kat_ast.specs.declared.assertion.Assertion.TheVariants as assertion;
ghost use Rattle.kat_syntax.specs.Tables.{Name};
ghost use Rattle.kat_syntax.specs.Modes.{inputs_among, reading_of, read_branches};
ghost use Rattle.kat_mode.specs.Reading.{Follows};

use crate::expr::{ask_expr, ask_exprs, ask_name};
use crate::inputs::Inputs;
use crate::stop::Stop;
use crate::unbound::Unbound;
use crate::values::{read_args, read_truth, read_value};
use kat_syntax::{Assertion, Expr};
use kat_text::Text;
use sqlite_items::Items;

/// Reads an assertion from left to right.
#[cycle(assertion)]
pub fn read_assertion<'a>(
    inputs: &Inputs<'a>,
    unbound: &mut Unbound<'a>,
    assertion: &'a Assertion,
) -> Result<(), Stop<'a>>
    ensures { Follows (reading_of (inputs_among inputs.now) assertion.now)
        unbound.old unbound.new result }
{
    match assertion {
        Assertion::Pure(test) => read_truth(unbound, test),
        Assertion::Register { value, .. } => read_value(unbound, value),
        Assertion::Cell { index, value } => read_cell(unbound, index, value),
        Assertion::Star(parts) => read_star(inputs, unbound, parts),
        Assertion::If {
            test,
            then,
            otherwise,
        } => read_if(inputs, unbound, test, then.get(), otherwise.get()),
        Assertion::Exists { name, body, .. } => read_exists(inputs, unbound, name, body.get()),
        Assertion::Predicate { predicate, args } => {
            read_args(inputs.of_predicate(predicate), unbound, args.as_slice())
        }
        Assertion::Region { args, .. } => ask_exprs(unbound, args.as_slice()),
    }
}

fn read_cell<'a>(
    unbound: &mut Unbound<'a>,
    index: &'a Expr,
    value: &'a Expr,
) -> Result<(), Stop<'a>>
    ensures { (inputs : Name → ℕ) →
        Follows (reading_of inputs (assertion.Cell index.now value.now))
        unbound.old unbound.new result }
{
    ask_expr(unbound, index)?;
    read_value(unbound, value)
}

#[cycle(assertion)]
fn read_star<'a>(
    inputs: &Inputs<'a>,
    unbound: &mut Unbound<'a>,
    parts: &'a Items<Assertion>,
) -> Result<(), Stop<'a>>
    ensures { Follows (reading_of (inputs_among inputs.now) (assertion.Star parts.now))
        unbound.old unbound.new result }
{
    for part in parts.as_slice() {
        read_assertion(inputs, unbound, part)?;
    }
    Ok(())
}

#[cycle(assertion)]
fn read_if<'a>(
    inputs: &Inputs<'a>,
    unbound: &mut Unbound<'a>,
    test: &'a Expr,
    then: &'a Assertion,
    otherwise: &'a Assertion,
) -> Result<(), Stop<'a>>
    ensures { Follows
        (reading_of (inputs_among inputs.now) (assertion.If test.now then.now otherwise.now))
        unbound.old unbound.new result }
{
    ask_expr(unbound, test)?;
    read_branches(inputs, unbound, then, otherwise)
}

/// Both branches of an `if`, each from the same names on. Behind them those names are bound that
/// both bind.
#[cycle(assertion)]
fn read_branches<'a>(
    inputs: &Inputs<'a>,
    unbound: &mut Unbound<'a>,
    then: &'a Assertion,
    otherwise: &'a Assertion,
) -> Result<(), Stop<'a>>
    ensures { Follows (read_branches (reading_of (inputs_among inputs.now) then.now)
        (reading_of (inputs_among inputs.now) otherwise.now)) unbound.old unbound.new result }
{
    let before = unbound.turns();
    read_assertion(inputs, unbound, then)?;
    let first = unbound.bound_since(before)?;
    unbound.turn_back(before);
    read_assertion(inputs, unbound, otherwise)?;
    let both = unbound.bound_among(first.as_slice())?;
    unbound.turn_back(before);
    unbound.bind_all(both.as_slice())?;
    Ok(())
}

#[cycle(assertion)]
fn read_exists<'a>(
    inputs: &Inputs<'a>,
    unbound: &mut Unbound<'a>,
    name: &'a Text,
    body: &'a Assertion,
) -> Result<(), Stop<'a>>
    ensures { (ty : TypeName) →
        Follows (reading_of (inputs_among inputs.now) (assertion.Exists name.now ty body.now))
        unbound.old unbound.new result }
{
    unbound.unbind(name)?;
    read_assertion(inputs, unbound, body)?;
    ask_name(unbound, name)
}

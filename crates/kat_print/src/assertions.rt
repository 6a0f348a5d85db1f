//! Assertions.

ghost use Rattle.std.specs.Prelude.{◌≡◌, ◌++◌, ◌∷◌, map, codes, OnOk};
ghost use Rattle.kat_print.specs.Lists.{listed};
ghost use Rattle.kat_print.specs.Assertions.{text_of_assertion};
ghost use Rattle.kat_print.specs.Declarations.{text_holding};

use crate::expressions::{put_named_of, put_named_of_all, put_of, put_of_two, put_part};
use crate::types::put_typed;
use kat_ast::Assertion;
use kat_text::TextBuilder;
use std::alloc::AllocError;

/// An assertion.
#[cycle(assertion)]
pub fn put_assertion(out: &mut TextBuilder, assertion: &Assertion) -> Result<(), AllocError>
    ensures { OnOk result (out.new ≡ out.old ++ text_of_assertion assertion.now) }
{
    match assertion {
        Assertion::Pure(test) => put_of(out, "pure", test),
        Assertion::Register { register, value } => put_named_of(out, "reg", register, value),
        Assertion::Cell { index, value } => put_of_two(out, "cell", index, value),
        Assertion::Star(parts) => put_star(out, parts.as_slice()),
        Assertion::If {
            test,
            then,
            otherwise,
        } => {
            out.push_head("if")?;
            put_part(out, test)?;
            put_assertion_part(out, then.get())?;
            put_assertion_part(out, otherwise.get())?;
            out.push_close()
        }
        Assertion::Exists { name, ty, body } => {
            out.push_head("exists")?;
            out.push_space()?;
            put_typed(out, name, ty)?;
            put_assertion_part(out, body.get())?;
            out.push_close()
        }
        Assertion::Predicate { predicate, args } => {
            put_named_of_all(out, "pred", predicate, args.as_slice())
        }
        Assertion::Region { region, args } => {
            put_named_of_all(out, "region", region, args.as_slice())
        }
    }
}

/// An assertion behind a space.
#[cycle(assertion)]
pub fn put_assertion_part(out: &mut TextBuilder, assertion: &Assertion) -> Result<(), AllocError>
    ensures { OnOk result (out.new ≡ out.old ++ 32 ∷ text_of_assertion assertion.now) }
{
    out.push_space()?;
    put_assertion(out, assertion)
}

#[cycle(assertion)]
fn put_star(out: &mut TextBuilder, parts: &[Assertion]) -> Result<(), AllocError>
    ensures { OnOk result (out.new ≡ out.old
        ++ listed (codes "star") (map text_of_assertion parts.now)) }
{
    out.push_head("star")?;
    for part in parts {
        put_assertion_part(out, part)?;
    }
    out.push_close()
}

/// A form with one assertion.
pub fn put_holding(
    out: &mut TextBuilder,
    head: &str,
    assertion: &Assertion,
) -> Result<(), AllocError>
    ensures { OnOk result (out.new ≡ out.old ++ text_holding head.now assertion.now) }
{
    out.push_head(head)?;
    put_assertion_part(out, assertion)?;
    out.push_close()
}

/// A form with one assertion, behind a space.
pub fn put_holding_part(
    out: &mut TextBuilder,
    head: &str,
    assertion: &Assertion,
) -> Result<(), AllocError>
    ensures { OnOk result (out.new ≡ out.old ++ 32 ∷ text_holding head.now assertion.now) }
{
    out.push_space()?;
    put_holding(out, head, assertion)
}

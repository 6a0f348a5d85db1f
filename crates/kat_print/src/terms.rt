//! Terms.

ghost use Rattle.std.specs.Prelude.{◌≡◌, ◌++◌, [], ◌∷◌, map, codes, IfOk, OnOk};
ghost use Rattle.std.specs.Fmt.{decimal};
ghost use Rattle.std.specs.String.{string_bytes};
ghost use Rattle.kat_tree.specs.Written.{behind_spaces};
ghost use Rattle.kat_print.specs.Expressions.{text_of_op, expr_text};
ghost use Rattle.kat_print.specs.Lists.{listed};
ghost use Rattle.kat_print.specs.Terms.{name_of_type, name_of_member, name_of_ctor, name_of_field, expr_of_value, expr_of_application, text_of_term};
ghost use Rattle.kat_value.specs.declared.value.Value.{out-Value};

use crate::expressions::{put_bits, put_numbers};
use kat_term::{Shape, Term, World, shape_of};
use kat_text::TextBuilder;
use kat_value::{Op, TypeDecl, Types, Value, word_of_op};
use std::alloc::{AllocError, Global};

/// The text of a term of a world: `v` and its number for a variable, and the canonical text of its
/// expression for every other term, with the names of the table of types.
pub fn print_term(
    alloc: Global,
    types: &Types,
    _world: &World,
    term: &Term,
) -> Result<String, AllocError>
    ensures { IfOk result (λ s. string_bytes s ≡ text_of_term types.now term.now) }
{
    let mut out = TextBuilder::new(alloc);
    put_term(&mut out, types, term)?;
    Ok(out.into_string())
}

/// A term.
#[cycle(term)]
fn put_term(out: &mut TextBuilder, types: &Types, term: &Term) -> Result<(), AllocError>
    ensures { OnOk result (out.new ≡ out.old ++ text_of_term types.now term.now) }
{
    match shape_of(term) {
        Shape::Var(number) => put_variable(out, number),
        Shape::Lit(value) => put_literal(out, types, value),
        Shape::Apply { op, args } => put_operation(out, types, op, args),
        Shape::Make { of, ctor, inner } => {
            put_made(out, types, name_of_ctor(types, of, ctor), inner)
        }
        Shape::Rec { of, fields } => put_record(out, types, name_of_type(types, of), fields),
    }
}

/// A term behind a space.
#[cycle(term)]
fn put_term_part(out: &mut TextBuilder, types: &Types, term: &Term) -> Result<(), AllocError>
    ensures { OnOk result (out.new ≡ out.old ++ 32 ∷ text_of_term types.now term.now) }
{
    out.push_space()?;
    put_term(out, types, term)
}

/// Terms, each behind a space.
#[cycle(term)]
fn put_terms(out: &mut TextBuilder, types: &Types, terms: &[Term]) -> Result<(), AllocError>
    ensures { OnOk result (out.new
        ≡ out.old ++ behind_spaces (map (text_of_term types.now) terms.now)) }
{
    for term in terms {
        put_term_part(out, types, term)?;
    }
    Ok(())
}

/// A constructor with its payload.
#[cycle(term)]
fn put_made(
    out: &mut TextBuilder,
    types: &Types,
    ctor: &str,
    payload: &Term,
) -> Result<(), AllocError>
    ensures { OnOk result (out.new ≡ out.old
        ++ listed (codes "make") (ctor.now ∷ text_of_term types.now payload.now ∷ [])) }
{
    out.push_head("make")?;
    out.push_part(ctor)?;
    put_term_part(out, types, payload)?;
    out.push_close()
}

/// A record with its fields.
#[cycle(term)]
fn put_record(
    out: &mut TextBuilder,
    types: &Types,
    of: &str,
    fields: &[Term],
) -> Result<(), AllocError>
    ensures { OnOk result (out.new ≡ out.old
        ++ listed (codes "rec") (of.now ∷ map (text_of_term types.now) fields.now)) }
{
    out.push_head("rec")?;
    out.push_part(of)?;
    put_terms(out, types, fields)?;
    out.push_close()
}

/// An operation with its arguments; a field of a record is named.
#[cycle(term)]
fn put_operation(
    out: &mut TextBuilder,
    types: &Types,
    op: Op,
    args: &[Term],
) -> Result<(), AllocError>
    ensures { OnOk result (out.new ≡ out.old
        ++ expr_text (expr_of_application types.now op (map (text_of_term types.now) args.now))) }
{
    match (op, args) {
        (Op::Get { of, field }, [value]) => put_field(out, types, of, field, value),
        _ => put_applied(out, types, op, args),
    }
}

/// A field of a record.
#[cycle(term)]
fn put_field(
    out: &mut TextBuilder,
    types: &Types,
    of: u32,
    field: u32,
    value: &Term,
) -> Result<(), AllocError>
    ensures { OnOk result (out.new ≡ out.old ++ listed (codes "get")
        (name_of_type types.now of ∷ name_of_field types.now of field
        ∷ text_of_term types.now value.now ∷ [])) }
{
    out.push_head("get")?;
    out.push_part(name_of_type(types, of))?;
    out.push_part(name_of_field(types, of, field))?;
    put_term_part(out, types, value)?;
    out.push_close()
}

/// An operation by its word, with its numbers and its arguments.
#[cycle(term)]
fn put_applied(
    out: &mut TextBuilder,
    types: &Types,
    op: Op,
    args: &[Term],
) -> Result<(), AllocError>
    ensures { OnOk result (out.new ≡ out.old
        ++ listed (text_of_op op) (map (text_of_term types.now) args.now)) }
{
    out.push_head(word_of_op(op))?;
    put_numbers(out, op)?;
    put_terms(out, types, args)?;
    out.push_close()
}

/// A variable.
fn put_variable(out: &mut TextBuilder, number: u32) -> Result<(), AllocError>
    ensures { OnOk result (out.new ≡ out.old ++ codes "v" ++ decimal number) }
{
    out.push_text("v")?;
    out.push_decimal(u64::from(number))
}

/// A literal.
fn put_literal(out: &mut TextBuilder, types: &Types, value: &Value) -> Result<(), AllocError>
    ensures { OnOk result (out.new ≡ out.old
        ++ expr_text (expr_of_value types.now (out-Value value.now))) }
{
    match value {
        Value::Unit => out.push_text("unit"),
        Value::Bool(true) => out.push_text("true"),
        Value::Bool(false) => out.push_text("false"),
        Value::Bits { width, number } => put_bits(out, u64::from(*width), *number),
        Value::Member { of, index } => put_member(
            out,
            name_of_type(types, *of),
            name_of_member(types, *of, *index),
        ),
        Value::Made { .. } | Value::Rec { .. } => Ok(()),
    }
}

/// A member of an enum.
fn put_member(out: &mut TextBuilder, of: &str, member: &str) -> Result<(), AllocError>
    ensures { OnOk result (out.new ≡ out.old
        ++ listed (codes "of") (of.now ∷ member.now ∷ [])) }
{
    out.push_head("of")?;
    out.push_part(of)?;
    out.push_part(member)?;
    out.push_close()
}

/// The name of the type at a position of the table, empty where there is none.
pub fn name_of_type(types: &Types, of: u32) -> &str
    ensures { result.now ≡ name_of_type types.now of }
{
    match types.get(of as usize) {
        Some(TypeDecl::Enum { name, .. }) => name.as_str(),
        Some(TypeDecl::Union { name, .. }) => name.as_str(),
        Some(TypeDecl::Rec { name, .. }) => name.as_str(),
        None => "",
    }
}

/// The name of a member of the enum at a position, empty where there is none.
pub fn name_of_member(types: &Types, of: u32, index: u32) -> &str
    ensures { result.now ≡ name_of_member types.now of index }
{
    match types.get(of as usize) {
        Some(TypeDecl::Enum { members, .. }) => match members.get(index as usize) {
            Some(name) => name.as_str(),
            None => "",
        },
        _ => "",
    }
}

/// The name of a constructor of the union at a position, empty where there is none.
pub fn name_of_ctor(types: &Types, of: u32, ctor: u32) -> &str
    ensures { result.now ≡ name_of_ctor types.now of ctor }
{
    match types.get(of as usize) {
        Some(TypeDecl::Union { ctors, .. }) => match ctors.get(ctor as usize) {
            Some(found) => found.name.as_str(),
            None => "",
        },
        _ => "",
    }
}

/// The name of a field of the record at a position, empty where there is none.
fn name_of_field(types: &Types, of: u32, field: u32) -> &str
    ensures { result.now ≡ name_of_field types.now of field }
{
    match types.get(of as usize) {
        Some(TypeDecl::Rec { fields, .. }) => match fields.get(field as usize) {
            Some(found) => found.name.as_str(),
            None => "",
        },
        _ => "",
    }
}

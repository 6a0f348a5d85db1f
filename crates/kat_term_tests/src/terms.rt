//! Terms and worlds: the texts of terms, and calls that succeed where memory lasts.

use kat_print::print_term;
use kat_term::{
    Choices, Term, World, apply_one, apply_three, apply_two, bits, compare_terms, copy_term,
    has_depth, make, member, nodes_within, same_term, truth, var,
};
use kat_text::Text;
use kat_value::{Field, Op, Ty, TypeDecl, Types};
use sqlite_items::Items;
use std::alloc::{AllocError, Global};
use std::cmp::Ordering;
use std::test::Fail;

/// Two fields, or two constructors.
fn two(alloc: Global, first: (&str, Ty), second: (&str, Ty)) -> Result<Items<Field>, AllocError> {
    let mut fields = Items::new(alloc);
    for (name, ty) in [first, second] {
        fields.push(Field {
            name: Text::new(alloc, name)?,
            ty,
        })?;
    }
    Ok(fields)
}

/// An enum, a union, a record of both, and a record of that record.
fn types(alloc: Global) -> Result<Types, AllocError> {
    let mut members = Items::new(alloc);
    members.push(Text::new(alloc, "User")?)?;
    members.push(Text::new(alloc, "Kernel")?)?;
    let mut types = Items::new(alloc);
    types.push(TypeDecl::Enum {
        name: Text::new(alloc, "Mode")?,
        members,
    })?;
    types.push(TypeDecl::Union {
        name: Text::new(alloc, "Word")?,
        ctors: two(alloc, ("none", Ty::Unit), ("some", Ty::Bits(8)))?,
    })?;
    types.push(TypeDecl::Rec {
        name: Text::new(alloc, "Pair")?,
        fields: two(alloc, ("mode", Ty::Enum(0)), ("word", Ty::Union(1)))?,
    })?;
    types.push(TypeDecl::Rec {
        name: Text::new(alloc, "Both")?,
        fields: two(alloc, ("left", Ty::Rec(2)), ("right", Ty::Unit))?,
    })?;
    Ok(types)
}

/// Types in turn, and the texts of the fresh values by which one world grows.
const FRESH: &[(Ty, &str)] = &[
    (Ty::Unit, "unit"),
    (Ty::Bits(8), "v0"),
    (Ty::Rec(3), "(rec Both (rec Pair v1 v2) unit)"),
    (Ty::Bool, "v3"),
    (Ty::Enum(0), "v4"),
];

/// A term of each kind, with its text.
fn terms(alloc: Global) -> Result<Vec<(Term, &'static str)>, AllocError> {
    let mut terms = Vec::new(alloc);
    terms.push((bits(8, 255), "(bits 8 255)"))?;
    terms.push((truth(false), "false"))?;
    terms.push((member(0, 1), "(of Mode Kernel)"))?;
    terms.push((make(alloc, 1, 1, var(0))?, "(make some v0)"))?;
    terms.push((
        apply_one(alloc, Op::Slice { hi: 7, lo: 2 }, var(12))?,
        "(slice 7 2 v12)",
    ))?;
    terms.push((
        apply_one(alloc, Op::Get { of: 2, field: 1 }, var(0))?,
        "(get Pair word v0)",
    ))?;
    terms.push((
        apply_two(alloc, Op::Eq, bits(8, 255), var(0))?,
        "(eq (bits 8 255) v0)",
    ))?;
    terms.push((
        apply_three(alloc, Op::Ite, var(3), truth(true), truth(false))?,
        "(ite v3 true false)",
    ))?;
    Ok(terms)
}

/// Whether a term has this text, is equal to its copy, and stands beside it in the order.
fn agrees(
    alloc: Global,
    types: &Types,
    world: &World,
    term: &Term,
    text: &str,
) -> Result<bool, AllocError> {
    let copy = copy_term(alloc, term)?;
    let printed = print_term(alloc, types, world, term)?;
    Ok(
        printed.as_str() == text
            && same_term(term, &copy)
            && compare_terms(term, &copy) == Ordering::Equal
            && nodes_within(term, 4).is_some()
            && has_depth(term, 2),
    )
}

#[test]
fn terms_are_printed(rt: HostRuntime) -> Result<(), Fail> {
    let alloc = rt.alloc();
    let types = types(alloc)?;
    let world = World::new(alloc)?;
    for (term, text) in terms(alloc)?.as_slice() {
        let agrees = agrees(alloc, &types, &world, term, text)?;
        assert!(rt; agrees, "at {text}");
    }
    Ok(())
}

/// Whether a world grows by these fresh values, is copied, and takes a formula.
fn grows(alloc: Global) -> Result<bool, AllocError> {
    let types = types(alloc)?;
    let mut world = World::new(alloc)?;
    for (ty, text) in FRESH {
        let Ok(term) = world.grow(&types, ty) else {
            return Ok(false);
        };
        if print_term(alloc, &types, &world, &term)?.as_str() != *text {
            return Ok(false);
        }
    }
    world.assume(truth(true))?;
    let copy = world.copy()?;
    Ok(copy.vars().len() == 5 && copy.formulas().len() == 1)
}

/// Whether choices are copied.
fn chooses(alloc: Global) -> Result<bool, AllocError> {
    let mut choices = Choices::new(alloc);
    choices.push(1)?;
    Ok(choices.copy()?.as_slice().len() == 1)
}

#[test]
fn worlds_grow(rt: HostRuntime) -> Result<(), Fail> {
    let grows = grows(rt.alloc())?;
    let chooses = chooses(rt.alloc())?;
    assert!(rt; grows && chooses);
    Ok(())
}

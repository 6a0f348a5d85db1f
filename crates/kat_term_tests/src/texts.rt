//! Terms of texts: an enum, a union, a record, and variables over them and over bits.

use kat_term::{Term, Terms, World, apply, bits, make, member, rec, truth, unit, var};
use kat_text::Text;
use kat_tree::{Token, Tree, number_of_word, read_tree};
use kat_value::{
    Field, Op, OpNumbers, Ty, TypeDecl, Types, numbers_of_op, op_of_word, with_numbers,
};
use sqlite_items::Items;
use std::alloc::{AllocError, Global};

/// The types of the variables, by their numbers.
const VARS: &[Ty] = &[
    Ty::Bits(8),
    Ty::Bits(8),
    Ty::Bits(4),
    Ty::Bits(4),
    Ty::Bool,
    Ty::Bool,
    Ty::Bits(2),
    Ty::Enum(0),
    Ty::Enum(0),
    Ty::Union(1),
];

/// The members of the enum `E`.
const MEMBERS: &[&str] = &["A", "B", "C"];

/// The constructors of the union `U`.
const CTORS: &[(&str, Ty)] = &[
    ("K", Ty::Bits(2)),
    ("L", Ty::Bool),
    ("M", Ty::Unit),
    ("N", Ty::Enum(0)),
];

/// The fields of the record `R`.
const FIELDS: &[(&str, Ty)] = &[("f", Ty::Bits(2)), ("g", Ty::Bool), ("h", Ty::Enum(0))];

/// The position of a member, a constructor or a field.
fn position_of(name: &str) -> u32 {
    match name {
        "A" | "K" | "f" => 0,
        "B" | "L" | "g" => 1,
        "C" | "M" | "h" => 2,
        _ => 3,
    }
}

/// Fields, or constructors.
fn fields(alloc: Global, parts: &[(&str, Ty)]) -> Result<Items<Field>, AllocError> {
    let mut fields = Items::new(alloc);
    for (name, ty) in parts {
        fields.push(Field {
            name: Text::new(alloc, name)?,
            ty: *ty,
        })?;
    }
    Ok(fields)
}

/// Names in order.
fn names(alloc: Global, parts: &[&str]) -> Result<Items<Text>, AllocError> {
    let mut names = Items::new(alloc);
    for name in parts {
        names.push(Text::new(alloc, name)?)?;
    }
    Ok(names)
}

/// The enum, the union and the record.
pub(crate) fn types(alloc: Global) -> Result<Types, AllocError> {
    let mut types = Items::new(alloc);
    types.push(TypeDecl::Enum {
        name: Text::new(alloc, "E")?,
        members: names(alloc, MEMBERS)?,
    })?;
    types.push(TypeDecl::Union {
        name: Text::new(alloc, "U")?,
        ctors: fields(alloc, CTORS)?,
    })?;
    types.push(TypeDecl::Rec {
        name: Text::new(alloc, "R")?,
        fields: fields(alloc, FIELDS)?,
    })?;
    Ok(types)
}

/// The world of the variables.
pub(crate) fn world(alloc: Global, types: &Types) -> Result<World, AllocError> {
    let mut world = World::new(alloc)?;
    for ty in VARS {
        if world.grow(types, ty).is_err() {
            return Err(AllocError);
        }
    }
    Ok(world)
}

/// The name at a place, empty where none is there.
fn name_at(trees: &[Tree], at: usize) -> &str {
    match trees.get(at) {
        Some(Tree::Atom(Token::Name(name))) => name.as_str(),
        _ => "",
    }
}

/// The number at a place, 0 where none is there.
fn number_at(trees: &[Tree], at: usize) -> u64 {
    match trees.get(at) {
        Some(Tree::Atom(Token::Number(number))) => *number,
        _ => 0,
    }
}

/// A number as one of 32 bits, 0 where it is too great.
fn small(number: u64) -> u32 {
    if number <= 4_294_967_295 {
        number as u32
    } else {
        0
    }
}

/// The operation of a word with the numbers that stand behind it.
fn op_in(word: &str, trees: &[Tree]) -> Op {
    let op = op_of_word(word).unwrap_or(Op::Not);
    let first = number_at(trees, 1);
    match numbers_of_op(op) {
        OpNumbers::Zero => op,
        OpNumbers::One(_) => with_numbers(op, OpNumbers::One(first)),
        OpNumbers::Two(_, _) => with_numbers(op, OpNumbers::Two(first, number_at(trees, 2))),
    }
}

/// The term that a name is; none where it is another word.
fn named_term(name: &str) -> Option<Term> {
    match name {
        "unit" => Some(unit()),
        "true" => Some(truth(true)),
        "false" => Some(truth(false)),
        _ => Some(var(small(number_of_word(name.strip_prefix("v")?)?))),
    }
}

/// The term of a form, from its trees and the terms among them.
fn form_of(alloc: Global, trees: &[Tree], mut args: Terms) -> Result<Term, AllocError> {
    match name_at(trees, 0) {
        "bits" => Ok(bits(small(number_at(trees, 1)), number_at(trees, 2))),
        "of" => Ok(member(0, position_of(name_at(trees, 2)))),
        "make" => match args.pop() {
            Some(inner) => make(alloc, 1, position_of(name_at(trees, 1)), inner),
            None => Ok(unit()),
        },
        "rec" => rec(alloc, 2, args),
        "get" => {
            let field = position_of(name_at(trees, 2));
            apply(alloc, Op::Get { of: 2, field }, args)
        }
        word => apply(alloc, op_in(word, trees), args),
    }
}

/// The term that a tree is; none where it is a number, or a word and no variable.
#[cycle(read)]
fn term_in(tree: &Tree, alloc: Global) -> Result<Option<Term>, AllocError> {
    match tree {
        Tree::Atom(Token::Name(name)) => Ok(named_term(name.as_str())),
        Tree::Atom(Token::Number(_)) => Ok(None),
        Tree::List(trees) => {
            let args = terms_in(trees.as_slice(), alloc)?;
            Ok(Some(form_of(alloc, trees.as_slice(), args)?))
        }
    }
}

/// The terms among trees.
#[cycle(read)]
fn terms_in(trees: &[Tree], alloc: Global) -> Result<Terms, AllocError> {
    let mut terms = Items::new(alloc);
    for tree in trees {
        if let Some(term) = term_in(tree, alloc)? {
            terms.push(term)?;
        }
    }
    Ok(terms)
}

/// The term of a text; unit where it is the text of none.
pub(crate) fn term_of(alloc: Global, text: &str) -> Result<Term, AllocError> {
    let Ok(tree) = read_tree(alloc, text.as_bytes()) else {
        return Ok(unit());
    };
    Ok(term_in(&tree, alloc)?.unwrap_or(unit()))
}

//! Normal forms: the examples of the rules, terms that take several, a substitution, and the limit
//! on depth.

use crate::texts::{term_of, types, world};
use kat_norm::{Pair, Substitution, rewrite};
use kat_print::print_term;
use kat_term::{NormError, Term, apply_one, same_term, var};
use kat_value::Op;
use sqlite_items::Items;
use std::alloc::{AllocError, Global};
use std::test::Fail;

/// The examples of `docs/SOLVER.md`: literals, fields, truths and choices.
const TRUTHS: &[(&str, &str)] = &[
    ("(add (bits 8 100) (bits 8 200))", "(bits 8 44)"),
    ("(get R g (rec R v6 v4 v7))", "v4"),
    ("(not (not v4))", "v4"),
    ("(not (and v4 v5))", "(or (not v4) (not v5))"),
    ("(not (or v4 v5))", "(and (not v4) (not v5))"),
    ("(not (ult v0 v1))", "(ule v1 v0)"),
    ("(not (ule v0 v1))", "(ult v1 v0)"),
    ("(not (slt v0 v1))", "(sle v1 v0)"),
    ("(not (sle v0 v1))", "(slt v1 v0)"),
    ("(and false v4)", "false"),
    ("(and v4 false)", "false"),
    ("(and true v4)", "v4"),
    ("(and v4 true)", "v4"),
    ("(or true v4)", "true"),
    ("(or v4 true)", "true"),
    ("(or false v4)", "v4"),
    ("(or v4 false)", "v4"),
    ("(and v4 v4)", "v4"),
    ("(or v4 v4)", "v4"),
    ("(ite true v0 v1)", "v0"),
    ("(ite false v0 v1)", "v1"),
    ("(ite v4 v0 v0)", "v0"),
    ("(ite (not v4) v0 v1)", "(ite v4 v1 v0)"),
    (
        "(ite v4 v5 (ult v0 v1))",
        "(or (and v4 v5) (and (not v4) (ult v0 v1)))",
    ),
];

/// Those of equations.
const EQUATIONS: &[(&str, &str)] = &[
    ("(eq v0 v0)", "true"),
    (
        "(eq (rec R v6 v4 v7) (rec R (bits 2 3) v5 v8))",
        "(and (eq (bits 2 3) v6) (and (eq v4 v5) (eq v7 v8)))",
    ),
    ("(eq (make K v6) (make K (bits 2 1)))", "(eq (bits 2 1) v6)"),
    ("(eq (make K v6) (make L v4))", "false"),
    ("(eq v0 (bits 8 3))", "(eq (bits 8 3) v0)"),
    ("(eq true v4)", "v4"),
    ("(eq false v4)", "(not v4)"),
    (
        "(eq (bits 8 5) (add (bits 8 7) v0))",
        "(eq (bits 8 254) v0)",
    ),
    ("(eq (bits 8 5) (bxor (bits 8 3) v0))", "(eq (bits 8 6) v0)"),
    ("(eq (bits 8 5) (bnot v0))", "(eq (bits 8 250) v0)"),
    ("(eq (bits 8 5) (zext 8 v2))", "(eq (bits 4 5) v2)"),
    ("(eq (bits 8 16) (zext 8 v2))", "false"),
    (
        "(eq (bits 8 18) (cat v2 v3))",
        "(and (eq (bits 4 1) v2) (eq (bits 4 2) v3))",
    ),
    ("(eq (zext 8 v2) (zext 8 v3))", "(eq v2 v3)"),
    (
        "(eq (cat v2 v0) (cat v3 v1))",
        "(and (eq v2 v3) (eq v0 v1))",
    ),
    ("(eq (bits 8 5) (ite v4 (bits 8 5) (bits 8 9)))", "v4"),
    ("(eq (bits 8 9) (ite v4 (bits 8 5) (bits 8 9)))", "(not v4)"),
    ("(eq (bits 8 7) (ite v4 (bits 8 5) (bits 8 9)))", "false"),
];

/// Those of comparisons.
const COMPARISONS: &[(&str, &str)] = &[
    ("(ult v0 v0)", "false"),
    ("(slt v0 v0)", "false"),
    ("(ule v0 v0)", "true"),
    ("(sle v0 v0)", "true"),
    ("(ult v0 (bits 8 0))", "false"),
    ("(ult (bits 8 255) v0)", "false"),
    ("(ule (bits 8 0) v0)", "true"),
    ("(ule v0 (bits 8 255))", "true"),
    ("(ult v0 (bits 8 1))", "(eq (bits 8 0) v0)"),
    ("(ule v0 (bits 8 0))", "(eq (bits 8 0) v0)"),
    ("(ult (bits 8 0) v0)", "(not (eq (bits 8 0) v0))"),
    ("(ule (bits 8 1) v0)", "(not (eq (bits 8 0) v0))"),
    ("(ult (zext 8 v2) (zext 8 v3))", "(ult v2 v3)"),
    ("(ule (zext 8 v2) (zext 8 v3))", "(ule v2 v3)"),
    ("(ult (bits 8 15) (zext 8 v2))", "false"),
    ("(ult (bits 8 14) (zext 8 v2))", "(ult (bits 4 14) v2)"),
    ("(ult (zext 8 v2) (bits 8 16))", "true"),
    ("(ult (zext 8 v2) (bits 8 15))", "(ult v2 (bits 4 15))"),
    ("(ule (bits 8 16) (zext 8 v2))", "false"),
    ("(ule (bits 8 15) (zext 8 v2))", "(ule (bits 4 15) v2)"),
    ("(ule (zext 8 v2) (bits 8 15))", "true"),
    ("(ule (zext 8 v2) (bits 8 14))", "(ule v2 (bits 4 14))"),
];

/// Those of sums, products and operations bit by bit.
const SUMS: &[(&str, &str)] = &[
    // Sums, differences and the order of sides.
    ("(sub v0 v0)", "(bits 8 0)"),
    ("(sub v0 (bits 8 3))", "(add (bits 8 253) v0)"),
    ("(add v1 v0)", "(add v0 v1)"),
    ("(mul v1 v0)", "(mul v0 v1)"),
    ("(band v1 v0)", "(band v0 v1)"),
    ("(bor v1 v0)", "(bor v0 v1)"),
    ("(bxor v1 v0)", "(bxor v0 v1)"),
    ("(add (bits 8 0) v0)", "v0"),
    (
        "(add (bits 8 250) (add (bits 8 10) v0))",
        "(add (bits 8 4) v0)",
    ),
    (
        "(add v0 (add (bits 8 3) v1))",
        "(add (bits 8 3) (add v0 v1))",
    ),
    (
        "(add (add (bits 8 3) v0) (mul v0 v1))",
        "(add (bits 8 3) (add v0 (mul v0 v1)))",
    ),
    // Products and operations bit by bit.
    ("(mul (bits 8 0) v0)", "(bits 8 0)"),
    ("(band (bits 8 0) v0)", "(bits 8 0)"),
    ("(mul (bits 8 1) v0)", "v0"),
    ("(band (bits 8 255) v0)", "v0"),
    ("(band v0 v0)", "v0"),
    ("(bor (bits 8 0) v0)", "v0"),
    ("(bor v0 v0)", "v0"),
    ("(bxor (bits 8 0) v0)", "v0"),
    ("(bor (bits 8 255) v0)", "(bits 8 255)"),
    ("(bxor (bits 8 255) v0)", "(bnot v0)"),
    ("(bxor v0 v0)", "(bits 8 0)"),
    ("(bnot (bnot v0))", "v0"),
];

/// Those of shifts, slices, extensions and joins.
const SLICES: &[(&str, &str)] = &[
    // Shifts and slices.
    ("(shl v0 (bits 8 0))", "v0"),
    ("(shr v0 (bits 8 0))", "v0"),
    ("(sar v0 (bits 8 0))", "v0"),
    ("(shl v0 (bits 8 8))", "(bits 8 0)"),
    ("(shr v0 (bits 8 8))", "(bits 8 0)"),
    ("(shl v0 (bits 8 3))", "(cat (slice 4 0 v0) (bits 3 0))"),
    ("(shr v0 (bits 8 3))", "(zext 8 (slice 7 3 v0))"),
    ("(sar v0 (bits 8 3))", "(sext 8 (slice 7 3 v0))"),
    ("(sar v0 (bits 8 9))", "(sext 8 (slice 7 7 v0))"),
    ("(slice 7 0 v0)", "v0"),
    ("(slice 2 1 (slice 6 3 v0))", "(slice 5 4 v0)"),
    ("(slice 2 1 (cat v2 v0))", "(slice 2 1 v0)"),
    ("(slice 10 9 (cat v2 v0))", "(slice 2 1 v2)"),
    (
        "(slice 9 6 (cat v2 v0))",
        "(cat (slice 1 0 v2) (slice 7 6 v0))",
    ),
    ("(slice 6 5 (zext 8 v2))", "(bits 2 0)"),
    ("(slice 2 1 (zext 8 v2))", "(slice 2 1 v2)"),
    ("(slice 5 2 (zext 8 v2))", "(zext 4 (slice 3 2 v2))"),
    ("(slice 2 1 (sext 8 v2))", "(slice 2 1 v2)"),
    // Extensions and joins.
    ("(zext 8 v0)", "v0"),
    ("(sext 8 v0)", "v0"),
    ("(zext 16 (zext 8 v2))", "(zext 16 v2)"),
    ("(cat (bits 8 0) v2)", "(zext 12 v2)"),
    ("(cat (slice 7 4 v0) (slice 3 2 v0))", "(slice 7 2 v0)"),
];

/// Terms that take several rules.
const SEVERAL: &[(&str, &str)] = &[
    (
        "(eq (bits 8 0) (add (bits 8 1) v0))",
        "(eq (bits 8 255) v0)",
    ),
    ("(ult (zext 32 v0) (bits 32 300))", "true"),
    (
        "(eq (zext 8 (add v2 (bits 4 1))) (bits 8 0))",
        "(eq (bits 4 15) v2)",
    ),
    (
        "(ite (and true (ule v0 (bits 8 80))) (eq (bits 7 81) (bits 7 82)) (ult v1 (bits 8 139)))",
        "(and (ult (bits 8 80) v0) (ult v1 (bits 8 139)))",
    ),
    (
        "(ite (or (sle v2 v2) true) (or v5 true) (and v4 false))",
        "true",
    ),
    (
        "(ite (ult (cat (bits 6 40) (bits 2 0)) (bxor v0 v0)) (bits 8 122) (bits 8 158))",
        "(bits 8 158)",
    ),
    ("(not (or (or true v4) (sle v0 v0)))", "false"),
    (
        "(eq (rec R (bits 2 1) v4 (of E B)) (rec R (bits 2 0) v5 (of E B)))",
        "false",
    ),
    (
        "(ite (not v5) (ite (eq v7 v7) v4 (eq v7 (of E B))) (not false))",
        "(or v5 (and (not v5) v4))",
    ),
    ("(eq (rec R v6 true (of E C)) (rec R v6 v4 (of E C)))", "v4"),
    (
        "(not (and (or v4 (eq (bits 16 47332) (bits 16 27699))) (or (eq v8 v7) true)))",
        "(not v4)",
    ),
    (
        "(eq (rec R (bits 2 0) true v7) (rec R (bits 2 3) v4 v7))",
        "false",
    ),
    (
        "(ite (eq v7 v7) (eq (eq (bits 16 58897) (bits 16 39994)) v4) (ite true v4 false))",
        "(not v4)",
    ),
    (
        "(not (and (and (ule (bits 16 201) (bits 16 14079)) v4) (and (eq (make M unit) v9) v4)))",
        "(or (not v4) (or (not (eq v9 (make M unit))) (not v4)))",
    ),
    (
        "(get R g (rec R (bits 2 0) (eq (rec R v6 v4 v7) (rec R v6 true v8)) v8))",
        "(and v4 (eq v7 v8))",
    ),
    (
        "(eq (rec R (bits 2 0) true v7) (rec R (bits 2 2) v4 (of E B)))",
        "false",
    ),
    (
        "(eq (rec R (bits 2 2) v4 (of E C)) (rec R (bits 2 1) true v7))",
        "false",
    ),
    (
        "(and true (eq (rec R v6 true (of E B)) (rec R v6 true v7)))",
        "(eq (of E B) v7)",
    ),
    (
        "(eq (rec R v6 (eq (of E B) v8) (of E A)) (rec R (bits 2 1) false v7))",
        "(and (eq (bits 2 1) v6) (and (not (eq (of E B) v8)) (eq (of E A) v7)))",
    ),
    (
        "(not (not (eq (rec R (bits 2 3) true v7) (rec R (bits 2 3) false v7))))",
        "false",
    ),
    (
        "(eq (rec R (bits 2 3) false v7) (rec R (bits 2 3) (ult (bits 8 249) (bits 8 85)) v8))",
        "(eq v7 v8)",
    ),
    (
        "(not (not (or (eq v7 v7) (ult (bits 8 200) (bits 8 59)))))",
        "true",
    ),
];

/// Whether a term has this normal form under a substitution.
fn agrees_under(
    alloc: Global,
    substitution: &Substitution,
    term: &str,
    normal: &str,
) -> Result<bool, AllocError> {
    let types = types(alloc)?;
    let world = world(alloc, &types)?;
    let Ok(found) = rewrite(alloc, &world, substitution, term_of(alloc, term)?) else {
        return Ok(false);
    };
    Ok(print_term(alloc, &types, &world, &found)?.as_str() == normal)
}

/// Whether a term has this normal form.
fn agrees(alloc: Global, term: &str, normal: &str) -> Result<bool, AllocError> {
    agrees_under(alloc, &Items::new(alloc), term, normal)
}

#[test]
fn truths_have_normal_forms(rt: HostRuntime) -> Result<(), Fail> {
    for (term, normal) in TRUTHS {
        let agrees = agrees(rt.alloc(), term, normal)?;
        assert!(rt; agrees, "at {term}");
    }
    Ok(())
}

#[test]
fn equations_have_normal_forms(rt: HostRuntime) -> Result<(), Fail> {
    for (term, normal) in EQUATIONS {
        let agrees = agrees(rt.alloc(), term, normal)?;
        assert!(rt; agrees, "at {term}");
    }
    Ok(())
}

#[test]
fn comparisons_have_normal_forms(rt: HostRuntime) -> Result<(), Fail> {
    for (term, normal) in COMPARISONS {
        let agrees = agrees(rt.alloc(), term, normal)?;
        assert!(rt; agrees, "at {term}");
    }
    Ok(())
}

#[test]
fn sums_have_normal_forms(rt: HostRuntime) -> Result<(), Fail> {
    for (term, normal) in SUMS {
        let agrees = agrees(rt.alloc(), term, normal)?;
        assert!(rt; agrees, "at {term}");
    }
    Ok(())
}

#[test]
fn slices_have_normal_forms(rt: HostRuntime) -> Result<(), Fail> {
    for (term, normal) in SLICES {
        let agrees = agrees(rt.alloc(), term, normal)?;
        assert!(rt; agrees, "at {term}");
    }
    Ok(())
}

#[test]
fn rules_are_used_in_turn(rt: HostRuntime) -> Result<(), Fail> {
    for (term, normal) in SEVERAL {
        let agrees = agrees(rt.alloc(), term, normal)?;
        assert!(rt; agrees, "at {term}");
    }
    Ok(())
}

/// A variable with the term of a text.
fn pair(alloc: Global, number: u32, text: &str) -> Result<Pair, AllocError> {
    Ok(Pair {
        number,
        term: term_of(alloc, text)?,
    })
}

#[test]
fn pairs_are_put_in_one_after_another(rt: HostRuntime) -> Result<(), Fail> {
    let alloc = rt.alloc();
    let mut pairs = Items::new(alloc);
    pairs.push(pair(alloc, 0, "(add v1 (bits 8 1))")?)?;
    pairs.push(pair(alloc, 1, "(add v1 (bits 8 2))")?)?;
    let normal = "(cat (add (bits 8 3) v1) (add (bits 8 2) v1))";
    let agrees = agrees_under(alloc, &pairs, "(cat v0 v1)", normal)?;
    assert!(rt; agrees);
    Ok(())
}

/// A truth behind so many negations.
fn negations(alloc: Global, count: usize) -> Result<Term, AllocError> {
    let mut term = var(4);
    for _ in 0..count {
        term = apply_one(alloc, Op::Not, term)?;
    }
    Ok(term)
}

/// Whether the deepest term has a normal form, and a deeper one none.
fn depth_is_asked(alloc: Global) -> Result<bool, AllocError> {
    let types = types(alloc)?;
    let world = world(alloc, &types)?;
    let none = Items::new(alloc);
    let Ok(normal) = rewrite(alloc, &world, &none, negations(alloc, 511)?) else {
        return Ok(false);
    };
    let deeper = rewrite(alloc, &world, &none, negations(alloc, 512)?);
    Ok(same_term(&normal, &negations(alloc, 1)?) && matches!(deeper, Err(NormError::Depth)))
}

#[test]
fn depth_is_limited(rt: HostRuntime) -> Result<(), Fail> {
    let asked = depth_is_asked(rt.alloc())?;
    assert!(rt; asked);
    Ok(())
}

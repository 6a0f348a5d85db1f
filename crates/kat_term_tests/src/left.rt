//! What is left of goals: a table of questions for each step of settling and proving, a formula
//! that is dropped, and questions that are asked in turn.

use crate::texts::{term_of, types, world};
use kat_print::print_term;
use kat_solver::RuleProver;
use kat_term::{Answer, Prover, Term, World, apply_one, copy_term, var};
use kat_value::{Op, Types};
use std::alloc::{AllocError, Global};
use std::test::Fail;

/// Formulas, a goal, and what is left of it: `Proved`, `Contradiction`, or the text of a residue.
type Question = (&'static [&'static str], &'static str, &'static str);

/// Bounds: each kind of formula that moves one, those of an extension, and what is known by them.
const BOUNDS: &[Question] = &[
    (&["(ult v0 (bits 8 3))"], "(ule v0 (bits 8 2))", "Proved"),
    (
        &["(ult v0 (bits 8 3))"],
        "(ult v0 (bits 8 2))",
        "(ult v0 (bits 8 2))",
    ),
    (
        &["(ult v0 (bits 8 3))"],
        "(or (ult v0 (bits 8 2)) (eq (bits 8 2) v0))",
        "Proved",
    ),
    (
        &["(ult v0 (bits 8 3))", "(ule (bits 8 3) v0)"],
        "false",
        "Contradiction",
    ),
    (&["(ult (bits 8 3) v0)"], "(ule (bits 8 4) v0)", "Proved"),
    (
        &["(ult (bits 8 3) v0)"],
        "(ule (bits 8 5) v0)",
        "(ule (bits 8 5) v0)",
    ),
    (&["(ule (bits 8 3) v0)"], "(ult (bits 8 2) v0)", "Proved"),
    (
        &["(ule (bits 8 3) v0)"],
        "(ult (bits 8 3) v0)",
        "(ult (bits 8 3) v0)",
    ),
    (&["(ule v0 (bits 8 3))"], "(ult v0 (bits 8 4))", "Proved"),
    (
        &["(ule v0 (bits 8 3))"],
        "(ult v0 (bits 8 3))",
        "(ult v0 (bits 8 3))",
    ),
    (
        &["(eq (bits 8 5) (add v0 v1))"],
        "(ult (add v0 v1) (bits 8 6))",
        "Proved",
    ),
    (
        &["(eq (bits 8 5) (add v0 v1))"],
        "(ult (bits 8 4) (add v0 v1))",
        "Proved",
    ),
    (
        &["(ule (bits 8 3) v0)", "(not (eq (bits 8 3) v0))"],
        "(ult (bits 8 3) v0)",
        "Proved",
    ),
    (
        &["(ule v0 (bits 8 3))", "(not (eq (bits 8 3) v0))"],
        "(ult v0 (bits 8 3))",
        "Proved",
    ),
    (
        &["(ule v0 (bits 8 9))", "(not (eq (bits 8 3) v0))"],
        "(ult v0 (bits 8 9))",
        "(ult v0 (bits 8 9))",
    ),
    (
        &["(not (eq (bits 8 4) v0))", "(ult (bits 8 3) v0)"],
        "(ult (bits 8 4) v0)",
        "Proved",
    ),
    (
        &[
            "(not (eq (bits 8 5) v0))",
            "(not (eq (bits 8 4) v0))",
            "(ult (bits 8 3) v0)",
        ],
        "(ult (bits 8 5) v0)",
        "Proved",
    ),
    (
        &[
            "(ule (bits 8 3) v0)",
            "(ule v0 (bits 8 3))",
            "(not (eq (bits 8 3) v0))",
        ],
        "v4",
        "Contradiction",
    ),
    (
        &["(ule (bits 8 3) v0)", "(ule v0 (bits 8 3))"],
        "(eq (bits 8 3) v0)",
        "Proved",
    ),
    (&["(ult (bits 8 20) v0)"], "(ult (zext 8 v2) v0)", "Proved"),
    (
        &["(ult (bits 8 14) v0)"],
        "(ult (zext 8 v2) v0)",
        "(ult (zext 8 v2) v0)",
    ),
    (
        &["(ult v2 (bits 4 5))", "(ule (bits 8 5) v0)"],
        "(ult (zext 8 v2) v0)",
        "Proved",
    ),
    (
        &["(ult v2 (bits 4 5))", "(ule (bits 8 4) v0)"],
        "(ule (zext 8 v2) v0)",
        "Proved",
    ),
    (
        &["(ult v0 (bits 8 8))", "(ule (bits 8 8) v1)"],
        "(ult v0 v1)",
        "Proved",
    ),
    (
        &["(ult v0 (bits 8 8))", "(ule (bits 8 7) v1)"],
        "(ult v0 v1)",
        "(ult v0 v1)",
    ),
    (
        &["(ult v0 (bits 8 8))", "(ule (bits 8 7) v1)"],
        "(ule v0 v1)",
        "Proved",
    ),
    (
        &["(ult v0 (bits 8 8))", "(ule (bits 8 8) v1)"],
        "(not (ule v1 v0))",
        "Proved",
    ),
    (
        &["(ult v0 (bits 8 8))", "(ule (bits 8 8) v1)"],
        "(ult v1 v0)",
        "false",
    ),
    (
        &["(ult v0 (bits 8 8))", "(ule (bits 8 8) v1)"],
        "(ule v1 v0)",
        "false",
    ),
    (
        &["(ult v0 (bits 8 8))", "(ule (bits 8 8) v1)"],
        "(not (eq v0 v1))",
        "Proved",
    ),
    (
        &["(ult v0 (bits 8 8))", "(ule (bits 8 7) v1)"],
        "(not (eq v0 v1))",
        "(not (eq v0 v1))",
    ),
    (
        &["(eq (bits 8 5) (add v0 v1))", "(eq (bits 8 5) (mul v0 v1))"],
        "(eq (add v0 v1) (mul v0 v1))",
        "Proved",
    ),
];

/// What a list of formulas tells, and where it is put into a goal.
const KNOWN: &[Question] = &[
    (&["(slt v0 v1)"], "(slt v0 v1)", "Proved"),
    (&["(sle v1 v0)"], "(slt v0 v1)", "false"),
    (&["(sle v0 v1)"], "(slt v0 v1)", "(slt v0 v1)"),
    (&["(not (eq v7 v8))"], "(eq v7 v8)", "false"),
    (&["(ult v0 v1)"], "(ule v0 v1)", "Proved"),
    (&["(ule v0 v1)"], "(ult v0 v1)", "(ult v0 v1)"),
    (&["(ult v0 v1)"], "(not (eq v0 v1))", "Proved"),
    (&["(ult v1 v0)"], "(not (eq v0 v1))", "Proved"),
    (&["(slt v0 v1)"], "(not (eq v0 v1))", "(not (eq v0 v1))"),
    (
        &["(slt v0 v1)"],
        "(eq (bits 2 1) (ite (slt v0 v1) (bits 2 1) v6))",
        "Proved",
    ),
    (
        &["(slt v0 v1)"],
        "(eq v6 (ite (slt v1 v0) v6 (slice 3 2 v2)))",
        "(eq v6 (ite (slt v1 v0) v6 (slice 3 2 v2)))",
    ),
    (
        &["(slt v0 v1)"],
        "(eq (make L (slt v0 v1)) v9)",
        "(eq v9 (make L true))",
    ),
    (&["(slt v0 v1)"], "(eq v4 (slt v0 v1))", "v4"),
    (
        &["(slt v0 v1)"],
        "(or v4 (and (slt v0 v1) v5))",
        "(or v4 v5)",
    ),
];

/// Formulas that are settled: substitutions, junctions, formulas that say nothing new, and contradictions.
const SETTLED: &[Question] = &[
    (&["(eq v0 (bits 8 3))"], "(ult v0 (bits 8 4))", "Proved"),
    (
        &["(eq v1 v0)", "(ult v1 (bits 8 4))"],
        "(ult v0 (bits 8 4))",
        "Proved",
    ),
    (
        &["(eq v0 (add v1 (bits 8 1)))", "(ult v0 (bits 8 4))"],
        "(ult (add v1 (bits 8 1)) (bits 8 4))",
        "Proved",
    ),
    (&["(eq v0 (add v0 v1))"], "(eq v0 (add v0 v1))", "Proved"),
    (&["(eq v0 (add v0 v1))"], "(ult v1 v0)", "(ult v1 v0)"),
    (
        &["(ult v0 v1)", "(eq v0 (bits 8 3))"],
        "(ult (bits 8 3) v1)",
        "Proved",
    ),
    (
        &["(ult v0 v1)", "(eq v0 (bits 8 3))", "(eq v1 (bits 8 3))"],
        "v4",
        "Contradiction",
    ),
    (&["v4"], "v4", "Proved"),
    (&["v4"], "(or v5 v4)", "Proved"),
    (&["(not v4)"], "(not v4)", "Proved"),
    (&["v4"], "(not v4)", "false"),
    (&["v4", "(not v4)"], "v5", "Contradiction"),
    (&["(and v4 (ult v0 v1))"], "(and (ule v0 v1) v4)", "Proved"),
    (
        &["(eq v7 v8)", "(eq v7 (of E B))"],
        "(eq v8 (of E B))",
        "Proved",
    ),
    (
        &["(eq v9 (make K v6))", "(eq v9 (make K (bits 2 1)))"],
        "(eq v6 (bits 2 1))",
        "Proved",
    ),
    (
        &["(eq v9 (make K v6))", "(eq v9 (make M unit))"],
        "v4",
        "Contradiction",
    ),
    (
        &["(eq (rec R v6 v4 v7) (rec R (bits 2 1) v5 v8))", "v4"],
        "v5",
        "Proved",
    ),
    (&["(eq v4 v5)", "(not v5)"], "v4", "false"),
    (
        &["(or v4 (slt v0 v1))", "(not v4)"],
        "(slt v0 v1)",
        "Proved",
    ),
    (&["(or (slt v0 v1) v4)", "(sle v1 v0)"], "v4", "Proved"),
    (
        &["(or (slt v0 v1) (slt v1 v0))", "(sle v1 v0)"],
        "(slt v1 v0)",
        "Proved",
    ),
    (&["(slt v0 v1)", "(or (slt v0 v1) v4)"], "v4", "v4"),
    (&["true", "(ult v0 v1)"], "(ult v0 v1)", "Proved"),
    (&["(ult v0 v1)", "(ule v0 v1)"], "(ule v1 v0)", "false"),
    (&["(ult v0 v0)"], "v4", "Contradiction"),
    (&[], "(ule v0 v0)", "Proved"),
    (&[], "v4", "v4"),
    (&[], "(ult v0 v1)", "(ult v0 v1)"),
];

/// Goals that are split, by a disjunction or by a choice, and those that take more splits than there are.
const SPLITS: &[Question] = &[
    (
        &["(or (ult v0 (bits 8 3)) (ult v0 (bits 8 5)))"],
        "(ult v0 (bits 8 5))",
        "Proved",
    ),
    (
        &["(or (ult v0 (bits 8 3)) (ult v0 (bits 8 6)))"],
        "(ult v0 (bits 8 5))",
        "(ult v0 (bits 8 5))",
    ),
    (
        &["(or v4 (slt v0 v1))", "(or (not v4) (slt v0 v1))"],
        "(slt v0 v1)",
        "Proved",
    ),
    (&["(or v4 v5)", "(or v4 (not v5))"], "v4", "Proved"),
    (
        &["(or (slt v0 v1) (slt v1 v0))"],
        "(or (slt v1 v0) (slt v0 v1))",
        "Proved",
    ),
    (
        &[],
        "(ule (ite v4 (bits 8 1) (bits 8 2)) (bits 8 2))",
        "Proved",
    ),
    (
        &[],
        "(ule (ite v4 (bits 8 1) (bits 8 3)) (bits 8 2))",
        "(ule (ite v4 (bits 8 1) (bits 8 3)) (bits 8 2))",
    ),
    (
        &["(ult v0 (bits 8 2))"],
        "(ult (ite (slt v0 v1) v0 (bits 8 1)) (bits 8 2))",
        "Proved",
    ),
    (
        &[],
        "(not (eq (bits 8 0) (bor (ite (slt v0 v1) (bits 8 1) (bits 8 2)) (bor (ite (slt v1 v0) (bits 8 4) (bits 8 8)) (ite v4 (bits 8 16) (bits 8 32))))))",
        "Proved",
    ),
    (
        &[],
        "(not (eq (bits 8 0) (bor (ite v5 (bits 8 64) (bits 8 65)) (bor (ite (slt v0 v1) (bits 8 1) (bits 8 2)) (bor (ite (slt v1 v0) (bits 8 4) (bits 8 8)) (ite v4 (bits 8 16) (bits 8 32)))))))",
        "(not (eq (bits 8 0) (bor (bor (bor (ite v4 (bits 8 16) (bits 8 32)) (ite (slt v1 v0) (bits 8 4) (bits 8 8))) (ite (slt v0 v1) (bits 8 1) (bits 8 2))) (ite v5 (bits 8 64) (bits 8 65)))))",
    ),
    (&[], "(or v4 (not v4))", "Proved"),
    (&[], "(and (or v4 (not v4)) (ule v0 v0))", "Proved"),
    (
        &[],
        "(and (or v4 (not v4)) v5)",
        "(and (or v4 (not v4)) v5)",
    ),
    (
        &["(or v4 (ult v0 (bits 8 9)))"],
        "(or v4 (ult v0 (bits 8 10)))",
        "Proved",
    ),
    (
        &["(or v4 (ult v0 (bits 8 9)))"],
        "(and (or v4 (ult v0 (bits 8 10))) (or v4 (ult v0 (bits 8 9))))",
        "Proved",
    ),
];

/// Whether this is left of a goal in a world.
fn leaves(
    alloc: Global,
    types: &Types,
    world: &World,
    prover: &mut RuleProver,
    goal: &Term,
    left: &str,
) -> Result<bool, AllocError> {
    if prover.norm(world, copy_term(alloc, goal)?).is_err() {
        return Ok(false);
    }
    match prover.prove(world, goal)? {
        Answer::Proved => Ok(left == "Proved"),
        Answer::Contradiction => Ok(left == "Contradiction"),
        Answer::Residue(term) => Ok(print_term(alloc, types, world, &term)?.as_str() == left),
    }
}

/// Whether this is left of a goal under formulas.
fn agrees(alloc: Global, question: &Question) -> Result<bool, AllocError> {
    let (formulas, goal, left) = question;
    let types = types(alloc)?;
    let mut world = world(alloc, &types)?;
    for formula in *formulas {
        world.assume(term_of(alloc, formula)?)?;
    }
    let mut prover = RuleProver::new(alloc);
    let goal = term_of(alloc, goal)?;
    leaves(alloc, &types, &world, &mut prover, &goal, left)
}

#[test]
fn bounds_tell(rt: HostRuntime) -> Result<(), Fail> {
    for question in BOUNDS {
        let agrees = agrees(rt.alloc(), question)?;
        assert!(rt; agrees, "at {}", question.1);
    }
    Ok(())
}

#[test]
fn lists_tell(rt: HostRuntime) -> Result<(), Fail> {
    for question in KNOWN {
        let agrees = agrees(rt.alloc(), question)?;
        assert!(rt; agrees, "at {}", question.1);
    }
    Ok(())
}

#[test]
fn formulas_are_settled(rt: HostRuntime) -> Result<(), Fail> {
    for question in SETTLED {
        let agrees = agrees(rt.alloc(), question)?;
        assert!(rt; agrees, "at {}", question.1);
    }
    Ok(())
}

#[test]
fn goals_are_split(rt: HostRuntime) -> Result<(), Fail> {
    for question in SPLITS {
        let agrees = agrees(rt.alloc(), question)?;
        assert!(rt; agrees, "at {}", question.1);
    }
    Ok(())
}

/// A truth behind so many negations.
fn negations(alloc: Global, count: usize) -> Result<Term, AllocError> {
    let mut term = var(4);
    for _ in 0..count {
        term = apply_one(alloc, Op::Not, term)?;
    }
    Ok(term)
}

/// Whether a formula whose depth is within the limit tells something, and a deeper one nothing.
fn deep_formula_is_dropped(alloc: Global) -> Result<bool, AllocError> {
    let types = types(alloc)?;
    let mut prover = RuleProver::new(alloc);
    let mut told = world(alloc, &types)?;
    told.assume(negations(alloc, 510)?)?;
    let tells = leaves(alloc, &types, &told, &mut prover, &var(4), "Proved")?;
    let mut silent = world(alloc, &types)?;
    silent.assume(negations(alloc, 512)?)?;
    Ok(tells && leaves(alloc, &types, &silent, &mut prover, &var(4), "v4")?)
}

#[test]
fn a_formula_past_a_limit_is_dropped(rt: HostRuntime) -> Result<(), Fail> {
    let dropped = deep_formula_is_dropped(rt.alloc())?;
    assert!(rt; dropped);
    Ok(())
}

/// Whether one prover answers three questions of a world in turn, each for itself.
fn answers_in_turn(alloc: Global) -> Result<bool, AllocError> {
    let types = types(alloc)?;
    let mut world = world(alloc, &types)?;
    world.assume(term_of(alloc, "(ult v0 (bits 8 3))")?)?;
    let mut prover = RuleProver::new(alloc);
    let weak = term_of(alloc, "(ule v0 (bits 8 2))")?;
    let strong = term_of(alloc, "(ult v0 (bits 8 2))")?;
    let first = leaves(alloc, &types, &world, &mut prover, &weak, "Proved")?;
    let residue = "(ult v0 (bits 8 2))";
    let second = leaves(alloc, &types, &world, &mut prover, &strong, residue)?;
    Ok(first && second && leaves(alloc, &types, &world, &mut prover, &weak, "Proved")?)
}

#[test]
fn each_question_is_answered_for_itself(rt: HostRuntime) -> Result<(), Fail> {
    let answered = answers_in_turn(rt.alloc())?;
    assert!(rt; answered);
    Ok(())
}

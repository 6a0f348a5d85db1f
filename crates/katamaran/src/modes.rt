//! Modes: each form that binds a name and that does not, bound, unbound and bound twice; the ends
//! of scopes; and the declarations whose assertions are read.

use crate::tests::{job_agrees, row_agrees};
use kat_top::Status;
use std::alloc::{AllocError, Global};
use std::test::Fail;

/// What stands before the declarations of a row.
const BEFORE: &str = "(register r (bits 8) plain) (register q (bits 8) plain) \
    (memory 8 8 0 16) (region G ((a (bits 8))) i (not (ult i a))) \
    (pred V () ((v (bits 8))) (reg q v))";

/// Whether `check` answers so for these declarations between the others.
fn decls_agree(alloc: Global, decls: &str, answer: &str) -> Result<bool, AllocError> {
    let both = format!(in alloc; "{BEFORE} {decls}")?;
    row_agrees(alloc, both.as_str(), answer)
}

/// Definitions of a predicate with an input p and an output x, and what `check` answers.
const DEFINITIONS: &[(&str, &str)] = &[
    // A value of a register, the second part of a cell, an output and `(eq x E)` bind.
    ("(reg r x)", "typed declarations 12"),
    ("(cell p x)", "typed declarations 12"),
    ("(pred V x)", "typed declarations 12"),
    ("(pure (eq x p))", "typed declarations 12"),
    ("(pure (eq x (add p (bits 8 1))))", "typed declarations 12"),
    // A name that is bound already is compared.
    ("(star (reg r x) (reg q x))", "typed declarations 12"),
    ("(star (reg r x) (pure (eq x p)))", "typed declarations 12"),
    ("(star (pred V x) (cell x x))", "typed declarations 12"),
    ("(star (reg r x) (pred V x))", "typed declarations 12"),
    // Nothing else binds.
    ("(star)", "mode 5 x"),
    ("(reg r p)", "mode 5 x"),
    ("(cell x p)", "mode 5 x"),
    ("(reg r (add x p))", "mode 5 x"),
    ("(pred V (add x p))", "mode 5 x"),
    ("(region G x)", "mode 5 x"),
    ("(pure (eq p x))", "mode 5 x"),
    ("(pure (not (eq x p)))", "mode 5 x"),
    ("(pure (and (eq x p) true))", "mode 5 x"),
    // All names in E have to be bound; where one is not, x is the fault.
    ("(pure (eq x x))", "mode 5 x"),
    (
        "(exists (y (bits 8)) (star (pure (eq x y)) (reg r y)))",
        "mode 5 x",
    ),
    (
        "(exists (y (bits 8)) (star (reg r y) (pure (eq x y))))",
        "typed declarations 12",
    ),
    // A name is bound before it is used.
    ("(star (pure (ult x p)) (reg r x))", "mode 5 x"),
    ("(star (reg r x) (pure (ult x p)))", "typed declarations 12"),
    ("(star (region G x) (reg r x))", "mode 5 x"),
    ("(star (reg r x) (region G x))", "typed declarations 12"),
    ("(if (ult x p) (reg r x) (reg q x))", "mode 5 x"),
];

/// The same, of an `if` and of an `exists`.
const SCOPES: &[(&str, &str)] = &[
    // Behind an `if`, what both branches bind.
    (
        "(if (ult p p) (reg r x) (reg q x))",
        "typed declarations 12",
    ),
    ("(if (ult p p) (reg r x) (star))", "mode 5 x"),
    ("(if (ult p p) (star) (reg r x))", "mode 5 x"),
    (
        "(star (if (ult p p) (reg r x) (star)) (reg q x))",
        "typed declarations 12",
    ),
    (
        "(star (if (ult p p) (reg r x) (star)) (region G x))",
        "mode 5 x",
    ),
    (
        "(star (if (ult p p) (reg r x) (cell p x)) (region G x))",
        "typed declarations 12",
    ),
    (
        "(if (ult p p) (if (eq p p) (reg r x) (star)) (reg r x))",
        "mode 5 x",
    ),
    ("(if (ult p p) (reg r x) (pure (ult x p)))", "mode 5 x"),
    // A name of an `exists` is bound at the end of its scope, and comes behind what stands in it.
    ("(exists (y (bits 8)) (reg r x))", "mode 5 y"),
    (
        "(exists (y (bits 8)) (star (reg r y) (reg q x)))",
        "typed declarations 12",
    ),
    (
        "(star (exists (y (bits 8)) (reg r y)) (exists (y (bits 8)) (reg q y)) (pure (eq x p)))",
        "typed declarations 12",
    ),
    (
        "(star (reg r x) (exists (y (bits 8)) (exists (z (bits 8)) (reg q y))))",
        "mode 5 z",
    ),
    (
        "(star (reg r x) (exists (y (bits 8)) (exists (z (bits 8)) (star))))",
        "mode 5 z",
    ),
    (
        "(star (reg r x) (exists (y (bits 8)) (exists (z (bits 8)) (star (reg q z) (cell z y)))))",
        "typed declarations 12",
    ),
    (
        "(if (ult p p) (exists (y (bits 8)) (star (reg r y) (pure (eq x y)))) (pure (eq x p)))",
        "typed declarations 12",
    ),
    (
        "(star (reg r x) (exists (y (bits 8)) (if (ult x p) (reg q y) (star))))",
        "mode 5 y",
    ),
];

/// Declarations, and what `check` answers.
const DECLARATIONS: &[(&str, &str)] = &[
    // Names of a contract are bound at the end of its precondition, in their order.
    (
        "(fun f ((k (bits 8))) (bits 8) (ret k)) (contract f ((n (bits 8))) (pre (reg r n)) \
            (res z) (post (reg r (add n z))))",
        "typed declarations 13",
    ),
    (
        "(fun f ((k (bits 8))) (bits 8) (ret k)) (contract f ((n (bits 8))) (pre (reg r k)) \
            (res z) (post (reg r n)))",
        "mode 6 n",
    ),
    (
        "(fun f ((k (bits 8))) (bits 8) (ret k)) (contract f ((n (bits 8)) (m (bits 8))) (pre \
            (star)) (res z) (post (star)))",
        "mode 6 n",
    ),
    (
        "(fun f ((k (bits 8))) (bits 8) (ret k)) (contract f () (pre (star)) (res z) (post \
            (exists (y (bits 8)) (star))))",
        "mode 6 y",
    ),
    // So are those of a lemma; its steps may use them.
    (
        "(lemma L ((l (bits 8))) () (pre (reg r l)) (post (reg r l)) (steps)) (lemma M () ((m \
            (bits 8))) (pre (reg r m)) (post (reg r m)) (steps (lemma L m)))",
        "typed declarations 13",
    ),
    (
        "(lemma L () ((m (bits 8))) (pre (star)) (post (reg r m)) (steps))",
        "mode 5 m",
    ),
    (
        "(lemma L () () (pre (star)) (post (exists (y (bits 8)) (pure (ult y y)))) (steps))",
        "mode 5 y",
    ),
    // Each output is bound by the definition, a truth too; the first that is not is told.
    (
        "(pred T () ((x (bits 8)) (y (bits 8))) (star (reg r y) (reg q x)))",
        "typed declarations 12",
    ),
    (
        "(pred T () ((x (bits 8)) (y (bits 8))) (reg r y))",
        "mode 5 x",
    ),
    ("(pred T () ((t bool)) (pure t))", "mode 5 t"),
    (
        "(pred T () ((t bool)) (pure (eq t true)))",
        "typed declarations 12",
    ),
    // One name as two outputs is bound by the first and compared with the second.
    (
        "(pred T () ((x (bits 8)) (y (bits 8))) (star (reg r x) (reg q y))) (pred W () ((w (bits \
            8))) (pred T w w))",
        "typed declarations 13",
    ),
    // Outputs are bound by a use of their predicate, inputs are asked; the first declaration of
    // those with a fault is told.
    (
        "(pred P ((p (bits 8))) ((x (bits 8))) (reg r x)) (pred W () ((w (bits 8))) (exists (u \
            (bits 8)) (star (cell (bits 8 0) u) (pred P u w))))",
        "typed declarations 13",
    ),
    (
        "(pred P ((p (bits 8))) ((x (bits 8))) (reg r x)) (pred W () ((w (bits 8))) (exists (u \
            (bits 8)) (pred P u w)))",
        "mode 6 u",
    ),
    (
        "(pred P ((p (bits 8))) ((x (bits 8))) (star)) (pred W () ((w (bits 8))) (star))",
        "mode 5 x",
    ),
    // Faults of typing come first.
    (
        "(pred P () ((x (bits 8))) (star)) (register t (bits 65) plain)",
        "type 6 5 3",
    ),
];

/// Whether `check` answers so for a predicate of this definition.
fn definition_agrees(alloc: Global, definition: &str, answer: &str) -> Result<bool, AllocError> {
    let decl = format!(in alloc; "(pred P ((p (bits 8))) ((x (bits 8))) {definition})")?;
    decls_agree(alloc, decl.as_str(), answer)
}

#[test]
fn a_definition_binds_its_output(rt: HostRuntime) -> Result<(), Fail> {
    for (definition, answer) in DEFINITIONS {
        let agrees = definition_agrees(rt.alloc(), definition, answer)?;
        assert!(rt; agrees, "at {definition}");
    }
    Ok(())
}

#[test]
fn branches_and_scopes_bind_as_they_say(rt: HostRuntime) -> Result<(), Fail> {
    for (definition, answer) in SCOPES {
        let agrees = definition_agrees(rt.alloc(), definition, answer)?;
        assert!(rt; agrees, "at {definition}");
    }
    Ok(())
}

#[test]
fn names_of_contracts_and_lemmas_are_bound(rt: HostRuntime) -> Result<(), Fail> {
    for (decls, answer) in DECLARATIONS {
        let agrees = decls_agree(rt.alloc(), decls, answer)?;
        assert!(rt; agrees, "at {decls}");
    }
    Ok(())
}

/// What stands before the untrusted assertion and the block.
const MACHINE: &str = "(fun s () unit (ret unit)) (step s) (dispatch (else (block b)))";

#[test]
fn the_untrusted_assertion_and_entries_are_read(rt: HostRuntime) -> Result<(), Fail> {
    let rows = [
        (
            "(untrusted (exists (y (bits 8)) (star))) \
                (block b (entry (star)) (within 1) (change true))",
            "mode 3 y\n",
        ),
        (
            "(untrusted (star)) \
                (block b (entry (exists (y (bits 8)) (star))) (within 1) (change true))",
            "mode 4 y\n",
        ),
    ];
    for (decls, line) in rows {
        let spec = format!(in rt.alloc(); "(spec 1 {MACHINE} {decls} (boot b))")?;
        for words in ["check s", "run s i --cycles 1 --calls 1"] {
            let agrees = job_agrees(rt.alloc(), words, spec.as_str(), Status::IllTyped, line)?;
            assert!(rt; agrees, "at {decls}");
        }
    }
    Ok(())
}

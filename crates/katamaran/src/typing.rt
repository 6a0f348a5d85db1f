//! Each condition of typing, by its number: texts of which it is the first fault, and a neighbour
//! of them that is typed; texts with two faults, of which the first is named; and the same in
//! `run`.

use crate::tests::{check_agrees, job_agrees, row_agrees};
use kat_top::Status;
use std::alloc::{AllocError, Global};
use std::test::Fail;

/// Of names and widths: by condition, three or more declarations with
/// that condition as their first fault, and behind them what is typed.
const NAMES: &[(&str, &str)] = &[
    // A name that is declared is taken, everywhere: a local hides no name, an earlier or a later one.
    ("(enum E (A B)) (register A bool plain)", "type 1 2 1"),
    ("(enum E (A A))", "type 0 5 1"),
    (
        "(enum E (A)) (union U ((B (bits 8)) (A unit)))",
        "type 1 10 1",
    ),
    ("(record R ((a unit) (a unit)))", "type 0 8 1"),
    (
        "(fun f ((a bool)) bool (ret a)) (register a bool plain)",
        "type 0 5 1",
    ),
    (
        "(fun f ((a (bits 2)) (a bool)) bool (ret a))",
        "type 0 10 1",
    ),
    (
        "(fun f () unit (let x (ret unit) (let x (ret unit) (ret unit))))",
        "type 0 13 1",
    ),
    (
        "(union U ((K unit))) (fun f ((p unit)) unit (match (make K p) (K p (ret p))))",
        "type 1 16 1",
    ),
    (
        "(fun f () unit (ret unit)) (contract f () (pre (star)) (res r) (post (exists (r bool) \
            (pure r))))",
        "type 1 16 1",
    ),
    (
        "(fun f ((p unit)) unit (ret p)) (contract f () (pre (star)) (res p) (post (star)))",
        "type 1 10 1",
    ),
    (
        "(lemma L ((p bool)) ((p bool)) (pre (star)) (post (star)) (steps))",
        "type 0 9 1",
    ),
    (
        "(register a bool plain) (record R ((a unit)))",
        "typed declarations 8",
    ),
    (
        "(fun f () unit (let x (let y (ret unit) (ret unit)) (let y (ret unit) (ret x))))",
        "typed declarations 7",
    ),
    // A type is declared before the declaration that names it.
    ("(register r E plain) (enum E (A))", "type 0 3 2"),
    ("(record R ((a R)))", "type 0 6 2"),
    ("(register q bool plain) (register r q plain)", "type 1 3 2"),
    (
        "(fun f () unit (let x (ret (of E A)) (ret unit))) (enum E (A))",
        "type 0 12 2",
    ),
    ("(enum E (A)) (register r E plain)", "typed declarations 8"),
    // Widths are 1 to 64.
    ("(register r (bits 65) plain)", "type 0 5 3"),
    ("(memory 0 8 0 1)", "type 0 2 3"),
    ("(memory 8 65 0 2)", "type 0 3 3"),
    (
        "(fun f () unit (let x (ret (bits 0 0)) (ret unit)))",
        "type 0 12 3",
    ),
    (
        "(fun f () unit (let x (ret (zext 65 (bits 8 0))) (ret unit)))",
        "type 0 12 3",
    ),
    ("(register r (bits 64) plain)", "typed declarations 7"),
    // A name of its kind is there.
    ("(fun f () unit (write r true))", "type 0 7 4"),
    ("(pred P () () (pred Q))", "type 0 7 4"),
    (
        "(record R ((a unit))) (fun f ((v R)) unit (ret (get R b v)))",
        "type 1 13 4",
    ),
    (
        "(fun f () unit (ret unit)) (contract f () (pre (pure (eq r unit))) (res r) (post \
            (star)))",
        "type 1 10 4",
    ),
    (
        "(enum E (A)) (fun f () unit (let x (ret (rec E A)) (ret unit)))",
        "type 1 12 4",
    ),
    (
        "(enum E (A)) (enum G (B)) (fun f () E (ret (of E B)))",
        "type 2 10 4",
    ),
    ("(fun f () unit (call g))", "type 0 7 4"),
    (
        "(register r bool plain) (fun f () unit (write r true))",
        "typed declarations 8",
    ),
    // A literal fits its width.
    ("(fun f () (bits 8) (ret (bits 8 256)))", "type 0 12 5"),
    ("(fun f () (bits 1) (ret (bits 1 2)))", "type 0 12 5"),
    (
        "(fun f () (bits 63) (ret (bits 63 18446744073709551615)))",
        "type 0 12 5",
    ),
    (
        "(fun f () (bits 64) (ret (bits 64 18446744073709551615)))",
        "typed declarations 7",
    ),
];

#[test]
fn names(rt: HostRuntime) -> Result<(), Fail> {
    for (decls, answer) in NAMES {
        let agrees = row_agrees(rt.alloc(), decls, answer)?;
        assert!(rt; agrees, "at {decls}");
    }
    Ok(())
}

/// Of operations and arguments: by condition, three or more declarations with
/// that condition as their first fault, and behind them what is typed.
const OPERATIONS: &[(&str, &str)] = &[
    // An expression is of the type that is wanted.
    (
        "(fun f () (bits 9) (ret (add true (bits 9 0))))",
        "type 0 11 6",
    ),
    (
        "(fun f () (bits 8) (ret (add (bits 8 0) (bits 9 0))))",
        "type 0 15 6",
    ),
    ("(fun f () bool (ret (eq true unit)))", "type 0 10 6"),
    (
        "(fun f () unit (if unit (ret unit) (ret unit)))",
        "type 0 7 6",
    ),
    (
        "(register r bool plain) (fun f () unit (write r unit))",
        "type 1 8 6",
    ),
    (
        "(enum E (A)) (fun f () E (ret (ite true (of E A) (of E A))))",
        "type 1 10 6",
    ),
    (
        "(fun g ((x bool)) unit (ret unit)) (fun f () unit (call g unit))",
        "type 1 8 6",
    ),
    (
        "(fun f () (bits 9) (ret (add (bits 9 1) (bits 9 0))))",
        "typed declarations 7",
    ),
    // Arguments are as many as are wanted.
    (
        "(fun g ((x bool)) bool (ret x)) (fun f () bool (call g))",
        "type 1 5 7",
    ),
    (
        "(record R ((a unit))) (fun f () R (ret (rec R)))",
        "type 1 7 7",
    ),
    (
        "(pred P ((a bool)) ((o bool)) (pure (eq o a))) (fun f () unit (open P true true))",
        "type 1 5 7",
    ),
    (
        "(lemma L ((p bool)) ((n bool)) (pre (pure (eq n p))) (post (star)) (steps)) (fun f () \
            unit (lemma L true true))",
        "type 1 5 7",
    ),
    (
        "(lemma L ((p bool)) ((n bool)) (pre (pure (eq n p))) (post (star)) (steps)) (fun f () \
            unit (lemma L true))",
        "typed declarations 8",
    ),
    // A slice is inside: lo is at most hi, and hi below the width.
    (
        "(fun f () (bits 8) (ret (slice 0 7 (bits 8 0))))",
        "type 0 9 8",
    ),
    (
        "(fun f () (bits 9) (ret (slice 8 0 (bits 8 0))))",
        "type 0 9 8",
    ),
    (
        "(fun f () (bits 5) (ret (slice 8 4 (bits 8 0))))",
        "type 0 9 8",
    ),
    (
        "(fun f () (bits 8) (ret (slice 7 0 (bits 8 0))))",
        "typed declarations 7",
    ),
    // An extension does not shorten, and what is put together has at most 64 bits.
    (
        "(fun f () (bits 4) (ret (zext 4 (bits 8 0))))",
        "type 0 9 9",
    ),
    (
        "(fun f () (bits 7) (ret (sext 7 (bits 8 0))))",
        "type 0 9 9",
    ),
    (
        "(fun f () (bits 64) (ret (cat (bits 33 0) (bits 32 0))))",
        "type 0 9 9",
    ),
    (
        "(fun f () (bits 64) (ret (cat (bits 32 0) (bits 32 0))))",
        "typed declarations 7",
    ),
];

#[test]
fn operations(rt: HostRuntime) -> Result<(), Fail> {
    for (decls, answer) in OPERATIONS {
        let agrees = row_agrees(rt.alloc(), decls, answer)?;
        assert!(rt; agrees, "at {decls}");
    }
    Ok(())
}

/// Of arms, branches and bodies: by condition, three or more declarations with
/// that condition as their first fault, and behind them what is typed.
const BODIES: &[(&str, &str)] = &[
    // Arms list the members of an enum, or the constructors of a union, each once and in order.
    ("(enum E (A)) (fun f ((e E)) unit (case e))", "type 1 8 10"),
    (
        "(enum E (A B)) (fun f ((e E)) unit (case e (B (ret unit)) (A (ret unit))))",
        "type 1 8 10",
    ),
    (
        "(union U ((K unit) (L unit))) (fun f ((u U)) unit (match u (K p (ret p))))",
        "type 1 8 10",
    ),
    (
        "(enum E (A B)) (fun f ((e E)) unit (case e (A (ret unit)) (A (ret unit)) (B (ret \
            unit))))",
        "type 1 8 10",
    ),
    (
        "(enum E (A B)) (fun f ((e E)) unit (case e (A (ret unit)) (B (ret unit))))",
        "typed declarations 8",
    ),
    // Branches whose types are known are of one type; a branch that fails has none.
    (
        "(fun f ((x bool)) bool (if x (ret x) (ret unit)))",
        "type 0 8 11",
    ),
    (
        "(enum E (A B C)) (fun f ((e E)) bool (case e (A (fail)) (B (ret true)) (C (ret unit))))",
        "type 1 8 11",
    ),
    (
        "(union U ((K bool) (L unit))) (fun f ((u U)) bool (match u (K p (ret p)) (L q (ret \
            q))))",
        "type 1 8 11",
    ),
    (
        "(enum E (A B C)) (fun f ((e E)) bool (case e (A (fail)) (B (ret true)) (C (fail))))",
        "typed declarations 8",
    ),
    // A body is of its function's type.
    ("(fun f () unit (ret true))", "type 0 5 12"),
    ("(fun f () (bits 8) (ret (bits 9 0)))", "type 0 7 12"),
    ("(fun f () bool (seq (ret true) (ret unit)))", "type 0 5 12"),
    (
        "(enum E (A B)) (fun f ((e E)) unit (case e (A (ret true)) (B (fail))))",
        "type 1 8 12",
    ),
    ("(fun f () (bits 8) (fail))", "typed declarations 7"),
];

#[test]
fn bodies(rt: HostRuntime) -> Result<(), Fail> {
    for (decls, answer) in BODIES {
        let agrees = row_agrees(rt.alloc(), decls, answer)?;
        assert!(rt; agrees, "at {decls}");
    }
    Ok(())
}

/// Of the memory and its cells: by condition, three or more declarations with
/// that condition as their first fault, and behind them what is typed.
const CELLS: &[(&str, &str)] = &[
    // What speaks of cells stands behind the memory, and there is one.
    ("(region g () i true) (memory 8 8 0 16)", "type 0 0 13"),
    (
        "(fun f () (bits 8) (load (bits 8 0))) (memory 8 8 0 16)",
        "type 0 7 13",
    ),
    ("(cells protected 0 1) (memory 8 8 0 16)", "type 0 0 13"),
    ("(memory 8 8 0 16) (memory 8 8 0 16)", "type 1 0 13"),
    (
        "(fun f () unit (ret unit)) (contract f () (pre (region g)) (res z) (post (star))) \
            (memory 8 8 0 16) (region g () i true)",
        "type 1 6 13",
    ),
    (
        "(fun f () unit (store (bits 8 0) (bits 8 0))) (memory 8 8 0 16)",
        "type 0 5 13",
    ),
    ("(code 0 1) (memory 8 8 0 16)", "type 0 0 13"),
    (
        "(fun f () unit (ret unit)) (contract f () (pre (cell (bits 8 0) (bits 8 0))) (res z) \
            (post (star))) (memory 8 8 0 16)",
        "type 1 6 13",
    ),
    (
        "(memory 8 8 0 16) (region g () i true)",
        "typed declarations 8",
    ),
    // A memory's bounds are reached by its indices, and at most 1,048,576 apart.
    ("(memory 8 8 0 257)", "type 0 0 14"),
    ("(memory 64 8 0 1048577)", "type 0 0 14"),
    ("(memory 8 8 5 5)", "type 0 0 14"),
    ("(memory 64 8 0 1048576)", "typed declarations 7"),
    (
        "(memory 64 64 18446744073709551614 18446744073709551615)",
        "typed declarations 7",
    ),
    // Cells are cells of the memory, and values of code are values of them.
    ("(memory 8 8 0 2) (code 0 256)", "type 1 0 15"),
    (
        "(memory 8 8 0 2) (code 18446744073709551615 0)",
        "type 1 0 15",
    ),
    ("(memory 8 8 0 16) (cells outside 15 17)", "type 1 0 15"),
    ("(memory 8 8 0 16) (cells protected 4 4)", "type 1 0 15"),
    ("(memory 8 8 0 16) (code 14 1 255)", "typed declarations 8"),
    // No cell is taken twice.
    (
        "(memory 8 8 0 16) (code 0 1 2) (cells outside 1 3)",
        "type 2 0 16",
    ),
    (
        "(memory 8 8 0 16) (cells protected 0 4) (code 3 1)",
        "type 2 0 16",
    ),
    (
        "(memory 8 8 0 16) (cells outside 2 8) (cells protected 4 5)",
        "type 2 0 16",
    ),
    (
        "(memory 8 8 0 16) (code 0 1 2) (cells outside 2 3) (cells protected 3 4)",
        "typed declarations 10",
    ),
];

#[test]
fn cells(rt: HostRuntime) -> Result<(), Fail> {
    for (decls, answer) in CELLS {
        let agrees = row_agrees(rt.alloc(), decls, answer)?;
        assert!(rt; agrees, "at {decls}");
    }
    Ok(())
}

/// Of where things stand, and counts: by condition, three or more declarations with
/// that condition as their first fault, and behind them what is typed.
const PLACES: &[(&str, &str)] = &[
    // A register outside is of bits.
    ("(register r bool outside)", "type 0 3 17"),
    ("(register r unit outside)", "type 0 3 17"),
    ("(enum E (A)) (register r E outside)", "type 1 3 17"),
    ("(register r (bits 8) outside)", "typed declarations 7"),
    // Registers are named where they may be, and as they are.
    (
        "(register p bool protected) (fun f () bool (ret (reg p)))",
        "type 1 7 18",
    ),
    (
        "(register p bool protected) (fun f () unit (ret unit)) (contract f () (pre (pure (kept \
            p))) (res r) (post (star)))",
        "type 2 8 18",
    ),
    (
        "(register p bool plain) (block c (entry (pure (kept p))) (within 1) (change true))",
        "type 1 7 18",
    ),
    (
        "(register p bool protected) (block c (entry (pure (before p))) (within 1) (change \
            true))",
        "type 1 7 18",
    ),
    (
        "(memory 8 8 0 16) (cells outside 0 1) (block c (entry (pure (eq (kept_cell 0) (bits 8 \
            0)))) (within 1) (change true))",
        "type 2 9 18",
    ),
    (
        "(register o (bits 8) outside) (block c (entry (pure (eq (kept o) (bits 8 0)))) (within \
            1) (change true))",
        "type 1 9 18",
    ),
    (
        "(register p bool protected) (block c (entry (pure (kept p))) (within 1) (change (eq \
            (before p) (after p))))",
        "typed declarations 8",
    ),
    // A predicate or a lemma is used behind its declaration.
    ("(pred P () () (pred P))", "type 0 7 19"),
    (
        "(lemma L () () (pre (star)) (post (star)) (steps (lemma L)))",
        "type 0 17 19",
    ),
    (
        "(fun f () unit (open P)) (pred P () () (star))",
        "type 0 7 19",
    ),
    (
        "(pred P () () (star)) (fun f () unit (open P))",
        "typed declarations 8",
    ),
    // Steps of a lemma are proof statements.
    (
        "(pred P () () (star)) (lemma L () () (pre (star)) (post (star)) (steps (seq (open P))))",
        "type 1 15 20",
    ),
    (
        "(lemma L () () (pre (star)) (post (star)) (steps (ret x)))",
        "type 0 15 20",
    ),
    (
        "(register r bool plain) (lemma L () () (pre (star)) (post (star)) (steps (write r \
            true)))",
        "type 1 15 20",
    ),
    (
        "(pred P () () (star)) (lemma L () () (pre (star)) (post (star)) (steps (open P)))",
        "typed declarations 8",
    ),
    // One step function, one dispatch, one untrusted assertion, one boot block.
    ("(untrusted (star))", "type 4 0 21"),
    ("(boot b)", "type 6 0 21"),
    ("(step s)", "type 2 0 21"),
    ("(dispatch (else inside))", "type 3 0 21"),
    ("(fun f () unit (ret unit))", "typed declarations 7"),
    // A block takes 1 to 256 cycles.
    (
        "(block c (entry (star)) (within 0) (change true))",
        "type 0 9 22",
    ),
    (
        "(block c (entry (star)) (within 257) (change true))",
        "type 0 9 22",
    ),
    (
        "(block c (entry (star)) (within 18446744073709551615) (change true))",
        "type 0 9 22",
    ),
    (
        "(block c (entry (star)) (within 256) (change true))",
        "typed declarations 7",
    ),
    // The places that are protected have a limit.
    ("(memory 8 8 0 200) (cells protected 0 65)", "type 1 0 23"),
    (
        "(memory 8 8 0 200) (register p bool protected) (cells protected 0 64)",
        "type 2 0 23",
    ),
    (
        "(memory 8 8 0 200) (cells protected 0 64)",
        "typed declarations 8",
    ),
    // A function has one contract.
    (
        "(fun f () unit (ret unit)) (contract f () (pre (star)) (res r) (post (star))) (contract \
            f () (pre (star)) (res r) (post (star)))",
        "type 2 0 24",
    ),
    (
        "(fun f () unit (ret unit)) (contract f () (pre (star)) (res r) (post (star))) (contract \
            f ((f bool)) (pre (star)) (res r) (post (star)))",
        "type 2 0 24",
    ),
    (
        "(contract s () (pre (star)) (res r) (post (star))) (contract s ((q bool)) (pre (star)) \
            (res r) (post (pure q)))",
        "type 1 0 24",
    ),
    (
        "(fun f () unit (ret unit)) (contract f () (pre (star)) (res r) (post (star))) (contract \
            s () (pre (star)) (res r) (post (star)))",
        "typed declarations 9",
    ),
];

#[test]
fn places(rt: HostRuntime) -> Result<(), Fail> {
    for (decls, answer) in PLACES {
        let agrees = row_agrees(rt.alloc(), decls, answer)?;
        assert!(rt; agrees, "at {decls}");
    }
    Ok(())
}

/// Declarations with two faults, and the first: by declaration, then by tree, then by condition.
const TWO_FAULTS: &[(&str, &str)] = &[
    (
        "(register r (bits 65) plain) (register q (bits 0) plain)",
        "type 0 5 3",
    ),
    ("(register q E plain) (enum E (E))", "type 0 3 2"),
    ("(fun f ((a (bits 0)) (s bool)) bool (ret a))", "type 0 8 3"),
    (
        "(fun f () (bits 8) (ret (slice 0 7 (bits 0 1))))",
        "type 0 9 8",
    ),
    ("(memory 0 8 5 5)", "type 0 0 14"),
    ("(memory 8 8 0 16) (memory 8 8 5 5)", "type 1 0 13"),
    (
        "(memory 8 8 0 16) (code 0 1) (cells protected 0 17)",
        "type 2 0 15",
    ),
    (
        "(enum E (A B)) (fun f ((e E)) unit (case e (B (ret unit)) (A (ret true))))",
        "type 1 8 10",
    ),
    (
        "(fun f () unit (ret unit)) (step f) (dispatch (else (block c)))",
        "type 2 6 4",
    ),
    (
        "(fun f () unit (let b (ret (bits 0 2)) (ret true)))",
        "type 0 5 12",
    ),
    ("(pred P () () (pred P true))", "type 0 5 7"),
    (
        "(fun f () unit (if unit (ret true) (ret unit)))",
        "type 0 5 11",
    ),
    (
        "(fun f () bool (ret (eq (reg n) (slice 0 7 (bits 8 0)))))",
        "type 0 9 18",
    ),
    (
        "(register p bool plain) (fun f () unit (check (eq true (reg p))))",
        "type 1 10 18",
    ),
    (
        "(fun f ((x bool)) (bits 8) (ret (add x (slice 0 7 (bits 8 0)))))",
        "type 0 14 6",
    ),
    (
        "(fun f () (bits 8) (if true (ret true) (ret unit)))",
        "type 0 7 11",
    ),
    (
        "(lemma L () () (pre (star)) (post (star)) (steps (case true)))",
        "type 0 15 20",
    ),
    (
        "(memory 8 8 0 256) (cells protected 0 60) (cells protected 58 66)",
        "type 2 0 16",
    ),
    ("(cells protected 0 65) (memory 8 8 0 256)", "type 0 0 13"),
];

#[test]
fn two_faults(rt: HostRuntime) -> Result<(), Fail> {
    for (decls, answer) in TWO_FAULTS {
        let agrees = row_agrees(rt.alloc(), decls, answer)?;
        assert!(rt; agrees, "at {decls}");
    }
    Ok(())
}

/// All declarations of a text: where what has to stand once does not, or stands elsewhere, also
/// beside another fault; and conditions of the dispatch.
const WHOLE: &[(&str, &str)] = &[
    (
        "(fun s () bool (ret true)) (step s) (dispatch (else (block b))) (untrusted (star)) \
            (block b (entry (star)) (within 1) (change true)) (boot b)",
        "type 1 2 21",
    ),
    (
        "(fun s ((a bool)) unit (ret unit)) (step s) (dispatch (else (block b))) (untrusted \
            (star)) (block b (entry (star)) (within 1) (change true)) (boot b)",
        "type 1 2 21",
    ),
    (
        "(step s) (dispatch (else (block b))) (untrusted (star)) (block b (entry (star)) (within \
            1) (change true)) (boot b) (fun s () unit (ret unit))",
        "typed declarations 6",
    ),
    (
        "(fun s () unit (ret unit)) (dispatch (else (block b))) (untrusted (star)) (block b \
            (entry (star)) (within 1) (change true)) (boot b)",
        "type 5 0 21",
    ),
    (
        "(fun s () unit (ret unit)) (step s) (untrusted (star)) (block b (entry (star)) (within \
            1) (change true)) (boot b)",
        "type 5 0 21",
    ),
    (
        "(fun s () unit (ret unit)) (step s) (dispatch (else (block b))) (block b (entry (star)) \
            (within 1) (change true)) (boot b)",
        "type 5 0 21",
    ),
    (
        "(fun s () unit (ret unit)) (step s) (dispatch (else (block b))) (untrusted (star)) \
            (block b (entry (star)) (within 1) (change true))",
        "type 5 0 21",
    ),
    (
        "(register n (bits 8) plain) (fun f () unit (let a (read n) (if (ult a (bits 8 3)) \
            (write n (add a (bits 8 1))) (fail)))) (step f)",
        "type 3 0 21",
    ),
    ("(register n (bits 65) plain)", "type 0 5 3"),
    (
        "(register o (bits 1) outside) (fun s () unit (ret unit)) (step s) (dispatch (when (eq \
            (reg o) (bits 1 0)) inside) (else (block b))) (untrusted (star)) (block b (entry \
            (star)) (within 1) (change true)) (boot b)",
        "type 3 6 18",
    ),
    (
        "(register o (bits 1) plain) (fun s () unit (ret unit)) (step s) (dispatch (when (eq \
            (reg o) (bits 1 0)) inside) (else (block b))) (untrusted (star)) (block b (entry \
            (star)) (within 1) (change true)) (boot b)",
        "typed declarations 7",
    ),
    ("", "type 0 0 21"),
];

#[test]
fn whole_texts(rt: HostRuntime) -> Result<(), Fail> {
    for (decls, answer) in WHOLE {
        let agrees = check_agrees(rt.alloc(), decls, answer)?;
        assert!(rt; agrees, "at {decls}");
    }
    Ok(())
}

/// A record of 31 fields, whose size is 32.
const RECORD: &str =
    "(record R ((au bool) (av bool) (aw bool) (ax bool) (ay bool) (az bool) (bu bool) (bv bool) (bw \
    bool) (bx bool) (by bool) (bz bool) (cu bool) (cv bool) (cw bool) (cx bool) (cy bool) (cz \
    bool) (du bool) (dv bool) (dw bool) (dx bool) (dy bool) (dz bool) (eu bool) (ev bool) (ew \
    bool) (ex bool) (ey bool) (ez bool) (fu bool)))";

/// Declarations behind that record: the greatest size of a type is 256, a union's that of its
/// largest payload and 1.
const SIZES: &[(&str, &str)] = &[
    (
        "(record Q ((a R) (b R) (c R) (d R) (e R) (f R) (g R)))",
        "typed declarations 8",
    ),
    (
        "(record Q ((a R) (b R) (c R) (d R) (e R) (f R) (g R) (h R)))",
        "type 1 0 23",
    ),
    (
        "(record Q ((a R) (b R) (c R) (d R) (e R) (f R))) (union U ((K unit) (L Q))) (record Z \
            ((a U) (b R)))",
        "typed declarations 10",
    ),
    (
        "(record Q ((a R) (b R) (c R) (d R) (e R) (f R) (g R))) (union U ((K unit) (L Q))) \
            (record Z ((a U) (b R)))",
        "type 3 0 23",
    ),
];

#[test]
fn sizes(rt: HostRuntime) -> Result<(), Fail> {
    for (decls, answer) in SIZES {
        let decls = format!(in rt.alloc(); "{RECORD} {decls}")?;
        let agrees = row_agrees(rt.alloc(), decls.as_str(), answer)?;
        assert!(rt; agrees, "at {decls}");
    }
    Ok(())
}

/// So many texts, one behind another, each with its number between a front and a back.
fn repeated(alloc: Global, count: usize, front: &str, back: &str) -> Result<String, AllocError> {
    let mut text = String::new(alloc);
    for number in 0..count {
        let one = format!(in alloc; "{front}{number}{back}")?;
        text.push_str(one.as_str())?;
    }
    Ok(text)
}

#[test]
fn declarations_up_to_their_limit(rt: HostRuntime) -> Result<(), Fail> {
    for (count, answer) in [(4090, "typed declarations 4096"), (4091, "type 4096 0 23")] {
        let decls = repeated(rt.alloc(), count, "(record e", " ((f bool)))")?;
        let agrees = row_agrees(rt.alloc(), decls.as_str(), answer)?;
        assert!(rt; agrees, "at {count}");
    }
    Ok(())
}

#[test]
fn code_up_to_its_limit(rt: HostRuntime) -> Result<(), Fail> {
    for (count, answer) in [(256, "typed declarations 8"), (257, "type 1 0 23")] {
        let values = repeated(rt.alloc(), count, " ", "")?;
        let decls = format!(in rt.alloc(); "(memory 9 16 0 512) (code 0{})", values.as_str())?;
        let agrees = row_agrees(rt.alloc(), decls.as_str(), answer)?;
        assert!(rt; agrees, "at {count}");
    }
    Ok(())
}

#[test]
fn fields_up_to_their_limit(rt: HostRuntime) -> Result<(), Fail> {
    for (count, answer) in [(32, "typed declarations 7"), (33, "type 0 0 23")] {
        let fields = repeated(rt.alloc(), count, "(f", " bool)")?;
        let decls = format!(in rt.alloc(); "(record R ({}))", fields.as_str())?;
        let agrees = row_agrees(rt.alloc(), decls.as_str(), answer)?;
        assert!(rt; agrees, "at {count}");
    }
    Ok(())
}

#[test]
fn a_run_is_of_a_typed_specification(rt: HostRuntime) -> Result<(), Fail> {
    let rows = [
        ("(spec 1 (fun f () unit (fail)))", "type 1 0 21\n"),
        (
            "(spec 1 (register n (bits 65) plain) (fun f () unit (fail)) (step f))",
            "type 0 5 3\n",
        ),
    ];
    for (spec, line) in rows {
        let words = "run s i --cycles 1 --calls 1";
        let agrees = job_agrees(rt.alloc(), words, spec, Status::IllTyped, line)?;
        assert!(rt; agrees, "at {spec}");
    }
    Ok(())
}

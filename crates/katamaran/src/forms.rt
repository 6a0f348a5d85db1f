//! Each form of the language once as it is to be; and with a part too few or too many, another
//! first word, a word of a value or a number in place of a name, and a name in place of a number.
//! Behind each stands the first misfit that `print` names, or nothing where the form is right and
//! is printed.

use crate::tests::print_agrees;
use kat_top::Status;
use std::alloc::{AllocError, Global};
use std::test::Fail;

/// Whether `print` answers so for a text: by the text itself, or by the misfit.
fn form_agrees(alloc: Global, spec: &str, misfit: &str) -> Result<bool, AllocError> {
    if misfit.is_empty() {
        let text = format!(in alloc; "{spec}\n")?;
        print_agrees(alloc, spec, Status::Ok, text.as_str())
    } else {
        let text = format!(in alloc; "form {misfit}\n")?;
        print_agrees(alloc, spec, Status::Form, text.as_str())
    }
}

const DATA: &[(&str, &str)] = &[
    ("(enum x (A B))", ""),
    ("(enum x)", "3 declaration"),
    ("(enum x (A B) (fail))", "3 declaration"),
    ("(nope x (A B))", "3 declaration"),
    ("(enum true (A B))", "5 name"),
    ("(enum 1 (A B))", "5 name"),
    ("(enum x ())", "6 part"),
    ("(enum x A)", "6 part"),
    ("enum", "3 declaration"),
    ("(union x ((K unit) (L bool)))", ""),
    ("(union x)", "3 declaration"),
    ("(union x ((K unit) (L bool)) (fail))", "3 declaration"),
    ("(nope x ((K unit) (L bool)))", "3 declaration"),
    ("(union true ((K unit) (L bool)))", "5 name"),
    ("(union 1 ((K unit) (L bool)))", "5 name"),
    ("(union x ())", "6 part"),
    ("(union x (K))", "7 part"),
    ("(record x ((f (bits 8)) (g y)))", ""),
    ("(record x)", "3 declaration"),
    ("(record x ((f (bits 8)) (g y)) (fail))", "3 declaration"),
    ("(nope x ((f (bits 8)) (g y)))", "3 declaration"),
    ("(record true ((f (bits 8)) (g y)))", "5 name"),
    ("(record 1 ((f (bits 8)) (g y)))", "5 name"),
    ("(record x ((f (bits x)) (g y)))", "11 number"),
    ("(register r (bits 8) protected)", ""),
    ("(register r (bits 8))", "3 declaration"),
    ("(register r (bits 8) protected (fail))", "3 declaration"),
    ("(nope r (bits 8) protected)", "3 declaration"),
    ("(register true (bits 8) protected)", "5 name"),
    ("(register 1 (bits 8) protected)", "5 name"),
    ("(register r (bits x) protected)", "8 number"),
    ("(memory 4 8 0 16)", ""),
    ("(memory 4 8 0)", "3 declaration"),
    ("(memory 4 8 0 16 (fail))", "3 declaration"),
    ("(nope 4 8 0 16)", "3 declaration"),
    ("(memory x 8 0 16)", "5 number"),
    ("(cells outside 0 4)", ""),
    ("(cells outside 0)", "3 declaration"),
    ("(cells outside 0 4 (fail))", "3 declaration"),
    ("(nope outside 0 4)", "3 declaration"),
    ("(cells outside x 4)", "6 number"),
    ("(code 0 7 8)", ""),
    ("(code 0 7)", ""),
    ("(code 0 7 8 (fail))", "8 number"),
    ("(nope 0 7 8)", "3 declaration"),
    ("(code x 7 8)", "5 number"),
];

#[test]
fn declarations_of_data(rt: HostRuntime) -> Result<(), Fail> {
    for (form, misfit) in DATA {
        let spec = format!(in rt.alloc(); "(spec 1 {form})")?;
        let agrees = form_agrees(rt.alloc(), spec.as_str(), misfit)?;
        assert!(rt; agrees, "at {form}");
    }
    Ok(())
}

const CODE: &[(&str, &str)] = &[
    ("(region G ((a (bits 4))) i (ult i a))", ""),
    ("(region G ((a (bits 4))) i)", "3 declaration"),
    (
        "(region G ((a (bits 4))) i (ult i a) (fail))",
        "3 declaration",
    ),
    ("(nope G ((a (bits 4))) i (ult i a))", "3 declaration"),
    ("(region true ((a (bits 4))) i (ult i a))", "5 name"),
    ("(region 1 ((a (bits 4))) i (ult i a))", "5 name"),
    ("(region G ((a (bits x))) i (ult i a))", "11 number"),
    ("(pred P ((a unit)) ((b unit)) (pure true))", ""),
    ("(pred P ((a unit)) ((b unit)))", "3 declaration"),
    (
        "(pred P ((a unit)) ((b unit)) (pure true) (fail))",
        "3 declaration",
    ),
    (
        "(nope P ((a unit)) ((b unit)) (pure true))",
        "3 declaration",
    ),
    ("(pred true ((a unit)) ((b unit)) (pure true))", "5 name"),
    ("(pred 1 ((a unit)) ((b unit)) (pure true))", "5 name"),
    ("(fun f ((a unit)) (bits 8) (read r))", ""),
    ("(fun f ((a unit)) (bits 8))", "3 declaration"),
    (
        "(fun f ((a unit)) (bits 8) (read r) (fail))",
        "3 declaration",
    ),
    ("(nope f ((a unit)) (bits 8) (read r))", "3 declaration"),
    ("(fun true ((a unit)) (bits 8) (read r))", "5 name"),
    ("(fun 1 ((a unit)) (bits 8) (read r))", "5 name"),
    ("(fun f ((a unit)) (bits x) (read r))", "12 number"),
    (
        "(contract f ((a unit)) (pre (star)) (res v) (post (star)))",
        "",
    ),
    (
        "(contract f ((a unit)) (pre (star)) (res v))",
        "3 declaration",
    ),
    (
        "(contract f ((a unit)) (pre (star)) (res v) (post (star)) (fail))",
        "3 declaration",
    ),
    (
        "(nope f ((a unit)) (pre (star)) (res v) (post (star)))",
        "3 declaration",
    ),
    (
        "(contract true ((a unit)) (pre (star)) (res v) (post (star)))",
        "5 name",
    ),
    (
        "(contract 1 ((a unit)) (pre (star)) (res v) (post (star)))",
        "5 name",
    ),
    (
        "(contract f ((a unit)) (post (star)) (res v) (pre (star)))",
        "10 part",
    ),
    (
        "(contract f names (pre (star)) (res v) (post (star)))",
        "6 part",
    ),
    (
        "(lemma l ((a unit)) ((b unit)) (pre (star)) (post (star)) (steps (fail)))",
        "",
    ),
    (
        "(lemma l ((a unit)) ((b unit)) (pre (star)) (post (star)))",
        "3 declaration",
    ),
    (
        "(lemma l ((a unit)) ((b unit)) (pre (star)) (post (star)) (steps (fail)) (fail))",
        "3 declaration",
    ),
    (
        "(nope l ((a unit)) ((b unit)) (pre (star)) (post (star)) (steps (fail)))",
        "3 declaration",
    ),
    (
        "(lemma true ((a unit)) ((b unit)) (pre (star)) (post (star)) (steps (fail)))",
        "5 name",
    ),
    (
        "(lemma 1 ((a unit)) ((b unit)) (pre (star)) (post (star)) (steps (fail)))",
        "5 name",
    ),
    ("(step f)", ""),
    ("(step)", "3 declaration"),
    ("(step f (fail))", "3 declaration"),
    ("(nope f)", "3 declaration"),
    ("(step true)", "5 name"),
    ("(step 1)", "5 name"),
    ("(dispatch)", "3 declaration"),
    ("(dispatch (when true inside) (else untrusted))", ""),
    ("(dispatch (when true inside))", "5 part"),
    (
        "(dispatch (when true inside) (else untrusted) (fail))",
        "9 part",
    ),
    (
        "(nope (when true inside) (else untrusted))",
        "3 declaration",
    ),
    ("(untrusted (star))", ""),
    ("(untrusted)", "3 declaration"),
    ("(untrusted (star) (fail))", "3 declaration"),
    ("(nope (star))", "3 declaration"),
    ("(block b (entry (star)) (within 3) (change true))", ""),
    ("(block b (entry (star)) (within 3))", "3 declaration"),
    (
        "(block b (entry (star)) (within 3) (change true) (fail))",
        "3 declaration",
    ),
    (
        "(nope b (entry (star)) (within 3) (change true))",
        "3 declaration",
    ),
    (
        "(block true (entry (star)) (within 3) (change true))",
        "5 name",
    ),
    (
        "(block 1 (entry (star)) (within 3) (change true))",
        "5 name",
    ),
    (
        "(block b (entry (star)) (within x) (change true))",
        "12 number",
    ),
    ("(boot b)", ""),
    ("(boot)", "3 declaration"),
    ("(boot b (fail))", "3 declaration"),
    ("(nope b)", "3 declaration"),
    ("(boot true)", "5 name"),
    ("(boot 1)", "5 name"),
];

#[test]
fn declarations_of_code(rt: HostRuntime) -> Result<(), Fail> {
    for (form, misfit) in CODE {
        let spec = format!(in rt.alloc(); "(spec 1 {form})")?;
        let agrees = form_agrees(rt.alloc(), spec.as_str(), misfit)?;
        assert!(rt; agrees, "at {form}");
    }
    Ok(())
}

const CONTROL: &[(&str, &str)] = &[
    ("(ret x)", ""),
    ("(ret)", "8 statement"),
    ("(ret x (fail))", "8 statement"),
    ("(nope x)", "8 statement"),
    ("(ret 1)", "10 expression"),
    ("ret", "8 statement"),
    ("(let x (fail) (fail))", ""),
    ("(let x (fail))", "8 statement"),
    ("(let x (fail) (fail) (fail))", "8 statement"),
    ("(nope x (fail) (fail))", "8 statement"),
    ("(let true (fail) (fail))", "10 name"),
    ("(let 1 (fail) (fail))", "10 name"),
    ("(seq (fail) (fail))", ""),
    ("(seq (fail))", ""),
    ("(seq (fail) (fail) (fail))", ""),
    ("(nope (fail) (fail))", "8 statement"),
    ("(if x (fail) (fail))", ""),
    ("(if x (fail))", "8 statement"),
    ("(if x (fail) (fail) (fail))", "8 statement"),
    ("(if 1 (fail) (fail))", "10 expression"),
    ("(case x (A (fail)))", ""),
    ("(case x)", ""),
    ("(case x (A (fail)) (fail))", "15 part"),
    ("(nope x (A (fail)))", "8 statement"),
    ("(case 1 (A (fail)))", "10 expression"),
    ("(match x (K y (fail)))", ""),
    ("(match x)", ""),
    ("(match x (K y (fail)) (fail))", "16 part"),
    ("(nope x (K y (fail)))", "8 statement"),
    ("(match 1 (K y (fail)))", "10 expression"),
    ("(read r)", ""),
    ("(read)", "8 statement"),
    ("(read r (fail))", "8 statement"),
    ("(nope r)", "8 statement"),
    ("(read true)", "10 name"),
    ("(read 1)", "10 name"),
];

#[test]
fn statements_of_control(rt: HostRuntime) -> Result<(), Fail> {
    for (form, misfit) in CONTROL {
        let spec = format!(in rt.alloc(); "(spec 1 (fun f () unit {form}))")?;
        let agrees = form_agrees(rt.alloc(), spec.as_str(), misfit)?;
        assert!(rt; agrees, "at {form}");
    }
    Ok(())
}

const EFFECTS: &[(&str, &str)] = &[
    ("(write r x)", ""),
    ("(write r)", "8 statement"),
    ("(write r x (fail))", "8 statement"),
    ("(nope r x)", "8 statement"),
    ("(write true x)", "10 name"),
    ("(write 1 x)", "10 name"),
    ("(load x)", ""),
    ("(load)", "8 statement"),
    ("(load x (fail))", "8 statement"),
    ("(load 1)", "10 expression"),
    ("(store x y)", ""),
    ("(store x)", "8 statement"),
    ("(store x y (fail))", "8 statement"),
    ("(nope x y)", "8 statement"),
    ("(store 1 y)", "10 expression"),
    ("(call f x)", ""),
    ("(call f)", ""),
    ("(call f x (fail))", "12 expression"),
    ("(nope f x)", "8 statement"),
    ("(call true x)", "10 name"),
    ("(call 1 x)", "10 name"),
    ("(check x)", ""),
    ("(check)", "8 statement"),
    ("(check x (fail))", "8 statement"),
    ("(check 1)", "10 expression"),
    ("(fail)", ""),
    ("()", "8 statement"),
    ("(fail (fail))", "8 statement"),
    ("(nope)", "8 statement"),
    ("(open P x)", ""),
    ("(open P)", ""),
    ("(open P x (fail))", "12 expression"),
    ("(nope P x)", "8 statement"),
    ("(open true x)", "10 name"),
    ("(open 1 x)", "10 name"),
    ("(close P x)", ""),
    ("(close P)", ""),
    ("(close P x (fail))", "12 expression"),
    ("(close true x)", "10 name"),
    ("(close 1 x)", "10 name"),
    ("(lemma l x)", ""),
    ("(lemma l)", ""),
    ("(lemma l x (fail))", "12 expression"),
    ("(nope l x)", "8 statement"),
    ("(lemma true x)", "10 name"),
    ("(lemma 1 x)", "10 name"),
];

#[test]
fn statements_with_effects(rt: HostRuntime) -> Result<(), Fail> {
    for (form, misfit) in EFFECTS {
        let spec = format!(in rt.alloc(); "(spec 1 (fun f () unit {form}))")?;
        let agrees = form_agrees(rt.alloc(), spec.as_str(), misfit)?;
        assert!(rt; agrees, "at {form}");
    }
    Ok(())
}

const VALUES: &[(&str, &str)] = &[
    ("x", ""),
    ("1", "10 expression"),
    ("unit", ""),
    ("true", ""),
    ("false", ""),
    ("(bits 8 255)", ""),
    ("(bits 8)", "10 expression"),
    ("(bits 8 255 z)", "10 expression"),
    ("(nope 8 255)", "10 expression"),
    ("(bits x 255)", "12 number"),
    ("(of E A)", ""),
    ("(of E)", "10 expression"),
    ("(of E A z)", "10 expression"),
    ("(nope E A)", "10 expression"),
    ("(of true A)", "12 name"),
    ("(of 1 A)", "12 name"),
    ("(make K x)", ""),
    ("(make K)", "10 expression"),
    ("(make K x z)", "10 expression"),
    ("(nope K x)", "10 expression"),
    ("(make true x)", "12 name"),
    ("(make 1 x)", "12 name"),
    ("(rec R x y)", ""),
    ("(rec R x)", ""),
    ("(rec R x y z)", ""),
    ("(nope R x y)", "10 expression"),
    ("(rec true x y)", "12 name"),
    ("(rec 1 x y)", "12 name"),
    ("(reg r)", ""),
    ("(reg)", "10 expression"),
    ("(reg r z)", "10 expression"),
    ("(nope r)", "10 expression"),
    ("(reg true)", "12 name"),
    ("(reg 1)", "12 name"),
    ("(kept r)", ""),
    ("(kept)", "10 expression"),
    ("(kept r z)", "10 expression"),
    ("(kept true)", "12 name"),
    ("(kept 1)", "12 name"),
    ("(kept_cell 1)", ""),
    ("(kept_cell)", "10 expression"),
    ("(kept_cell 1 z)", "10 expression"),
    ("(nope 1)", "10 expression"),
    ("(kept_cell x)", "12 number"),
    ("(before r)", ""),
    ("(before)", "10 expression"),
    ("(before r z)", "10 expression"),
    ("(before true)", "12 name"),
    ("(before 1)", "12 name"),
    ("(after r)", ""),
    ("(after)", "10 expression"),
    ("(after r z)", "10 expression"),
    ("(after true)", "12 name"),
    ("(after 1)", "12 name"),
    ("(before_cell 1)", ""),
    ("(before_cell)", "10 expression"),
    ("(before_cell 1 z)", "10 expression"),
    ("(before_cell x)", "12 number"),
    ("(after_cell 1)", ""),
    ("(after_cell)", "10 expression"),
    ("(after_cell 1 z)", "10 expression"),
    ("(after_cell x)", "12 number"),
];

#[test]
fn expressions_of_values(rt: HostRuntime) -> Result<(), Fail> {
    for (form, misfit) in VALUES {
        let spec = format!(in rt.alloc(); "(spec 1 (fun f () unit (ret {form})))")?;
        let agrees = form_agrees(rt.alloc(), spec.as_str(), misfit)?;
        assert!(rt; agrees, "at {form}");
    }
    Ok(())
}

const TRUTHS: &[(&str, &str)] = &[
    ("(not x)", ""),
    ("(not)", "10 expression"),
    ("(not x z)", "10 expression"),
    ("(nope x)", "10 expression"),
    ("(not 1)", "12 expression"),
    ("(and x y)", ""),
    ("(and x)", "10 expression"),
    ("(and x y z)", "10 expression"),
    ("(nope x y)", "10 expression"),
    ("(and 1 y)", "12 expression"),
    ("(or x y)", ""),
    ("(or x)", "10 expression"),
    ("(or x y z)", "10 expression"),
    ("(or 1 y)", "12 expression"),
    ("(eq x y)", ""),
    ("(eq x)", "10 expression"),
    ("(eq x y z)", "10 expression"),
    ("(eq 1 y)", "12 expression"),
    ("(ult x y)", ""),
    ("(ult x)", "10 expression"),
    ("(ult x y z)", "10 expression"),
    ("(ult 1 y)", "12 expression"),
    ("(ule x y)", ""),
    ("(ule x)", "10 expression"),
    ("(ule x y z)", "10 expression"),
    ("(ule 1 y)", "12 expression"),
    ("(slt x y)", ""),
    ("(slt x)", "10 expression"),
    ("(slt x y z)", "10 expression"),
    ("(slt 1 y)", "12 expression"),
    ("(sle x y)", ""),
    ("(sle x)", "10 expression"),
    ("(sle x y z)", "10 expression"),
    ("(sle 1 y)", "12 expression"),
];

#[test]
fn operations_on_truths(rt: HostRuntime) -> Result<(), Fail> {
    for (form, misfit) in TRUTHS {
        let spec = format!(in rt.alloc(); "(spec 1 (fun f () unit (ret {form})))")?;
        let agrees = form_agrees(rt.alloc(), spec.as_str(), misfit)?;
        assert!(rt; agrees, "at {form}");
    }
    Ok(())
}

const ARITHMETIC: &[(&str, &str)] = &[
    ("(add x y)", ""),
    ("(add x)", "10 expression"),
    ("(add x y z)", "10 expression"),
    ("(add 1 y)", "12 expression"),
    ("(sub x y)", ""),
    ("(sub x)", "10 expression"),
    ("(sub x y z)", "10 expression"),
    ("(sub 1 y)", "12 expression"),
    ("(mul x y)", ""),
    ("(mul x)", "10 expression"),
    ("(mul x y z)", "10 expression"),
    ("(mul 1 y)", "12 expression"),
    ("(band x y)", ""),
    ("(band x)", "10 expression"),
    ("(band x y z)", "10 expression"),
    ("(band 1 y)", "12 expression"),
    ("(bor x y)", ""),
    ("(bor x)", "10 expression"),
    ("(bor x y z)", "10 expression"),
    ("(bor 1 y)", "12 expression"),
    ("(bxor x y)", ""),
    ("(bxor x)", "10 expression"),
    ("(bxor x y z)", "10 expression"),
    ("(bxor 1 y)", "12 expression"),
    ("(bnot x)", ""),
    ("(bnot)", "10 expression"),
    ("(bnot x z)", "10 expression"),
    ("(bnot 1)", "12 expression"),
];

#[test]
fn arithmetic(rt: HostRuntime) -> Result<(), Fail> {
    for (form, misfit) in ARITHMETIC {
        let spec = format!(in rt.alloc(); "(spec 1 (fun f () unit (ret {form})))")?;
        let agrees = form_agrees(rt.alloc(), spec.as_str(), misfit)?;
        assert!(rt; agrees, "at {form}");
    }
    Ok(())
}

const WIDTHS: &[(&str, &str)] = &[
    ("(shl x y)", ""),
    ("(shl x)", "10 expression"),
    ("(shl x y z)", "10 expression"),
    ("(shl 1 y)", "12 expression"),
    ("(shr x y)", ""),
    ("(shr x)", "10 expression"),
    ("(shr x y z)", "10 expression"),
    ("(shr 1 y)", "12 expression"),
    ("(sar x y)", ""),
    ("(sar x)", "10 expression"),
    ("(sar x y z)", "10 expression"),
    ("(sar 1 y)", "12 expression"),
    ("(slice 7 0 x)", ""),
    ("(slice 7 0)", "10 expression"),
    ("(slice 7 0 x z)", "10 expression"),
    ("(nope 7 0 x)", "10 expression"),
    ("(slice 7 0 1)", "14 expression"),
    ("(slice x 0 x)", "12 number"),
    ("(cat x y)", ""),
    ("(cat x)", "10 expression"),
    ("(cat x y z)", "10 expression"),
    ("(cat 1 y)", "12 expression"),
    ("(zext 9 x)", ""),
    ("(zext 9)", "10 expression"),
    ("(zext 9 x z)", "10 expression"),
    ("(nope 9 x)", "10 expression"),
    ("(zext 9 1)", "13 expression"),
    ("(zext x x)", "12 number"),
    ("(sext 9 x)", ""),
    ("(sext 9)", "10 expression"),
    ("(sext 9 x z)", "10 expression"),
    ("(sext 9 1)", "13 expression"),
    ("(sext x x)", "12 number"),
    ("(ite x y z)", ""),
    ("(ite x y)", "10 expression"),
    ("(ite x y z z)", "10 expression"),
    ("(nope x y z)", "10 expression"),
    ("(ite 1 y z)", "12 expression"),
    ("(get R f x)", ""),
    ("(get R f)", "10 expression"),
    ("(get R f x z)", "10 expression"),
    ("(nope R f x)", "10 expression"),
    ("(get true f x)", "12 name"),
    ("(get 1 f x)", "12 name"),
];

#[test]
fn shifts_and_widths(rt: HostRuntime) -> Result<(), Fail> {
    for (form, misfit) in WIDTHS {
        let spec = format!(in rt.alloc(); "(spec 1 (fun f () unit (ret {form})))")?;
        let agrees = form_agrees(rt.alloc(), spec.as_str(), misfit)?;
        assert!(rt; agrees, "at {form}");
    }
    Ok(())
}

const ASSERTIONS: &[(&str, &str)] = &[
    ("(pure x)", ""),
    ("(pure)", "5 assertion"),
    ("(pure x (fail))", "5 assertion"),
    ("(nope x)", "5 assertion"),
    ("(pure 1)", "7 expression"),
    ("(reg r x)", ""),
    ("(reg r)", "5 assertion"),
    ("(reg r x (fail))", "5 assertion"),
    ("(nope r x)", "5 assertion"),
    ("(reg true x)", "7 name"),
    ("(reg 1 x)", "7 name"),
    ("(cell x y)", ""),
    ("(cell x)", "5 assertion"),
    ("(cell x y (fail))", "5 assertion"),
    ("(nope x y)", "5 assertion"),
    ("(cell 1 y)", "7 expression"),
    ("(star (star))", ""),
    ("(star)", ""),
    ("(star (star) (fail))", "9 assertion"),
    ("(nope (star))", "5 assertion"),
    ("(if x (star) (star))", ""),
    ("(if x (star))", "5 assertion"),
    ("(if x (star) (star) (fail))", "5 assertion"),
    ("(nope x (star) (star))", "5 assertion"),
    ("(if 1 (star) (star))", "7 expression"),
    ("(exists (x unit) (star))", ""),
    ("(exists (x unit))", "5 assertion"),
    ("(exists (x unit) (star) (fail))", "5 assertion"),
    ("(nope (x unit) (star))", "5 assertion"),
    ("(exists (true unit) (star))", "8 name"),
    ("(exists (1 unit) (star))", "8 name"),
    ("(exists (x) (star))", "7 part"),
    ("(exists x (star))", "7 part"),
    ("star", "5 assertion"),
    ("(pred P x)", ""),
    ("(pred P)", ""),
    ("(pred P x (fail))", "9 expression"),
    ("(nope P x)", "5 assertion"),
    ("(pred true x)", "7 name"),
    ("(pred 1 x)", "7 name"),
    ("(region G x)", ""),
    ("(region G)", ""),
    ("(region G x (fail))", "9 expression"),
    ("(nope G x)", "5 assertion"),
    ("(region true x)", "7 name"),
    ("(region 1 x)", "7 name"),
];

#[test]
fn assertions(rt: HostRuntime) -> Result<(), Fail> {
    for (form, misfit) in ASSERTIONS {
        let spec = format!(in rt.alloc(); "(spec 1 (untrusted {form}))")?;
        let agrees = form_agrees(rt.alloc(), spec.as_str(), misfit)?;
        assert!(rt; agrees, "at {form}");
    }
    Ok(())
}

const PHASES: &[(&str, &str)] = &[
    ("untrusted", ""),
    ("inside", ""),
    ("true", "7 phase"),
    ("1", "7 phase"),
    ("(block b)", ""),
    ("(block)", "7 phase"),
    ("(block b (fail))", "7 phase"),
    ("(nope b)", "7 phase"),
    ("(block true)", "9 name"),
    ("(block 1)", "9 name"),
];

#[test]
fn phases(rt: HostRuntime) -> Result<(), Fail> {
    for (form, misfit) in PHASES {
        let spec = format!(in rt.alloc(); "(spec 1 (dispatch (else {form})))")?;
        let agrees = form_agrees(rt.alloc(), spec.as_str(), misfit)?;
        assert!(rt; agrees, "at {form}");
    }
    Ok(())
}

const TYPES: &[(&str, &str)] = &[
    ("unit", ""),
    ("bool", ""),
    ("x", ""),
    ("true", "6 type"),
    ("1", "6 type"),
    ("(bits 8)", ""),
    ("(bits)", "6 type"),
    ("(bits 8 (fail))", "6 type"),
    ("(nope 8)", "6 type"),
    ("(bits x)", "8 number"),
];

#[test]
fn types(rt: HostRuntime) -> Result<(), Fail> {
    for (form, misfit) in TYPES {
        let spec = format!(in rt.alloc(); "(spec 1 (register r {form} plain))")?;
        let agrees = form_agrees(rt.alloc(), spec.as_str(), misfit)?;
        assert!(rt; agrees, "at {form}");
    }
    Ok(())
}

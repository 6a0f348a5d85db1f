//! The table of forms: the word with which each begins, and what its parts are read as. Each row
//! stands in `specs/Forms` too.

ghost use Rattle.std.specs.Prelude.{◌≡◌};
ghost use Rattle.std.specs.Option.{option_map};
ghost use Rattle.kat_shapes.specs.Forms.{declarations, statements, expressions, operations, assertions, parts_of, forms_of, form_in, form_of, form_of_op, row_of, words_of};
ghost use Rattle.kat_shapes.specs.Seen.{seen_form};

use crate::form::{Form, between, exactly, many};
use crate::sort::Sort::{
    self, Assertion, CaseArm, CellsPlace, Change, Declaration, Else, Entry, Expression, Fields,
    MatchArm, Members, Name, Number, Param, Params, Phase, Post, Pre, RegisterPlace, Res,
    Statement, Steps, TypeName, Version, When, Within, Word,
};
use kat_value::{Op, op_of_word};

/// The form of a list that is read as a sort, in a version of the text: by where it stands, or by
/// its first word.
pub(crate) fn form_of(version: u64, sort: Sort, first: Option<&str>) -> Option<Form>
    ensures { option_map seen_form result
        ≡ form_of version sort (option_map (λ word. word.now) first.entry) }
{
    match sort {
        Members => Some(many(&[Name], Name)),
        Params => Some(many(&[], Param)),
        Fields => Some(many(&[Param], Param)),
        Param => Some(exactly(&[Name, TypeName])),
        CaseArm => Some(exactly(&[Name, Statement])),
        MatchArm => Some(exactly(&[Name, Name, Statement])),
        _ => in_version(version, form_of_word(sort, first?)?),
    }
}

/// A form, in a version that has it.
fn in_version(version: u64, form: Form) -> Option<Form>
    ensures { option_map seen_form result ≡ form_in version (seen_form form) }
{
    if form.since <= version {
        Some(form)
    } else {
        None
    }
}

/// The form of a sort that a word begins.
fn form_of_word(sort: Sort, word: &str) -> Option<Form>
    ensures { option_map seen_form result ≡ row_of (forms_of sort) word.now }
{
    match sort {
        Declaration => declaration(word),
        Statement => statement(word),
        Expression => expression(word),
        Assertion => assertion(word),
        _ => part(sort, word),
    }
}

/// The declaration that a word begins.
fn declaration(word: &str) -> Option<Form>
    ensures { option_map seen_form result ≡ row_of declarations word.now }
{
    match word {
        "enum" => Some(exactly(&[Word, Name, Members])),
        "union" => Some(exactly(&[Word, Name, Fields])),
        "record" => Some(exactly(&[Word, Name, Fields])),
        "register" => Some(exactly(&[Word, Name, TypeName, RegisterPlace])),
        "memory" => Some(exactly(&[Word, Number, Number, Number, Number])),
        "cells" => Some(exactly(&[Word, CellsPlace, Number, Number])),
        "code" => Some(many(&[Word, Number, Number], Number)),
        "region" => Some(exactly(&[Word, Name, Params, Name, Expression])),
        "pred" => Some(exactly(&[Word, Name, Params, Params, Assertion])),
        "fun" => Some(exactly(&[Word, Name, Params, TypeName, Statement])),
        "contract" => Some(exactly(&[Word, Name, Params, Pre, Res, Post])),
        "lemma" => Some(exactly(&[Word, Name, Params, Params, Pre, Post, Steps])),
        "step" => Some(exactly(&[Word, Name])),
        "dispatch" => Some(between(&[Word], When, &[Else])),
        "untrusted" => Some(exactly(&[Word, Assertion])),
        "block" => Some(exactly(&[Word, Name, Entry, Within, Change])),
        "boot" => Some(exactly(&[Word, Name])),
        _ => None,
    }
}

/// The statement that a word begins.
fn statement(word: &str) -> Option<Form>
    ensures { option_map seen_form result ≡ row_of statements word.now }
{
    match word {
        "ret" => Some(exactly(&[Word, Expression])),
        "let" => Some(exactly(&[Word, Name, Statement, Statement])),
        "seq" => Some(many(&[Word, Statement], Statement)),
        "if" => Some(exactly(&[Word, Expression, Statement, Statement])),
        "case" => Some(many(&[Word, Expression], CaseArm)),
        "match" => Some(many(&[Word, Expression], MatchArm)),
        "read" => Some(exactly(&[Word, Name])),
        "write" => Some(exactly(&[Word, Name, Expression])),
        "load" => Some(exactly(&[Word, Expression])),
        "store" => Some(exactly(&[Word, Expression, Expression])),
        "call" => Some(many(&[Word, Name], Expression)),
        "check" => Some(exactly(&[Word, Expression])),
        "fail" => Some(exactly(&[Word])),
        "open" => Some(many(&[Word, Name], Expression)),
        "close" => Some(many(&[Word, Name], Expression)),
        "lemma" => Some(many(&[Word, Name], Expression)),
        _ => None,
    }
}

/// The expression that a word begins.
fn expression(word: &str) -> Option<Form>
    ensures { option_map seen_form result ≡ row_of expressions word.now }
{
    match word {
        "bits" => Some(exactly(&[Word, Number, Number])),
        "of" => Some(exactly(&[Word, Name, Name])),
        "make" => Some(exactly(&[Word, Name, Expression])),
        "rec" => Some(many(&[Word, Name], Expression)),
        "reg" => Some(exactly(&[Word, Name])),
        "kept" => Some(exactly(&[Word, Name])),
        "kept_cell" => Some(exactly(&[Word, Number])),
        "before" => Some(exactly(&[Word, Name])),
        "after" => Some(exactly(&[Word, Name])),
        "before_cell" => Some(exactly(&[Word, Number])),
        "after_cell" => Some(exactly(&[Word, Number])),
        "get" => Some(exactly(&[Word, Name, Name, Expression])),
        _ => operation(word),
    }
}

/// The operation that a word begins.
fn operation(word: &str) -> Option<Form>
    ensures { option_map seen_form result ≡ row_of operations word.now }
{
    Some(form_of_op(op_of_word(word)?))
}

/// What the parts of an operation are read as.
fn form_of_op(op: Op) -> Form
    ensures { seen_form result ≡ form_of_op op }
{
    match op {
        Op::Not | Op::Bnot | Op::Get { .. } => exactly(&[Word, Expression]),
        Op::Ite => exactly(&[Word, Expression, Expression, Expression]),
        Op::Slice { .. } => exactly(&[Word, Number, Number, Expression]),
        Op::Zext { .. } | Op::Sext { .. } => exactly(&[Word, Number, Expression]),
        _ => exactly(&[Word, Expression, Expression]),
    }
}

/// The assertion that a word begins.
fn assertion(word: &str) -> Option<Form>
    ensures { option_map seen_form result ≡ row_of assertions word.now }
{
    match word {
        "pure" => Some(exactly(&[Word, Expression])),
        "reg" => Some(exactly(&[Word, Name, Expression])),
        "cell" => Some(exactly(&[Word, Expression, Expression])),
        "star" => Some(many(&[Word], Assertion)),
        "if" => Some(exactly(&[Word, Expression, Assertion, Assertion])),
        "exists" => Some(exactly(&[Word, Param, Assertion])),
        "pred" => Some(many(&[Word, Name], Expression)),
        "region" => Some(many(&[Word, Name], Expression)),
        _ => None,
    }
}

/// A specification, or a list inside a form, that a word of its own begins.
fn part(sort: Sort, word: &str) -> Option<Form>
    ensures { option_map seen_form result ≡ row_of (parts_of sort) word.now }
{
    match (sort, word) {
        (Sort::Spec, "spec") => Some(many(&[Word, Version], Declaration)),
        (TypeName, "bits") => Some(exactly(&[Word, Number])),
        (Phase, "block") => Some(exactly(&[Word, Name])),
        (Pre, "pre") => Some(exactly(&[Word, Assertion])),
        (Res, "res") => Some(exactly(&[Word, Name])),
        (Post, "post") => Some(exactly(&[Word, Assertion])),
        (Steps, "steps") => Some(many(&[Word], Statement)),
        (When, "when") => Some(exactly(&[Word, Expression, Phase])),
        (Else, "else") => Some(exactly(&[Word, Phase])),
        (Entry, "entry") => Some(exactly(&[Word, Assertion])),
        (Within, "within") => Some(exactly(&[Word, Number])),
        (Change, "change") => Some(exactly(&[Word, Expression])),
        _ => None,
    }
}

/// The version from which on a word stands alone for a sort, if it does.
pub(crate) fn word_since(sort: Sort, word: &str) -> Option<u64>
    ensures { result ≡ row_of (words_of sort) word.now }
{
    match (sort, word) {
        (RegisterPlace, "plain") => Some(1),
        (RegisterPlace, "protected") => Some(1),
        (RegisterPlace, "outside") => Some(1),
        (CellsPlace, "protected") => Some(1),
        (CellsPlace, "outside") => Some(1),
        (Phase, "untrusted") => Some(1),
        (Phase, "inside") => Some(1),
        _ => None,
    }
}

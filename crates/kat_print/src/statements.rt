//! Statements.

ghost use Rattle.std.specs.Prelude.{◌≡◌, ◌++◌, [], ◌∷◌, map, codes, OnOk};
ghost use Rattle.kat_tree.specs.Written.{behind_spaces};
ghost use Rattle.kat_print.specs.Lists.{listed};
ghost use Rattle.kat_print.specs.Expressions.{text_of_expr};
ghost use Rattle.kat_print.specs.Statements.{text_of_stm, case_arm_texts, match_arm_texts};

use crate::expressions::{put_named, put_named_of, put_named_of_all, put_of, put_of_two, put_part};
use crate::parts::{put_head, put_name};
use kat_ast::{CaseArm, Expr, MatchArm, Stm};
use kat_text::{Text, TextBuilder};
use sqlite_items::Items;
use std::alloc::AllocError;

/// A statement.
#[cycle(stm)]
pub fn put_stm(out: &mut TextBuilder, stm: &Stm) -> Result<(), AllocError>
    ensures { OnOk result (out.new ≡ out.old ++ text_of_stm stm.now) }
{
    match stm {
        Stm::Ret(value) => put_of(out, "ret", value),
        Stm::Let { name, first, then } => put_let(out, name, first.get(), then.get()),
        Stm::Seq(parts) => put_seq(out, parts.as_slice()),
        Stm::If {
            test,
            then,
            otherwise,
        } => put_if(out, test, then.get(), otherwise.get()),
        Stm::Case { value, arms } => put_case(out, value, arms),
        Stm::Match { value, arms } => put_match(out, value, arms),
        Stm::Read(register) => put_named(out, "read", register),
        Stm::Write { register, value } => put_named_of(out, "write", register, value),
        Stm::Load(index) => put_of(out, "load", index),
        Stm::Store { index, value } => put_of_two(out, "store", index, value),
        Stm::Call { function, args } => put_named_of_all(out, "call", function, args.as_slice()),
        Stm::Check(test) => put_of(out, "check", test),
        Stm::Fail => out.push_text("(fail)"),
        Stm::Open { predicate, inputs } => {
            put_named_of_all(out, "open", predicate, inputs.as_slice())
        }
        Stm::Close { predicate, inputs } => {
            put_named_of_all(out, "close", predicate, inputs.as_slice())
        }
        Stm::Lemma { lemma, args } => put_named_of_all(out, "lemma", lemma, args.as_slice()),
    }
}

/// A statement behind a space.
#[cycle(stm)]
pub fn put_stm_part(out: &mut TextBuilder, stm: &Stm) -> Result<(), AllocError>
    ensures { OnOk result (out.new ≡ out.old ++ 32 ∷ text_of_stm stm.now) }
{
    out.push_space()?;
    put_stm(out, stm)
}

/// Statements, each behind a space.
#[cycle(stm)]
pub fn put_stms(out: &mut TextBuilder, stms: &[Stm]) -> Result<(), AllocError>
    ensures { OnOk result (out.new ≡ out.old ++ behind_spaces (map text_of_stm stms.now)) }
{
    for stm in stms {
        put_stm_part(out, stm)?;
    }
    Ok(())
}

#[cycle(stm)]
fn put_let(out: &mut TextBuilder, name: &Text, first: &Stm, then: &Stm) -> Result<(), AllocError>
    ensures { OnOk result (out.new ≡ out.old
        ++ listed (codes "let") (name.now ∷ text_of_stm first.now ∷ text_of_stm then.now ∷ [])) }
{
    out.push_head("let")?;
    put_name(out, name)?;
    put_stm_part(out, first)?;
    put_stm_part(out, then)?;
    out.push_close()
}

#[cycle(stm)]
fn put_seq(out: &mut TextBuilder, parts: &[Stm]) -> Result<(), AllocError>
    ensures { OnOk result (out.new ≡ out.old ++ listed (codes "seq") (map text_of_stm parts.now)) }
{
    out.push_head("seq")?;
    put_stms(out, parts)?;
    out.push_close()
}

#[cycle(stm)]
fn put_if(out: &mut TextBuilder, test: &Expr, then: &Stm, otherwise: &Stm) -> Result<(), AllocError>
    ensures { OnOk result (out.new ≡ out.old
        ++ listed (codes "if")
        (text_of_expr test.now ∷ text_of_stm then.now ∷ text_of_stm otherwise.now ∷ [])) }
{
    out.push_head("if")?;
    put_part(out, test)?;
    put_stm_part(out, then)?;
    put_stm_part(out, otherwise)?;
    out.push_close()
}

#[cycle(stm)]
fn put_case(
    out: &mut TextBuilder,
    value: &Expr,
    arms: &Items<CaseArm<Stm>>,
) -> Result<(), AllocError>
    ensures { OnOk result (out.new ≡ out.old
        ++ listed (codes "case") (text_of_expr value.now ∷ case_arm_texts arms.now)) }
{
    out.push_head("case")?;
    put_part(out, value)?;
    for arm in arms.as_slice() {
        put_head(out, arm.member.as_str())?;
        put_stm_part(out, &arm.body)?;
        out.push_close()?;
    }
    out.push_close()
}

#[cycle(stm)]
fn put_match(
    out: &mut TextBuilder,
    value: &Expr,
    arms: &Items<MatchArm<Stm>>,
) -> Result<(), AllocError>
    ensures { OnOk result (out.new ≡ out.old
        ++ listed (codes "match") (text_of_expr value.now ∷ match_arm_texts arms.now)) }
{
    out.push_head("match")?;
    put_part(out, value)?;
    for arm in arms.as_slice() {
        put_head(out, arm.ctor.as_str())?;
        put_name(out, &arm.payload)?;
        put_stm_part(out, &arm.body)?;
        out.push_close()?;
    }
    out.push_close()
}

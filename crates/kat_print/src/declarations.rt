//! Declarations.

ghost use Rattle.std.specs.Prelude.{◌≡◌, ◌++◌, [], ◌∷◌, map, codes, true, OnOk};
ghost use Rattle.std.specs.Fmt.{decimal};
ghost use Rattle.kat_tree.specs.Written.{behind_spaces};
ghost use Rattle.kat_ast.specs.declared.decl.DeclForm.TheVariants as form;
ghost use Rattle.kat_ast.specs.Declarations.{word_of_register_kind, word_of_cells_kind};
ghost use Rattle.kat_print.specs.Lists.{listed};
ghost use Rattle.kat_print.specs.Types.{text_of_params};
ghost use Rattle.kat_print.specs.Expressions.{text_of_expr};
ghost use Rattle.kat_print.specs.Statements.{text_of_stm};
ghost use Rattle.kat_print.specs.Declarations.{text_of_phase, text_of_when, text_holding, text_of_decl, is_region, is_contract, is_lemma};

use crate::assertions::{put_assertion_part, put_holding, put_holding_part};
use crate::expressions::{put_named, put_of, put_part};
use crate::parts::{put_head, put_name};
use crate::statements::{put_stm_part, put_stms};
use crate::types::{put_names, put_params_part, put_type_part};
use kat_ast::{
    Assertion, Block, CellsKind, DeclForm, Param, Phase, RegisterKind, Stm, TypeName, When,
};
use kat_text::{Text, TextBuilder};
use sqlite_items::Items;
use std::alloc::AllocError;

/// A declaration.
pub fn put_decl(out: &mut TextBuilder, decl: &DeclForm) -> Result<(), AllocError>
    ensures { OnOk result (out.new ≡ out.old ++ text_of_decl decl.now) }
{
    match decl {
        DeclForm::Enum { name, members } => put_enum(out, name, members),
        DeclForm::Union { name, ctors } => put_with_params(out, "union", name, ctors),
        DeclForm::Record { name, fields } => put_with_params(out, "record", name, fields),
        DeclForm::Register { name, ty, kind } => put_register(out, name, ty, *kind),
        DeclForm::Memory {
            index_width,
            cell_width,
            lo,
            hi,
        } => put_memory(out, *index_width, *cell_width, *lo, *hi),
        DeclForm::Cells { kind, lo, hi } => put_cells(out, *kind, *lo, *hi),
        DeclForm::Code { lo, values } => put_code(out, *lo, values),
        DeclForm::Region { .. } => put_region(out, decl),
        DeclForm::Predicate {
            name,
            inputs,
            outputs,
            definition,
        } => put_predicate(out, name, inputs, outputs, definition),
        DeclForm::Fun {
            name,
            params,
            result,
            body,
        } => put_fun(out, name, params, result, body),
        DeclForm::Contract { .. } => put_contract(out, decl),
        DeclForm::Lemma { .. } => put_lemma(out, decl),
        DeclForm::Step(function) => put_named(out, "step", function),
        DeclForm::Dispatch { cases, otherwise } => put_dispatch(out, cases, otherwise),
        DeclForm::Untrusted(holds) => put_holding(out, "untrusted", holds),
        DeclForm::Block(block) => put_block(out, block),
        DeclForm::Boot(block) => put_named(out, "boot", block),
    }
}

fn put_enum(out: &mut TextBuilder, name: &Text, members: &Items<Text>) -> Result<(), AllocError>
    ensures { OnOk result (out.new ≡ out.old ++ text_of_decl (form.Enum name.now members.now)) }
{
    put_start(out, "enum", name)?;
    out.push_space()?;
    put_names(out, members.as_slice())?;
    out.push_close()
}

/// A declaration that is a name with parameters: a union with its constructors, a record with its
/// fields.
fn put_with_params(
    out: &mut TextBuilder,
    head: &str,
    name: &Text,
    params: &Items<Param>,
) -> Result<(), AllocError>
    ensures { OnOk result (out.new ≡ out.old
        ++ listed head.now (name.now ∷ text_of_params params.now ∷ [])) }
{
    put_start_of(out, head, name, params)?;
    out.push_close()
}

fn put_register(
    out: &mut TextBuilder,
    name: &Text,
    ty: &TypeName,
    kind: RegisterKind,
) -> Result<(), AllocError>
    ensures { OnOk result (out.new ≡ out.old ++ text_of_decl (form.Register name.now ty.now kind)) }
{
    put_start(out, "register", name)?;
    put_type_part(out, ty)?;
    out.push_part(word_of_place(kind))?;
    out.push_close()
}

fn put_memory(
    out: &mut TextBuilder,
    index_width: u64,
    cell_width: u64,
    lo: u64,
    hi: u64,
) -> Result<(), AllocError>
    ensures { OnOk result (out.new ≡ out.old
        ++ text_of_decl (form.Memory index_width cell_width lo hi)) }
{
    out.push_head("memory")?;
    out.push_decimal_part(index_width)?;
    out.push_decimal_part(cell_width)?;
    out.push_decimal_part(lo)?;
    out.push_decimal_part(hi)?;
    out.push_close()
}

fn put_cells(out: &mut TextBuilder, kind: CellsKind, lo: u64, hi: u64) -> Result<(), AllocError>
    ensures { OnOk result (out.new ≡ out.old ++ text_of_decl (form.Cells kind lo hi)) }
{
    out.push_head("cells")?;
    out.push_part(word_of_cells(kind))?;
    out.push_decimal_part(lo)?;
    out.push_decimal_part(hi)?;
    out.push_close()
}

fn put_code(out: &mut TextBuilder, lo: u64, values: &Items<u64>) -> Result<(), AllocError>
    ensures { OnOk result (out.new ≡ out.old ++ text_of_decl (form.Code lo values.now)) }
{
    out.push_head("code")?;
    out.push_decimal_part(lo)?;
    put_numbers(out, values.as_slice())?;
    out.push_close()
}

fn put_region(out: &mut TextBuilder, decl: &DeclForm) -> Result<(), AllocError>
    requires { is_region decl.now ≡ true }
    ensures { OnOk result (out.new ≡ out.old ++ text_of_decl decl.now) }
{
    let DeclForm::Region {
        name,
        params,
        index,
        guard,
    } = decl
    else {
        unreachable!();
    };
    put_start_of(out, "region", name, params)?;
    put_name(out, index)?;
    put_part(out, guard)?;
    out.push_close()
}

fn put_predicate(
    out: &mut TextBuilder,
    name: &Text,
    inputs: &Items<Param>,
    outputs: &Items<Param>,
    definition: &Assertion,
) -> Result<(), AllocError>
    ensures { OnOk result (out.new ≡ out.old
        ++ text_of_decl (form.Predicate name.now inputs.now outputs.now definition.now)) }
{
    put_start_of(out, "pred", name, inputs)?;
    put_params_part(out, outputs.as_slice())?;
    put_assertion_part(out, definition)?;
    out.push_close()
}

fn put_fun(
    out: &mut TextBuilder,
    name: &Text,
    params: &Items<Param>,
    result_type: &TypeName,
    body: &Stm,
) -> Result<(), AllocError>
    ensures { OnOk result (out.new ≡ out.old
        ++ text_of_decl (form.Fun name.now params.now result_type.now body.now)) }
{
    put_start_of(out, "fun", name, params)?;
    put_type_part(out, result_type)?;
    put_stm_part(out, body)?;
    out.push_close()
}

fn put_contract(out: &mut TextBuilder, decl: &DeclForm) -> Result<(), AllocError>
    requires { is_contract decl.now ≡ true }
    ensures { OnOk result (out.new ≡ out.old ++ text_of_decl decl.now) }
{
    let DeclForm::Contract {
        function,
        names,
        pre,
        result: result_name,
        post,
    } = decl
    else {
        unreachable!();
    };
    put_start_of(out, "contract", function, names)?;
    put_holding_part(out, "pre", pre)?;
    out.push_space()?;
    put_named(out, "res", result_name)?;
    put_holding_part(out, "post", post)?;
    out.push_close()
}

fn put_lemma(out: &mut TextBuilder, decl: &DeclForm) -> Result<(), AllocError>
    requires { is_lemma decl.now ≡ true }
    ensures { OnOk result (out.new ≡ out.old ++ text_of_decl decl.now) }
{
    let DeclForm::Lemma {
        name,
        params,
        names,
        pre,
        post,
        steps,
    } = decl
    else {
        unreachable!();
    };
    put_start_of(out, "lemma", name, params)?;
    put_params_part(out, names.as_slice())?;
    put_promise(out, pre, post)?;
    put_steps(out, steps.as_slice())?;
    out.push_close()
}

/// What a lemma needs and what it gives, each behind a space.
fn put_promise(out: &mut TextBuilder, pre: &Assertion, post: &Assertion) -> Result<(), AllocError>
    ensures { OnOk result (out.new ≡ out.old
        ++ behind_spaces (text_holding (codes "pre") pre.now
        ∷ text_holding (codes "post") post.now ∷ [])) }
{
    put_holding_part(out, "pre", pre)?;
    put_holding_part(out, "post", post)
}

/// The steps of a lemma, behind a space.
fn put_steps(out: &mut TextBuilder, steps: &[Stm]) -> Result<(), AllocError>
    ensures { OnOk result (out.new ≡ out.old
        ++ 32 ∷ listed (codes "steps") (map text_of_stm steps.now)) }
{
    put_head(out, "steps")?;
    put_stms(out, steps)?;
    out.push_close()
}

fn put_dispatch(
    out: &mut TextBuilder,
    cases: &Items<When>,
    otherwise: &Phase,
) -> Result<(), AllocError>
    ensures { OnOk result (out.new ≡ out.old
        ++ text_of_decl (form.Dispatch cases.now otherwise.now)) }
{
    out.push_head("dispatch")?;
    put_cases(out, cases.as_slice(), otherwise)?;
    out.push_close()
}

/// All cases of the dispatch, each behind a space.
fn put_cases(out: &mut TextBuilder, cases: &[When], otherwise: &Phase) -> Result<(), AllocError>
    ensures { OnOk result (out.new ≡ out.old
        ++ behind_spaces (map text_of_when cases.now
        ++ listed (codes "else") (text_of_phase otherwise.now ∷ []) ∷ [])) }
{
    put_whens(out, cases)?;
    put_else(out, otherwise)
}

/// Cases of the dispatch, each behind a space.
fn put_whens(out: &mut TextBuilder, cases: &[When]) -> Result<(), AllocError>
    ensures { OnOk result (out.new ≡ out.old ++ behind_spaces (map text_of_when cases.now)) }
{
    for case in cases {
        put_when(out, case)?;
    }
    Ok(())
}

/// A case of the dispatch, behind a space.
fn put_when(out: &mut TextBuilder, when: &When) -> Result<(), AllocError>
    ensures { OnOk result (out.new ≡ out.old ++ 32 ∷ text_of_when when.now) }
{
    put_head(out, "when")?;
    put_part(out, &when.test)?;
    out.push_space()?;
    put_phase(out, &when.phase)?;
    out.push_close()
}

/// The last case of the dispatch, behind a space.
fn put_else(out: &mut TextBuilder, otherwise: &Phase) -> Result<(), AllocError>
    ensures { OnOk result (out.new ≡ out.old
        ++ 32 ∷ listed (codes "else") (text_of_phase otherwise.now ∷ [])) }
{
    put_head(out, "else")?;
    out.push_space()?;
    put_phase(out, otherwise)?;
    out.push_close()
}

/// A phase.
fn put_phase(out: &mut TextBuilder, phase: &Phase) -> Result<(), AllocError>
    ensures { OnOk result (out.new ≡ out.old ++ text_of_phase phase.now) }
{
    match phase {
        Phase::Untrusted => out.push_text("untrusted"),
        Phase::Inside => out.push_text("inside"),
        Phase::Block(name) => put_named(out, "block", name),
    }
}

fn put_block(out: &mut TextBuilder, block: &Block) -> Result<(), AllocError>
    ensures { OnOk result (out.new ≡ out.old ++ text_of_decl (form.Block block.now)) }
{
    put_start(out, "block", &block.name)?;
    put_holding_part(out, "entry", &block.entry)?;
    put_end_of_block(out, block)?;
    out.push_close()
}

/// The bound and the change of a block, each behind a space.
fn put_end_of_block(out: &mut TextBuilder, block: &Block) -> Result<(), AllocError>
    ensures { OnOk result (out.new ≡ out.old
        ++ behind_spaces (listed (codes "within") (decimal block.now.within ∷ [])
        ∷ listed (codes "change") (text_of_expr block.now.change ∷ []) ∷ [])) }
{
    put_head(out, "within")?;
    out.push_decimal_part(block.within)?;
    out.push_close()?;
    out.push_space()?;
    put_of(out, "change", &block.change)
}

/// The start of a declaration, with its name.
fn put_start(out: &mut TextBuilder, head: &str, name: &Text) -> Result<(), AllocError>
    ensures { OnOk result (out.new ≡ out.old ++ 40 ∷ (head.now ++ 32 ∷ name.now)) }
{
    out.push_head(head)?;
    put_name(out, name)
}

/// The start of a declaration, with its name and parameters.
fn put_start_of(
    out: &mut TextBuilder,
    head: &str,
    name: &Text,
    params: &Items<Param>,
) -> Result<(), AllocError>
    ensures { OnOk result (out.new ≡ out.old
        ++ 40 ∷ (head.now ++ 32 ∷ (name.now ++ 32 ∷ text_of_params params.now))) }
{
    put_start(out, head, name)?;
    put_params_part(out, params.as_slice())
}

/// Numbers, each behind a space.
fn put_numbers(out: &mut TextBuilder, numbers: &[u64]) -> Result<(), AllocError>
    ensures { OnOk result (out.new ≡ out.old ++ behind_spaces (map decimal numbers.now)) }
{
    for number in numbers {
        out.push_decimal_part(*number)?;
    }
    Ok(())
}

fn word_of_place(kind: RegisterKind) -> &'static str
    ensures { result.now ≡ word_of_register_kind kind }
{
    match kind {
        RegisterKind::Plain => "plain",
        RegisterKind::Protected => "protected",
        RegisterKind::Outside => "outside",
    }
}

fn word_of_cells(kind: CellsKind) -> &'static str
    ensures { result.now ≡ word_of_cells_kind kind }
{
    match kind {
        CellsKind::Protected => "protected",
        CellsKind::Outside => "outside",
    }
}

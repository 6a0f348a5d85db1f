//! Declarations.

ghost use Rattle.std.specs.Prelude.{◌≡◌, ◌-◌, ◌++◌, [], ◌∷◌, IfOk, Ok, length, replicate, codes};
ghost use Rattle.std.specs.List.{AllByRecursion};
ghost use Rattle.kat_ast.specs.Parts.{word, form};
ghost use Rattle.kat_ast.specs.Declarations.{word_of_register_kind, word_of_cells_kind};
ghost use Rattle.kat_grammar.specs.Parts.{FitsSort, HasParts};
ghost use Rattle.kat_grammar.specs.Forms.{IsHolding, IsPhase, IsWhen, IsDeclForm, AreWhens, AreSteps};

use kat_ast::{Assertion, Block, CellsKind, DeclForm, Phase, RegisterKind, Stm, When};
use kat_exprs::{
    expr_in, fields_in, members_in, name_in, number_in, numbers_in, only_name, params_in, part_of,
    parts_of, split, type_in,
};
use kat_grammar::{form_laws, small_lists};
use kat_shapes::Sort;
use kat_stms::{assertion_in, stm_in, stms_in};
use kat_tree::{Token, Tree};
use sqlite_items::Items;
use std::alloc::{AllocError, Global};

/// The declaration that a tree is.
pub(crate) fn decl_in(alloc: Global, tree: &Tree) -> Result<DeclForm, AllocError>
    requires { FitsSort Sort.Declaration tree.now }
    ensures { IfOk result (λ d. IsDeclForm tree.now d) }
{
    form_laws();
    let Tree::List(parts) = tree else {
        unreachable!();
    };
    let (word, parts) = split(parts.as_slice());
    match word {
        "enum" => enum_in(alloc, parts),
        "union" => union_in(alloc, parts),
        "record" => record_in(alloc, parts),
        "register" => register_in(parts),
        "memory" => Ok(memory_in(parts)),
        "cells" => Ok(cells_in(parts)),
        "code" => code_in(alloc, parts),
        "region" => region_in(alloc, parts),
        "pred" => predicate_in(alloc, parts),
        "fun" => fun_in(alloc, parts),
        "contract" => contract_in(alloc, parts),
        "lemma" => lemma_in(alloc, parts),
        "step" => step_in(parts),
        "dispatch" => dispatch_in(alloc, parts),
        "untrusted" => untrusted_in(alloc, parts),
        "block" => block_in(alloc, parts),
        "boot" => boot_in(parts),
        _ => unreachable!(),
    }
}

/// `(enum x (A ..))`
fn enum_in(alloc: Global, parts: &[Tree]) -> Result<DeclForm, AllocError>
    requires { HasParts (Sort.Name ∷ Sort.Members ∷ []) parts.now }
    ensures { IfOk result (λ d. IsDeclForm (form (codes "enum") parts.now) d) }
{
    let [name, members] = parts else {
        unreachable!();
    };
    Ok(DeclForm::Enum {
        name: name_in(name)?,
        members: members_in(alloc, members)?,
    })
}

/// `(union x ((K T) ..))`
fn union_in(alloc: Global, parts: &[Tree]) -> Result<DeclForm, AllocError>
    requires { HasParts (Sort.Name ∷ Sort.Fields ∷ []) parts.now }
    ensures { IfOk result (λ d. IsDeclForm (form (codes "union") parts.now) d) }
{
    let [name, ctors] = parts else {
        unreachable!();
    };
    Ok(DeclForm::Union {
        name: name_in(name)?,
        ctors: fields_in(alloc, ctors)?,
    })
}

/// `(record x ((f T) ..))`
fn record_in(alloc: Global, parts: &[Tree]) -> Result<DeclForm, AllocError>
    requires { HasParts (Sort.Name ∷ Sort.Fields ∷ []) parts.now }
    ensures { IfOk result (λ d. IsDeclForm (form (codes "record") parts.now) d) }
{
    let [name, fields] = parts else {
        unreachable!();
    };
    Ok(DeclForm::Record {
        name: name_in(name)?,
        fields: fields_in(alloc, fields)?,
    })
}

/// `(register x T place)`
fn register_in(parts: &[Tree]) -> Result<DeclForm, AllocError>
    requires { HasParts (Sort.Name ∷ Sort.TypeName ∷ Sort.RegisterPlace ∷ []) parts.now }
    ensures { IfOk result (λ d. IsDeclForm (form (codes "register") parts.now) d) }
{
    let [name, ty, kind] = parts else {
        unreachable!();
    };
    Ok(DeclForm::Register {
        name: name_in(name)?,
        ty: type_in(ty)?,
        kind: register_kind_in(kind),
    })
}

/// `(memory a c lo hi)`
fn memory_in(parts: &[Tree]) -> DeclForm
    requires { HasParts (Sort.Number ∷ Sort.Number ∷ Sort.Number ∷ Sort.Number ∷ []) parts.now }
    ensures { IsDeclForm (form (codes "memory") parts.now) result }
{
    let [index_width, cell_width, lo, hi] = parts else {
        unreachable!();
    };
    DeclForm::Memory {
        index_width: number_in(index_width),
        cell_width: number_in(cell_width),
        lo: number_in(lo),
        hi: number_in(hi),
    }
}

/// `(cells kind lo hi)`
fn cells_in(parts: &[Tree]) -> DeclForm
    requires { HasParts (Sort.CellsPlace ∷ Sort.Number ∷ Sort.Number ∷ []) parts.now }
    ensures { IsDeclForm (form (codes "cells") parts.now) result }
{
    let [kind, lo, hi] = parts else {
        unreachable!();
    };
    DeclForm::Cells {
        kind: cells_kind_in(kind),
        lo: number_in(lo),
        hi: number_in(hi),
    }
}

/// `(code lo n ..)`
fn code_in(alloc: Global, parts: &[Tree]) -> Result<DeclForm, AllocError>
    requires { HasParts
        (Sort.Number ∷ Sort.Number ∷ replicate (length parts.now - 2) Sort.Number) parts.now }
    ensures { IfOk result (λ d. IsDeclForm (form (codes "code") parts.now) d) }
{
    form_laws();
    let [lo, values @ ..] = parts else {
        unreachable!();
    };
    Ok(DeclForm::Code {
        lo: number_in(lo),
        values: numbers_in(alloc, values)?,
    })
}

/// `(region x params i E)`
fn region_in(alloc: Global, parts: &[Tree]) -> Result<DeclForm, AllocError>
    requires { HasParts (Sort.Name ∷ Sort.Params ∷ Sort.Name ∷ Sort.Expression ∷ []) parts.now }
    ensures { IfOk result (λ d. IsDeclForm (form (codes "region") parts.now) d) }
{
    form_laws();
    let [name, params, index, guard] = parts else {
        unreachable!();
    };
    Ok(DeclForm::Region {
        name: name_in(name)?,
        params: params_in(alloc, params)?,
        index: name_in(index)?,
        guard: expr_in(alloc, guard)?,
    })
}

/// `(pred x params params A)`
fn predicate_in(alloc: Global, parts: &[Tree]) -> Result<DeclForm, AllocError>
    requires { HasParts (Sort.Name ∷ Sort.Params ∷ Sort.Params ∷ Sort.Assertion ∷ []) parts.now }
    ensures { IfOk result (λ d. IsDeclForm (form (codes "pred") parts.now) d) }
{
    form_laws();
    let [name, inputs, outputs, definition] = parts else {
        unreachable!();
    };
    Ok(DeclForm::Predicate {
        name: name_in(name)?,
        inputs: params_in(alloc, inputs)?,
        outputs: params_in(alloc, outputs)?,
        definition: assertion_in(alloc, definition)?,
    })
}

/// `(fun x params T S)`
fn fun_in(alloc: Global, parts: &[Tree]) -> Result<DeclForm, AllocError>
    requires { HasParts (Sort.Name ∷ Sort.Params ∷ Sort.TypeName ∷ Sort.Statement ∷ []) parts.now }
    ensures { IfOk result (λ d. IsDeclForm (form (codes "fun") parts.now) d) }
{
    form_laws();
    let [name, params, returned, body] = parts else {
        unreachable!();
    };
    Ok(DeclForm::Fun {
        name: name_in(name)?,
        params: params_in(alloc, params)?,
        result: type_in(returned)?,
        body: stm_in(alloc, body)?,
    })
}

/// `(contract f params (pre A) (res x) (post A))`
fn contract_in(alloc: Global, parts: &[Tree]) -> Result<DeclForm, AllocError>
    requires { HasParts (Sort.Name ∷ Sort.Params ∷ Sort.Pre ∷ Sort.Res ∷ Sort.Post ∷ []) parts.now }
    ensures { IfOk result (λ d. IsDeclForm (form (codes "contract") parts.now) d) }
{
    form_laws();
    small_lists();
    let [function, names, pre, res, post] = parts else {
        unreachable!();
    };
    let (pre, post) = conditions_in(alloc, pre, post)?;
    Ok(DeclForm::Contract {
        function: name_in(function)?,
        names: params_in(alloc, names)?,
        pre,
        result: name_in(part_of(res))?,
        post,
    })
}

/// `(lemma x params params (pre A) (post A) (steps S ..))`
fn lemma_in(alloc: Global, parts: &[Tree]) -> Result<DeclForm, AllocError>
    requires { HasParts
        (Sort.Name ∷ Sort.Params ∷ Sort.Params ∷ Sort.Pre ∷ Sort.Post ∷ Sort.Steps ∷ []) parts.now }
    ensures { IfOk result (λ d. IsDeclForm (form (codes "lemma") parts.now) d) }
{
    let [name, params, names, pre, post, steps] = parts else {
        unreachable!();
    };
    let (pre, post) = conditions_in(alloc, pre, post)?;
    Ok(DeclForm::Lemma {
        name: name_in(name)?,
        params: params_in(alloc, params)?,
        names: params_in(alloc, names)?,
        pre,
        post,
        steps: steps_in(alloc, steps)?,
    })
}

/// `(step x)`
fn step_in(parts: &[Tree]) -> Result<DeclForm, AllocError>
    requires { HasParts (Sort.Name ∷ []) parts.now }
    ensures { IfOk result (λ d. IsDeclForm (form (codes "step") parts.now) d) }
{
    Ok(DeclForm::Step(only_name(parts)?))
}

/// `(dispatch (when E phase) .. (else phase))`
fn dispatch_in(alloc: Global, parts: &[Tree]) -> Result<DeclForm, AllocError>
    requires { HasParts (replicate (length parts.now - 1) Sort.When ++ Sort.Else ∷ []) parts.now }
    ensures { IfOk result (λ d. IsDeclForm (form (codes "dispatch") parts.now) d) }
{
    form_laws();
    small_lists();
    let [cases @ .., otherwise] = parts else {
        unreachable!();
    };
    Ok(DeclForm::Dispatch {
        cases: whens_in(alloc, cases)?,
        otherwise: phase_in(part_of(otherwise))?,
    })
}

/// `(untrusted A)`
fn untrusted_in(alloc: Global, parts: &[Tree]) -> Result<DeclForm, AllocError>
    requires { HasParts (Sort.Assertion ∷ []) parts.now }
    ensures { IfOk result (λ d. IsDeclForm (form (codes "untrusted") parts.now) d) }
{
    let [holds] = parts else {
        unreachable!();
    };
    Ok(DeclForm::Untrusted(assertion_in(alloc, holds)?))
}

/// `(block x (entry A) (within n) (change E))`
fn block_in(alloc: Global, parts: &[Tree]) -> Result<DeclForm, AllocError>
    requires { HasParts (Sort.Name ∷ Sort.Entry ∷ Sort.Within ∷ Sort.Change ∷ []) parts.now }
    ensures { IfOk result (λ d. IsDeclForm (form (codes "block") parts.now) d) }
{
    form_laws();
    small_lists();
    let [name, entry, within, change] = parts else {
        unreachable!();
    };
    let name = name_in(name)?;
    let within = number_in(part_of(within));
    let entry = assertion_in(alloc, part_of(entry))?;
    let (entry, change) = paired(entry, expr_in(alloc, part_of(change)))?;
    Ok(DeclForm::Block(Block {
        name,
        entry,
        within,
        change,
    }))
}

/// `(boot x)`
fn boot_in(parts: &[Tree]) -> Result<DeclForm, AllocError>
    requires { HasParts (Sort.Name ∷ []) parts.now }
    ensures { IfOk result (λ d. IsDeclForm (form (codes "boot") parts.now) d) }
{
    Ok(DeclForm::Boot(only_name(parts)?))
}

/// `(pre A)` and `(post A)`
fn conditions_in(
    alloc: Global,
    pre: &Tree,
    post: &Tree,
) -> Result<(Assertion, Assertion), AllocError>
    requires pre { FitsSort Sort.Pre pre.now }
    requires post { FitsSort Sort.Post post.now }
    ensures { IfOk result (λ r.
        IsHolding (codes "pre") pre.now r.0 × IsHolding (codes "post") post.now r.1) }
{
    form_laws();
    small_lists();
    let pre = assertion_in(alloc, part_of(pre))?;
    paired(pre, assertion_in(alloc, part_of(post)))
}

/// A thing, and what was read behind it. Where that failed the thing is given up.
fn paired<A: Drop, B>(first: A, second: Result<B, AllocError>) -> Result<(A, B), AllocError>
    ensures { IfOk result (λ r. (r.0 ≡ first) × (second ≡ Ok r.1)) }
{
    match second {
        Ok(second) => Ok((first, second)),
        Err(error) => Err(error),
    }
}

/// The place of a register.
fn register_kind_in(tree: &Tree) -> RegisterKind
    requires { FitsSort Sort.RegisterPlace tree.now }
    ensures { word (word_of_register_kind result) ≡ tree.now }
{
    let Tree::Atom(Token::Name(name)) = tree else {
        unreachable!();
    };
    match name.as_str() {
        "plain" => RegisterKind::Plain,
        "protected" => RegisterKind::Protected,
        _ => RegisterKind::Outside,
    }
}

/// The place of cells.
fn cells_kind_in(tree: &Tree) -> CellsKind
    requires { FitsSort Sort.CellsPlace tree.now }
    ensures { word (word_of_cells_kind result) ≡ tree.now }
{
    let Tree::Atom(Token::Name(name)) = tree else {
        unreachable!();
    };
    match name.as_str() {
        "protected" => CellsKind::Protected,
        _ => CellsKind::Outside,
    }
}

/// A phase.
fn phase_in(tree: &Tree) -> Result<Phase, AllocError>
    requires { FitsSort Sort.Phase tree.now }
    ensures { IfOk result (λ p. IsPhase tree.now p) }
{
    form_laws();
    small_lists();
    match tree {
        Tree::Atom(Token::Name(name)) => match name.as_str() {
            "untrusted" => Ok(Phase::Untrusted),
            _ => Ok(Phase::Inside),
        },
        Tree::List(_) => Ok(Phase::Block(name_in(part_of(tree))?)),
        _ => unreachable!(),
    }
}

/// `(when E phase)`
fn when_in(alloc: Global, tree: &Tree) -> Result<When, AllocError>
    requires { FitsSort Sort.When tree.now }
    ensures { IfOk result (λ w. IsWhen tree.now w) }
{
    form_laws();
    small_lists();
    let [test, phase] = parts_of(tree) else {
        unreachable!();
    };
    Ok(When {
        phase: phase_in(phase)?,
        test: expr_in(alloc, test)?,
    })
}

/// The cases of a dispatch.
fn whens_in(alloc: Global, trees: &[Tree]) -> Result<Items<When>, AllocError>
    requires { AllByRecursion (FitsSort Sort.When) trees.now }
    ensures { IfOk result (λ ws. AreWhens trees.now ws) }
{
    form_laws();
    let mut cases = Items::new(alloc);
    for tree in trees {
        cases.push(when_in(alloc, tree)?)?;
    }
    Ok(cases)
}

/// `(steps S ..)`
fn steps_in(alloc: Global, tree: &Tree) -> Result<Items<Stm>, AllocError>
    requires { FitsSort Sort.Steps tree.now }
    ensures { IfOk result (λ ss. AreSteps tree.now ss) }
{
    form_laws();
    small_lists();
    stms_in(alloc, parts_of(tree))
}

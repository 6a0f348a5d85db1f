//! Statements.

ghost use Rattle.std.specs.Prelude.{[], ◌∷◌, IfOk, codes};
ghost use Rattle.std.specs.List.{AllByRecursion};
ghost use Rattle.kat_ast.specs.Parts.{form};
ghost use Rattle.kat_grammar.specs.Parts.{FitsSort, HasParts, HasOneThen};
ghost use Rattle.kat_grammar.specs.Forms.{IsStm, IsCaseArm, IsMatchArm, AreStms, AreCaseArms, AreMatchArms};

use kat_ast::{CaseArm, MatchArm, Stm};
use kat_exprs::{
    expr_in, name_and_expr, name_and_exprs, name_in, only_expr, only_name, split, two_exprs,
};
use kat_grammar::form_laws;
use kat_shapes::Sort;
use kat_tree::Tree;
use sqlite_items::{Boxed, Items};
use std::alloc::{AllocError, Global};

/// The statement that a tree is.
#[cycle(stm)]
pub fn stm_in(alloc: Global, tree: &Tree) -> Result<Stm, AllocError>
    requires { FitsSort Sort.Statement tree.now }
    ensures { IfOk result (λ s. IsStm tree.now s) }
{
    form_laws();
    let Tree::List(parts) = tree else {
        unreachable!();
    };
    let (word, parts) = split(parts.as_slice());
    match word {
        "ret" => ret_in(alloc, parts),
        "let" => let_in(alloc, parts),
        "seq" => seq_in(alloc, parts),
        "if" => if_in(alloc, parts),
        "case" => case_in(alloc, parts),
        "match" => match_in(alloc, parts),
        "read" => read_in(parts),
        "write" => write_in(alloc, parts),
        "load" => load_in(alloc, parts),
        "store" => store_in(alloc, parts),
        "call" => call_in(alloc, parts),
        "check" => check_in(alloc, parts),
        "fail" => Ok(Stm::Fail),
        "open" => open_in(alloc, parts),
        "close" => close_in(alloc, parts),
        "lemma" => lemma_in(alloc, parts),
        _ => unreachable!(),
    }
}

/// The statements that trees are.
#[cycle(stm)]
pub fn stms_in(alloc: Global, trees: &[Tree]) -> Result<Items<Stm>, AllocError>
    requires { AllByRecursion (FitsSort Sort.Statement) trees.now }
    ensures { IfOk result (λ ss. AreStms trees.now ss) }
{
    form_laws();
    let mut stms = Items::new(alloc);
    for tree in trees {
        stms.push(stm_in(alloc, tree)?)?;
    }
    Ok(stms)
}

/// `(ret E)`
fn ret_in(alloc: Global, parts: &[Tree]) -> Result<Stm, AllocError>
    requires { HasParts (Sort.Expression ∷ []) parts.now }
    ensures { IfOk result (λ s. IsStm (form (codes "ret") parts.now) s) }
{
    Ok(Stm::Ret(only_expr(alloc, parts)?))
}

/// `(let x S S)`
#[cycle(stm)]
fn let_in(alloc: Global, parts: &[Tree]) -> Result<Stm, AllocError>
    requires { HasParts (Sort.Name ∷ Sort.Statement ∷ Sort.Statement ∷ []) parts.now }
    ensures { IfOk result (λ s. IsStm (form (codes "let") parts.now) s) }
{
    let [name, first, then] = parts else {
        unreachable!();
    };
    Ok(Stm::Let {
        name: name_in(name)?,
        first: Boxed::new(alloc, stm_in(alloc, first)?)?,
        then: Boxed::new(alloc, stm_in(alloc, then)?)?,
    })
}

/// `(seq S S ..)`
#[cycle(stm)]
fn seq_in(alloc: Global, parts: &[Tree]) -> Result<Stm, AllocError>
    requires { HasOneThen Sort.Statement Sort.Statement parts.now }
    ensures { IfOk result (λ s. IsStm (form (codes "seq") parts.now) s) }
{
    form_laws();
    Ok(Stm::Seq(stms_in(alloc, parts)?))
}

/// `(if E S S)`
#[cycle(stm)]
fn if_in(alloc: Global, parts: &[Tree]) -> Result<Stm, AllocError>
    requires { HasParts (Sort.Expression ∷ Sort.Statement ∷ Sort.Statement ∷ []) parts.now }
    ensures { IfOk result (λ s. IsStm (form (codes "if") parts.now) s) }
{
    let [test, then, otherwise] = parts else {
        unreachable!();
    };
    Ok(Stm::If {
        then: Boxed::new(alloc, stm_in(alloc, then)?)?,
        otherwise: Boxed::new(alloc, stm_in(alloc, otherwise)?)?,
        test: expr_in(alloc, test)?,
    })
}

/// `(case E (A S) ..)`
#[cycle(stm)]
fn case_in(alloc: Global, parts: &[Tree]) -> Result<Stm, AllocError>
    requires { HasOneThen Sort.Expression Sort.CaseArm parts.now }
    ensures { IfOk result (λ s. IsStm (form (codes "case") parts.now) s) }
{
    form_laws();
    let [value, arms @ ..] = parts else {
        unreachable!();
    };
    Ok(Stm::Case {
        arms: case_arms_in(alloc, arms)?,
        value: expr_in(alloc, value)?,
    })
}

/// `(match E (K x S) ..)`
#[cycle(stm)]
fn match_in(alloc: Global, parts: &[Tree]) -> Result<Stm, AllocError>
    requires { HasOneThen Sort.Expression Sort.MatchArm parts.now }
    ensures { IfOk result (λ s. IsStm (form (codes "match") parts.now) s) }
{
    form_laws();
    let [value, arms @ ..] = parts else {
        unreachable!();
    };
    Ok(Stm::Match {
        arms: match_arms_in(alloc, arms)?,
        value: expr_in(alloc, value)?,
    })
}

/// The arms `(A S)` that trees are.
#[cycle(stm)]
fn case_arms_in(alloc: Global, trees: &[Tree]) -> Result<Items<CaseArm<Stm>>, AllocError>
    requires { AllByRecursion (FitsSort Sort.CaseArm) trees.now }
    ensures { IfOk result (λ arms. AreCaseArms trees.now arms) }
{
    form_laws();
    let mut arms = Items::new(alloc);
    for tree in trees {
        arms.push(case_arm_in(alloc, tree)?)?;
    }
    Ok(arms)
}

/// `(A S)`
#[cycle(stm)]
fn case_arm_in(alloc: Global, tree: &Tree) -> Result<CaseArm<Stm>, AllocError>
    requires { FitsSort Sort.CaseArm tree.now }
    ensures { IfOk result (λ arm. IsCaseArm tree.now arm) }
{
    form_laws();
    let Tree::List(parts) = tree else {
        unreachable!();
    };
    let [member, body] = parts.as_slice() else {
        unreachable!();
    };
    Ok(CaseArm {
        member: name_in(member)?,
        body: stm_in(alloc, body)?,
    })
}

/// The arms `(K x S)` that trees are.
#[cycle(stm)]
fn match_arms_in(alloc: Global, trees: &[Tree]) -> Result<Items<MatchArm<Stm>>, AllocError>
    requires { AllByRecursion (FitsSort Sort.MatchArm) trees.now }
    ensures { IfOk result (λ arms. AreMatchArms trees.now arms) }
{
    form_laws();
    let mut arms = Items::new(alloc);
    for tree in trees {
        arms.push(match_arm_in(alloc, tree)?)?;
    }
    Ok(arms)
}

/// `(K x S)`
#[cycle(stm)]
fn match_arm_in(alloc: Global, tree: &Tree) -> Result<MatchArm<Stm>, AllocError>
    requires { FitsSort Sort.MatchArm tree.now }
    ensures { IfOk result (λ arm. IsMatchArm tree.now arm) }
{
    form_laws();
    let Tree::List(parts) = tree else {
        unreachable!();
    };
    let [ctor, payload, body] = parts.as_slice() else {
        unreachable!();
    };
    Ok(MatchArm {
        ctor: name_in(ctor)?,
        payload: name_in(payload)?,
        body: stm_in(alloc, body)?,
    })
}

/// `(read r)`
fn read_in(parts: &[Tree]) -> Result<Stm, AllocError>
    requires { HasParts (Sort.Name ∷ []) parts.now }
    ensures { IfOk result (λ s. IsStm (form (codes "read") parts.now) s) }
{
    Ok(Stm::Read(only_name(parts)?))
}

/// `(write r E)`
fn write_in(alloc: Global, parts: &[Tree]) -> Result<Stm, AllocError>
    requires { HasParts (Sort.Name ∷ Sort.Expression ∷ []) parts.now }
    ensures { IfOk result (λ s. IsStm (form (codes "write") parts.now) s) }
{
    let (register, value) = name_and_expr(alloc, parts)?;
    Ok(Stm::Write { register, value })
}

/// `(load E)`
fn load_in(alloc: Global, parts: &[Tree]) -> Result<Stm, AllocError>
    requires { HasParts (Sort.Expression ∷ []) parts.now }
    ensures { IfOk result (λ s. IsStm (form (codes "load") parts.now) s) }
{
    Ok(Stm::Load(only_expr(alloc, parts)?))
}

/// `(store E E)`
fn store_in(alloc: Global, parts: &[Tree]) -> Result<Stm, AllocError>
    requires { HasParts (Sort.Expression ∷ Sort.Expression ∷ []) parts.now }
    ensures { IfOk result (λ s. IsStm (form (codes "store") parts.now) s) }
{
    let (index, value) = two_exprs(alloc, parts)?;
    Ok(Stm::Store { index, value })
}

/// `(call f E ..)`
fn call_in(alloc: Global, parts: &[Tree]) -> Result<Stm, AllocError>
    requires { HasOneThen Sort.Name Sort.Expression parts.now }
    ensures { IfOk result (λ s. IsStm (form (codes "call") parts.now) s) }
{
    let (function, args) = name_and_exprs(alloc, parts)?;
    Ok(Stm::Call { function, args })
}

/// `(check E)`
fn check_in(alloc: Global, parts: &[Tree]) -> Result<Stm, AllocError>
    requires { HasParts (Sort.Expression ∷ []) parts.now }
    ensures { IfOk result (λ s. IsStm (form (codes "check") parts.now) s) }
{
    Ok(Stm::Check(only_expr(alloc, parts)?))
}

/// `(open P E ..)`
fn open_in(alloc: Global, parts: &[Tree]) -> Result<Stm, AllocError>
    requires { HasOneThen Sort.Name Sort.Expression parts.now }
    ensures { IfOk result (λ s. IsStm (form (codes "open") parts.now) s) }
{
    let (predicate, inputs) = name_and_exprs(alloc, parts)?;
    Ok(Stm::Open { predicate, inputs })
}

/// `(close P E ..)`
fn close_in(alloc: Global, parts: &[Tree]) -> Result<Stm, AllocError>
    requires { HasOneThen Sort.Name Sort.Expression parts.now }
    ensures { IfOk result (λ s. IsStm (form (codes "close") parts.now) s) }
{
    let (predicate, inputs) = name_and_exprs(alloc, parts)?;
    Ok(Stm::Close { predicate, inputs })
}

/// `(lemma l E ..)`
fn lemma_in(alloc: Global, parts: &[Tree]) -> Result<Stm, AllocError>
    requires { HasOneThen Sort.Name Sort.Expression parts.now }
    ensures { IfOk result (λ s. IsStm (form (codes "lemma") parts.now) s) }
{
    let (lemma, args) = name_and_exprs(alloc, parts)?;
    Ok(Stm::Lemma { lemma, args })
}

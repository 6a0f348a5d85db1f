//! Assertions.

ghost use Rattle.std.specs.Prelude.{[], ◌∷◌, IfOk, length, replicate, codes};
ghost use Rattle.std.specs.List.{AllByRecursion};
ghost use Rattle.kat_ast.specs.Parts.{form};
ghost use Rattle.kat_grammar.specs.Parts.{FitsSort, HasParts, HasOneThen};
ghost use Rattle.kat_grammar.specs.Forms.{IsAssertion, AreAssertions};

use kat_ast::{Assertion, Param};
use kat_exprs::{expr_in, name_and_expr, name_and_exprs, only_expr, param_in, split, two_exprs};
use kat_grammar::form_laws;
use kat_shapes::Sort;
use kat_tree::Tree;
use sqlite_items::{Boxed, Items};
use std::alloc::{AllocError, Global};

/// The assertion that a tree is.
#[cycle(assertions)]
pub fn assertion_in(alloc: Global, tree: &Tree) -> Result<Assertion, AllocError>
    requires { FitsSort Sort.Assertion tree.now }
    ensures { IfOk result (λ a. IsAssertion tree.now a) }
{
    form_laws();
    let Tree::List(parts) = tree else {
        unreachable!();
    };
    let (word, parts) = split(parts.as_slice());
    match word {
        "pure" => pure_in(alloc, parts),
        "reg" => register_in(alloc, parts),
        "cell" => cell_in(alloc, parts),
        "star" => star_in(alloc, parts),
        "if" => if_in(alloc, parts),
        "exists" => exists_in(alloc, parts),
        "pred" => predicate_in(alloc, parts),
        "region" => region_in(alloc, parts),
        _ => unreachable!(),
    }
}

/// The assertions that trees are.
#[cycle(assertions)]
fn assertions_in(alloc: Global, trees: &[Tree]) -> Result<Items<Assertion>, AllocError>
    requires { AllByRecursion (FitsSort Sort.Assertion) trees.now }
    ensures { IfOk result (λ xs. AreAssertions trees.now xs) }
{
    form_laws();
    let mut all = Items::new(alloc);
    for tree in trees {
        all.push(assertion_in(alloc, tree)?)?;
    }
    Ok(all)
}

/// `(pure E)`
fn pure_in(alloc: Global, parts: &[Tree]) -> Result<Assertion, AllocError>
    requires { HasParts (Sort.Expression ∷ []) parts.now }
    ensures { IfOk result (λ a. IsAssertion (form (codes "pure") parts.now) a) }
{
    Ok(Assertion::Pure(only_expr(alloc, parts)?))
}

/// `(reg r E)`
fn register_in(alloc: Global, parts: &[Tree]) -> Result<Assertion, AllocError>
    requires { HasParts (Sort.Name ∷ Sort.Expression ∷ []) parts.now }
    ensures { IfOk result (λ a. IsAssertion (form (codes "reg") parts.now) a) }
{
    let (register, value) = name_and_expr(alloc, parts)?;
    Ok(Assertion::Register { register, value })
}

/// `(cell E E)`
fn cell_in(alloc: Global, parts: &[Tree]) -> Result<Assertion, AllocError>
    requires { HasParts (Sort.Expression ∷ Sort.Expression ∷ []) parts.now }
    ensures { IfOk result (λ a. IsAssertion (form (codes "cell") parts.now) a) }
{
    let (index, value) = two_exprs(alloc, parts)?;
    Ok(Assertion::Cell { index, value })
}

/// `(star A ..)`
#[cycle(assertions)]
fn star_in(alloc: Global, parts: &[Tree]) -> Result<Assertion, AllocError>
    requires { HasParts (replicate (length parts.now) Sort.Assertion) parts.now }
    ensures { IfOk result (λ a. IsAssertion (form (codes "star") parts.now) a) }
{
    form_laws();
    Ok(Assertion::Star(assertions_in(alloc, parts)?))
}

/// `(if E A A)`
#[cycle(assertions)]
fn if_in(alloc: Global, parts: &[Tree]) -> Result<Assertion, AllocError>
    requires { HasParts (Sort.Expression ∷ Sort.Assertion ∷ Sort.Assertion ∷ []) parts.now }
    ensures { IfOk result (λ a. IsAssertion (form (codes "if") parts.now) a) }
{
    let [test, then, otherwise] = parts else {
        unreachable!();
    };
    Ok(Assertion::If {
        then: Boxed::new(alloc, assertion_in(alloc, then)?)?,
        otherwise: Boxed::new(alloc, assertion_in(alloc, otherwise)?)?,
        test: expr_in(alloc, test)?,
    })
}

/// `(exists (x T) A)`
#[cycle(assertions)]
fn exists_in(alloc: Global, parts: &[Tree]) -> Result<Assertion, AllocError>
    requires { HasParts (Sort.Param ∷ Sort.Assertion ∷ []) parts.now }
    ensures { IfOk result (λ a. IsAssertion (form (codes "exists") parts.now) a) }
{
    form_laws();
    let [bound, body] = parts else {
        unreachable!();
    };
    let body = Boxed::new(alloc, assertion_in(alloc, body)?)?;
    let Param { name, ty } = param_in(bound)?;
    Ok(Assertion::Exists { name, ty, body })
}

/// `(pred P E ..)`
fn predicate_in(alloc: Global, parts: &[Tree]) -> Result<Assertion, AllocError>
    requires { HasOneThen Sort.Name Sort.Expression parts.now }
    ensures { IfOk result (λ a. IsAssertion (form (codes "pred") parts.now) a) }
{
    let (predicate, args) = name_and_exprs(alloc, parts)?;
    Ok(Assertion::Predicate { predicate, args })
}

/// `(region G E ..)`
fn region_in(alloc: Global, parts: &[Tree]) -> Result<Assertion, AllocError>
    requires { HasOneThen Sort.Name Sort.Expression parts.now }
    ensures { IfOk result (λ a. IsAssertion (form (codes "region") parts.now) a) }
{
    let (region, args) = name_and_exprs(alloc, parts)?;
    Ok(Assertion::Region { region, args })
}

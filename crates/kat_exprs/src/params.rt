//! Names with their types, and lists of them.

ghost use Rattle.std.specs.Prelude.{◌≡◌, IfOk, map};
ghost use Rattle.std.specs.List.{AllByRecursion};
ghost use Rattle.kat_ast.specs.Parts.{number};
ghost use Rattle.kat_grammar.specs.Parts.{FitsSort};
ghost use Rattle.kat_grammar.specs.Forms.{IsParam, IsParamList, IsFieldList, IsMemberList, AreNames, AreParams};

use crate::atoms::{name_in, number_in, type_in};
use kat_ast::Param;
use kat_grammar::form_laws;
use kat_shapes::Sort;
use kat_text::Text;
use kat_tree::Tree;
use sqlite_items::Items;
use std::alloc::{AllocError, Global};

/// The name with its type that a tree is.
pub fn param_in(tree: &Tree) -> Result<Param, AllocError>
    requires { FitsSort Sort.Param tree.now }
    ensures { IfOk result (λ p. IsParam tree.now p) }
{
    let Tree::List(parts) = tree else {
        unreachable!();
    };
    let [name, ty] = parts.as_slice() else {
        unreachable!();
    };
    Ok(Param {
        name: name_in(name)?,
        ty: type_in(ty)?,
    })
}

/// The list of names with their types that a tree is.
pub fn params_in(alloc: Global, tree: &Tree) -> Result<Items<Param>, AllocError>
    requires { FitsSort Sort.Params tree.now }
    ensures { IfOk result (λ ps. IsParamList tree.now ps) }
{
    form_laws();
    let Tree::List(parts) = tree else {
        unreachable!();
    };
    params_of(alloc, parts.as_slice())
}

/// The list of at least one name with its type that a tree is.
pub fn fields_in(alloc: Global, tree: &Tree) -> Result<Items<Param>, AllocError>
    requires { FitsSort Sort.Fields tree.now }
    ensures { IfOk result (λ ps. IsFieldList tree.now ps) }
{
    form_laws();
    let Tree::List(parts) = tree else {
        unreachable!();
    };
    params_of(alloc, parts.as_slice())
}

/// The list of at least one name that a tree is.
pub fn members_in(alloc: Global, tree: &Tree) -> Result<Items<Text>, AllocError>
    requires { FitsSort Sort.Members tree.now }
    ensures { IfOk result (λ xs. IsMemberList tree.now xs) }
{
    form_laws();
    let Tree::List(parts) = tree else {
        unreachable!();
    };
    names_of(alloc, parts.as_slice())
}

/// The numbers that trees are.
pub fn numbers_in(alloc: Global, trees: &[Tree]) -> Result<Items<u64>, AllocError>
    requires { AllByRecursion (FitsSort Sort.Number) trees.now }
    ensures { IfOk result (λ ns. map number ns ≡ trees.now) }
{
    let mut numbers = Items::new(alloc);
    for tree in trees {
        numbers.push(number_in(tree))?;
    }
    Ok(numbers)
}

/// The names with their types that trees are.
fn params_of(alloc: Global, trees: &[Tree]) -> Result<Items<Param>, AllocError>
    requires { AllByRecursion (FitsSort Sort.Param) trees.now }
    ensures { IfOk result (λ ps. AreParams trees.now ps) }
{
    form_laws();
    let mut params = Items::new(alloc);
    for tree in trees {
        params.push(param_in(tree)?)?;
    }
    Ok(params)
}

/// The names that trees are.
fn names_of(alloc: Global, trees: &[Tree]) -> Result<Items<Text>, AllocError>
    requires { AllByRecursion (FitsSort Sort.Name) trees.now }
    ensures { IfOk result (λ xs. AreNames trees.now xs) }
{
    form_laws();
    let mut names = Items::new(alloc);
    for tree in trees {
        names.push(name_in(tree)?)?;
    }
    Ok(names)
}

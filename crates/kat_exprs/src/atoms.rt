//! Names, numbers and types, and the word with which a list begins.

ghost use Rattle.std.specs.Prelude.{◌≡◌, true, ℕ, [], ◌∷◌, List, IfOk};
ghost use Rattle.kat_ast.specs.Parts.{is_name, word, number, form};
ghost use Rattle.kat_grammar.specs.Parts.{FitsSort, HasParts, IsHeaded, IsHeadedList, IsHolder};
ghost use Rattle.kat_grammar.specs.Forms.{IsName, IsType};

use kat_ast::TypeName;
use kat_grammar::{form_laws, small_lists};
use kat_shapes::Sort;
use kat_text::Text;
use kat_tree::{Token, Tree};
use std::alloc::AllocError;

/// The name that a tree is.
pub fn name_in(tree: &Tree) -> Result<Text, AllocError>
    requires { FitsSort Sort.Name tree.now }
    ensures { IfOk result (λ x. IsName tree.now x) }
{
    let Tree::Atom(Token::Name(name)) = tree else {
        unreachable!();
    };
    name.copy()
}

/// The number that a tree is.
pub fn number_in(tree: &Tree) -> u64
    requires { FitsSort Sort.Number tree.now }
    ensures { number result ≡ tree.now }
{
    let Tree::Atom(Token::Number(number)) = tree else {
        unreachable!();
    };
    *number
}

/// The type that a tree is.
pub fn type_in(tree: &Tree) -> Result<TypeName, AllocError>
    requires { FitsSort Sort.TypeName tree.now }
    ensures { IfOk result (λ t. IsType tree.now t) }
{
    form_laws();
    small_lists();
    match tree {
        Tree::Atom(Token::Name(name)) => match name.as_str() {
            "unit" => Ok(TypeName::Unit),
            "bool" => Ok(TypeName::Bool),
            _ => Ok(TypeName::Named(name.copy()?)),
        },
        Tree::List(_) => Ok(TypeName::Bits(number_in(part_of(tree)))),
        _ => unreachable!(),
    }
}

/// The word with which a list begins, and the parts behind it.
pub fn split(parts: &[Tree]) -> (&str, &[Tree])
    requires { IsHeaded parts.now }
    ensures { word result.0.now ∷ result.1.now ≡ parts.now }
{
    let [head, behind @ ..] = parts else {
        unreachable!();
    };
    let Tree::Atom(Token::Name(word)) = head else {
        unreachable!();
    };
    (word.as_str(), behind)
}

/// The parts of a list behind its word.
pub fn parts_of(tree: &Tree) -> &[Tree]
    requires { IsHeadedList tree.now }
    ensures { (head : List ℕ) × (tree.now ≡ form head result.now) }
{
    let Tree::List(parts) = tree else {
        unreachable!();
    };
    let [_, behind @ ..] = parts.as_slice() else {
        unreachable!();
    };
    behind
}

/// The one part of a list behind its word.
pub fn part_of(tree: &Tree) -> &Tree
    requires { IsHolder tree.now }
    ensures { (head : List ℕ) × (tree.now ≡ form head (result.now ∷ [])) }
{
    let Tree::List(parts) = tree else {
        unreachable!();
    };
    let [_, part] = parts.as_slice() else {
        unreachable!();
    };
    part
}

/// One name alone.
pub fn only_name(parts: &[Tree]) -> Result<Text, AllocError>
    requires { HasParts (Sort.Name ∷ []) parts.now }
    ensures { IfOk result (λ x. (word x ∷ [] ≡ parts.now) × (is_name x ≡ true)) }
{
    let [name] = parts else {
        unreachable!();
    };
    name_in(name)
}

/// One number alone.
pub(crate) fn only_number(parts: &[Tree]) -> u64
    requires { HasParts (Sort.Number ∷ []) parts.now }
    ensures { number result ∷ [] ≡ parts.now }
{
    let [number] = parts else {
        unreachable!();
    };
    number_in(number)
}

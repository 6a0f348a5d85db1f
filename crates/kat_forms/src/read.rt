//! Specifications, and declarations by themselves.

ghost use Rattle.std.specs.Prelude.{◌≡◌, List, map, IfOk, IfErr, MatchResult};
ghost use Rattle.std.specs.List.{AllByRecursion};
ghost use Rattle.kat_tree.specs.declared.tree.Tree.{Tree};
ghost use Rattle.kat_tree.specs.declared.tree.Tree.TheVariants as variant;
ghost use Rattle.kat_tree.specs.Written.{IsWritable};
ghost use Rattle.kat_ast.specs.declared.decl.DeclForm.{DeclForm};
ghost use Rattle.kat_ast.specs.Spec.{Spec};
ghost use Rattle.kat_ast.specs.Declarations.{tree_of_decl, IsDecl};
ghost use Rattle.kat_ast.specs.Specifications.{Describes};
ghost use Rattle.kat_shapes.specs.declared.misfit.Misfit.{Misfit as AnyMisfit};
ghost use Rattle.kat_shapes.specs.Places.{AllHaveForm, IsFirstMisfit as IsFirstMisfitOf};
ghost use Rattle.kat_grammar.specs.Parts.{FitsSort, IsPartOfText, AreSmall};
ghost use Rattle.kat_forms.specs.Reading.{DescribesDecl, IsFirstMisfit, IsFirstMisfitOfDecl, Names, Gives, GivesMisfit};

use crate::declarations::decl_in;
use crate::error::FormError;
use kat_ast::{Decl, Spec};
use kat_grammar::{form_laws, one_description, written_fits};
use kat_shapes::{Misfit, Sort, judge, one_judgement};
use kat_tree::Tree;
use kat_value::NEWEST;
use sqlite_items::Items;
use std::alloc::{AllocError, Global};

/// The specification that a tree describes. It is a tree of a text: some bytes spell it. An error
/// but `Memory` is the first tree, in preorder, that has no form where it stands: a list whose
/// first word is no form there, or whose count of trees is not the form's, is refused itself, and
/// else its parts are read in order. A number past the greatest of 64 bits stands still there.
pub fn read_spec(alloc: Global, tree: &Tree) -> Result<Spec, FormError>
    requires text { IsWritable tree.now }
    requires small { (parts : List Tree) → tree.now ≡ variant.List parts → AreSmall parts }

    // What is read is what the tree describes.
    ensures found { IfOk result (λ spec. Describes tree.now spec) }
    // What the tree describes is read, unless memory runs out.
    ensures only { (spec : Spec) → Describes tree.now spec → Gives result spec }

    // A refusal names the first misfit.
    ensures refused { IfErr result (λ e. Names e (IsFirstMisfit tree.now)) }
    // The first misfit is the answer, unless memory runs out.
    ensures first { (misfit : AnyMisfit) →
        IsFirstMisfit tree.now misfit → GivesMisfit result misfit }
{
    form_laws();
    written_fits();
    one_description();
    one_judgement();
    judged_spec(alloc, tree)
}

/// The declaration that a tree is by itself: one that may stand directly in the root of a text.
/// Errors are those of `read_spec`; place 0 is the declaration. It may have each form of the newest
/// version.
pub fn read_decl(alloc: Global, tree: &Tree) -> Result<Decl, FormError>
    requires { IsPartOfText tree.now }

    // What is read is what the tree describes.
    ensures found { IfOk result (λ decl. DescribesDecl tree.now decl) }
    // What the tree describes is read, unless memory runs out.
    ensures only { (decl : DeclForm) → DescribesDecl tree.now decl → Gives result decl }

    // A refusal names the first misfit.
    ensures refused { IfErr result (λ e. Names e (IsFirstMisfitOfDecl tree.now)) }
    // The first misfit is the answer, unless memory runs out.
    ensures first { (misfit : AnyMisfit) →
        IsFirstMisfitOfDecl tree.now misfit → GivesMisfit result misfit }
{
    written_fits();
    one_description();
    one_judgement();
    judged_decl(alloc, tree)
}

/// The specification of a tree, or its first misfit.
fn judged_spec(alloc: Global, tree: &Tree) -> Result<Spec, FormError>
    requires { (parts : List Tree) →
        tree.now ≡ variant.List parts → AllByRecursion IsPartOfText parts }
    ensures { MatchResult result
        (λ spec. AllHaveForm Sort.Spec tree.now × Describes tree.now spec)
        (λ e. Names e (IsFirstMisfitOf Sort.Spec tree.now)) }
{
    match judge(tree, Sort::Spec) {
        Ok(()) => Ok(spec_in(alloc, tree)?),
        Err(misfit) => Err(refusal(misfit)),
    }
}

/// The declaration of a tree, or its first misfit.
fn judged_decl(alloc: Global, tree: &Tree) -> Result<Decl, FormError>
    requires { IsPartOfText tree.now }
    ensures { MatchResult result
        (λ decl. AllHaveForm Sort.Declaration tree.now × DescribesDecl tree.now decl)
        (λ e. Names e (IsFirstMisfitOf Sort.Declaration tree.now)) }
{
    match judge(tree, Sort::Declaration) {
        Ok(()) => Ok(whole_decl_in(alloc, tree)?),
        Err(misfit) => Err(refusal(misfit)),
    }
}

/// The refusal that names a misfit.
fn refusal(misfit: Misfit) -> FormError
    ensures { result ≡ FormError.Wanted misfit.place misfit.wanted }
{
    FormError::Wanted {
        place: misfit.place,
        wanted: misfit.wanted,
    }
}

/// The specification that a tree of a text is.
fn spec_in(alloc: Global, tree: &Tree) -> Result<Spec, AllocError>
    requires fits { FitsSort Sort.Spec tree.now }
    requires text { (parts : List Tree) →
        tree.now ≡ variant.List parts → AllByRecursion IsPartOfText parts }
    ensures { IfOk result (λ spec. Describes tree.now spec) }
{
    form_laws();
    let Tree::List(parts) = tree else {
        unreachable!();
    };
    let [_, _, trees @ ..] = parts.as_slice() else {
        unreachable!();
    };
    Ok(Spec::new(NEWEST, decls_in(alloc, trees)?))
}

/// The declarations that trees of a text are.
fn decls_in(alloc: Global, trees: &[Tree]) -> Result<Items<Decl>, AllocError>
    requires fits { AllByRecursion (FitsSort Sort.Declaration) trees.now }
    requires text { AllByRecursion IsPartOfText trees.now }
    ensures { IfOk result (λ ds. (map tree_of_decl ds ≡ trees.now) × AllByRecursion IsDecl ds) }
{
    let mut decls = Items::new(alloc);
    for tree in trees {
        decls.push(whole_decl_in(alloc, tree)?)?;
    }
    Ok(decls)
}

/// The declaration that a tree of a text is.
fn whole_decl_in(alloc: Global, tree: &Tree) -> Result<Decl, AllocError>
    requires fits { FitsSort Sort.Declaration tree.now }
    requires text { IsPartOfText tree.now }
    ensures { IfOk result (λ d. DescribesDecl tree.now d) }
{
    Ok(Decl::new(decl_in(alloc, tree)?))
}

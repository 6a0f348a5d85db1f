//! Laws of trees and forms. Each function here does nothing: its contract is the law.

ghost use Rattle.std.specs.Prelude.{◌≡◌, ◌⊎◌};
ghost use Rattle.kat_tree.specs.declared.tree.Tree.{Tree};
ghost use Rattle.kat_ast.specs.declared.decl.DeclForm.{DeclForm};
ghost use Rattle.kat_ast.specs.Spec.{Spec};
ghost use Rattle.kat_ast.specs.Specifications.{Describes};
ghost use Rattle.kat_shapes.specs.declared.misfit.Misfit.{Misfit as AnyMisfit};
ghost use Rattle.kat_shapes.specs.Places.{AllHaveForm};
ghost use Rattle.kat_grammar.specs.Parts.{IsText, IsPartOfText};
ghost use Rattle.kat_grammar.specs.Described.{DescribesDecl, IsFirstMisfit, IsFirstMisfitOfDecl};
ghost use Rattle.kat_grammar.specs.Laws.{FormLaws, SmallLists};

use kat_ast::one_form;
use kat_shapes::{Sort, fitting, one_judgement};
use kat_tree::written_layers;

/// What describes a declaration or a specification has right form: it has no misfit.
pub fn written_fits()
    ensures decl { (tree : Tree) (decl : DeclForm) →
        DescribesDecl tree decl → AllHaveForm Sort.Declaration tree }
    ensures spec { (tree : Tree) (spec : Spec) →
        Describes tree spec → AllHaveForm Sort.Spec tree }
{
    fitting();
}

/// The tree of a text describes exactly one specification, or it has exactly one first misfit, and
/// never both; and so of a declaration by itself.
pub fn one_description()
    ensures some { (tree : Tree) → IsText tree →
        ((spec : Spec) × Describes tree spec)
        ⊎ ((misfit : AnyMisfit) × IsFirstMisfit tree misfit) }
    ensures spec { (tree : Tree) (a b : Spec) → Describes tree a → Describes tree b → a ≡ b }
    ensures misfit { (tree : Tree) (a b : AnyMisfit) →
        IsFirstMisfit tree a → IsFirstMisfit tree b → a ≡ b }
    ensures never_both { (tree : Tree) (spec : Spec) (misfit : AnyMisfit) →
        Describes tree spec → IsFirstMisfit tree misfit → ⊥ }

    ensures some_decl { (tree : Tree) → IsPartOfText tree →
        ((decl : DeclForm) × DescribesDecl tree decl)
        ⊎ ((misfit : AnyMisfit) × IsFirstMisfitOfDecl tree misfit) }
    ensures decl { (tree : Tree) (a b : DeclForm) →
        DescribesDecl tree a → DescribesDecl tree b → a ≡ b }
    ensures decl_misfit { (tree : Tree) (a b : AnyMisfit) →
        IsFirstMisfitOfDecl tree a → IsFirstMisfitOfDecl tree b → a ≡ b }
    ensures decl_never_both { (tree : Tree) (decl : DeclForm) (misfit : AnyMisfit) →
        DescribesDecl tree decl → IsFirstMisfitOfDecl tree misfit → ⊥ }
{
    written_layers();
    one_form();
    fitting();
    one_judgement();
    written_fits();
}

/// What a reader of forms uses of trees that fit: what their parts are, and that these fit.
pub fn form_laws()
    ensures { FormLaws }
{
    written_layers();
}

/// The small lists inside forms: the one form of each, and that no atom is one.
pub fn small_lists()
    ensures { SmallLists }
{}

//! The laws of trees and their text. Such a function does nothing: its contract is the law.

ghost use Rattle.std.specs.Prelude.{◌≡◌, ◌<◌, ◌≤◌, ◌+◌, ◌↔◌, ℕ, List, [], ◌∷◌, ◌++◌, Result, Some, IsSome, length, map, sum, slice_get};
ghost use Rattle.std.specs.List.{AllByRecursion};
ghost use Rattle.kat_tree.specs.declared.error.TreeError.{TreeError};
ghost use Rattle.kat_tree.specs.declared.tree.Token.{Token};
ghost use Rattle.kat_tree.specs.declared.tree.Tree.{Tree};
ghost use Rattle.kat_tree.specs.declared.tree.Tree.TheVariants as variant;
ghost use Rattle.kat_tree.specs.Faults.{Owes};
ghost use Rattle.kat_tree.specs.Lexeme.{Opening, Closing, Leaf, joined, lexemes_of, lexemes_of_all, most_open, nesting, nesting_of_all};
ghost use Rattle.kat_tree.specs.Preorder.{tree_at, trees_of, trees_of_all, count_of, place_of_part};
ghost use Rattle.kat_tree.specs.Spelling.{Spells};
ghost use Rattle.kat_tree.specs.Written.{IsToken, IsWritable, spaced, text_of_token, text_of_tree, tokens_of};

/// Bytes spell at most one tree.
pub fn one_tree()
    ensures { (bytes : List ℕ) (first second : Tree) →
        Spells bytes first → Spells bytes second → first ≡ second }
{}

/// For all bytes one thing is owed, and one alone: the tree that they spell, or their first fault.
pub fn one_outcome()
    ensures some { (bytes : List ℕ) → (outcome : Result Tree TreeError) × Owes bytes outcome }
    ensures one { (bytes : List ℕ) (first second : Result Tree TreeError) →
        Owes bytes first → Owes bytes second → first ≡ second }
{}

/// Each tree of a text has at least one byte of its own.
pub fn trees_fit_their_text()
    ensures { (bytes : List ℕ) (tree : Tree) →
        Spells bytes tree → count_of tree ≤ length bytes }
{}

/// What a text spells can be written.
pub fn spelled_is_writable()
    ensures { (bytes : List ℕ) (tree : Tree) → Spells bytes tree → IsWritable tree }
{}

/// The canonical text of a tree, with a newline at its end, spells it.
pub fn written_is_spelled()
    ensures { (tree : Tree) → IsWritable tree → Spells (text_of_tree tree ++ 10 ∷ []) tree }
{}

/// The canonical text of a tree and what can be written, by the tree's parts.
pub fn written_layers()
    ensures atom_text { (token : Token) →
        text_of_tree (variant.Atom token) ≡ text_of_token token }
    ensures list_text { (parts : List Tree) →
        text_of_tree (variant.List parts) ≡ 40 ∷ (spaced (map text_of_tree parts) ++ 41 ∷ []) }
    ensures atom_tokens { (token : Token) → tokens_of (variant.Atom token) ≡ token ∷ [] }
    ensures list_tokens { (parts : List Tree) →
        tokens_of (variant.List parts) ≡ joined (map tokens_of parts) }

    ensures atom_writable { (token : Token) → IsWritable (variant.Atom token) ↔ IsToken token }
    // A list can be written where its parts can and it nests no deeper than a text may.
    ensures list_writable { (parts : List Tree) →
        AllByRecursion IsWritable parts → nesting (variant.List parts) ≤ most_open →
        IsWritable (variant.List parts) }
    ensures parts_writable { (parts : List Tree) →
        IsWritable (variant.List parts) → AllByRecursion IsWritable parts }
    ensures part_writable { (parts : List Tree) (part : Tree) (i : ℕ) →
        IsWritable (variant.List parts) → slice_get parts i ≡ Some part → IsWritable part }
    ensures part_nesting { (parts : List Tree) (part : Tree) (i : ℕ) →
        slice_get parts i ≡ Some part → nesting part < nesting (variant.List parts) }
{}

/// What the preorder numbers of trees are good for: the root is 0, and a tree's own numbers are
/// those of the whole from its place on.
pub fn places()
    ensures root { (tree : Tree) → tree_at tree 0 ≡ Some tree }
    ensures known { (tree : Tree) (place : ℕ) →
        IsSome (tree_at tree place) ↔ (place < count_of tree) }

    // A list counts itself and its parts.
    ensures count { (parts : List Tree) →
        count_of (variant.List parts) ≡ sum (map count_of parts) + 1 }
    // What stands in a tree with a number has its place counted on from there.
    ensures within { (tree part : Tree) (place n : ℕ) →
        tree_at tree place ≡ Some part → n < count_of part →
        tree_at tree (place + n) ≡ tree_at part n }
    // A part of a list has the place of that part.
    ensures parts { (tree part : Tree) (parts : List Tree) (place i : ℕ) →
        tree_at tree place ≡ Some (variant.List parts) → slice_get parts i ≡ Some part →
        tree_at tree (place_of_part place parts i) ≡ Some part }
{}

/// The tokens, the nesting and the trees of a tree, by its parts.
pub fn layers()
    ensures atom_tokens { (token : Token) → lexemes_of (variant.Atom token) ≡ Leaf token ∷ [] }
    ensures list_tokens { (parts : List Tree) →
        lexemes_of (variant.List parts) ≡ Opening ∷ (lexemes_of_all parts ++ Closing ∷ []) }

    ensures atom_nesting { (token : Token) → nesting (variant.Atom token) ≡ 0 }
    ensures list_nesting { (parts : List Tree) →
        nesting (variant.List parts) ≡ nesting_of_all parts + 1 }

    ensures atom_trees { (token : Token) →
        trees_of (variant.Atom token) ≡ variant.Atom token ∷ [] }
    ensures list_trees { (parts : List Tree) →
        trees_of (variant.List parts) ≡ variant.List parts ∷ trees_of_all parts }
    ensures atom_count { (token : Token) → count_of (variant.Atom token) ≡ 1 }
{}

//! Laws of what is read where. Each function here does nothing: its contract is the law.

ghost use Rattle.std.specs.Prelude.{◌≡◌, ◌↔◌, ◌⊎◌, ◌≤◌, ℕ, true, List, Some};
ghost use Rattle.kat_tree.specs.declared.tree.Tree.{Tree};
ghost use Rattle.kat_tree.specs.declared.tree.Tree.TheVariants as variant;
ghost use Rattle.kat_tree.specs.Preorder.{tree_at};
ghost use Rattle.kat_shapes.specs.declared.sort.Sort.{Sort as SortName};
ghost use Rattle.kat_shapes.specs.declared.misfit.Misfit.{Misfit as AnyMisfit};
ghost use Rattle.kat_shapes.specs.Fits.{fits, fits_in};
ghost use Rattle.kat_shapes.specs.Places.{IsRead, AllHaveForm, HaveForm, IsFirstMisfit, PartsFit};

/// What is read at a place.
pub fn readings()
    // A place is that of the tree with this number in preorder.
    ensures numbered { (v : ℕ) (root : SortName) (text t : Tree) (place : ℕ) (s : SortName) →
        IsRead v root text place t s → tree_at text place ≡ Some t }
    // A place is read as one tree and one sort at most.
    ensures one { (v : ℕ) (root : SortName) (text t u : Tree) (place : ℕ) (s r : SortName) →
        IsRead v root text place t s → IsRead v root text place u r → (t ≡ u) × (s ≡ r) }
{
    kat_tree::places();
}

/// A text has right form, or it has exactly one first misfit, and never both.
pub fn one_judgement()
    ensures some { (root : SortName) (text : Tree) →
        AllHaveForm root text ⊎ ((misfit : AnyMisfit) × IsFirstMisfit root text misfit) }
    ensures one { (root : SortName) (text : Tree) (first second : AnyMisfit) →
        IsFirstMisfit root text first → IsFirstMisfit root text second → first ≡ second }
    ensures never_both { (root : SortName) (text : Tree) (misfit : AnyMisfit) →
        AllHaveForm root text → IsFirstMisfit root text misfit → ⊥ }
{}

/// What it says that a tree fits a sort.
pub fn fitting()
    // A tree fits where each tree in it that is read as something has a form there.
    ensures everywhere { (v : ℕ) (sort : SortName) (tree : Tree) →
        (fits_in v sort tree ≡ true) ↔ HaveForm v sort tree }
    // What fits in a version fits in each later one.
    ensures later { (v w : ℕ) (sort : SortName) (tree : Tree) →
        v ≤ w → fits_in v sort tree ≡ true → fits_in w sort tree ≡ true }
    // There is one version: a text has right form exactly where it fits in that one.
    ensures whole { (root : SortName) (text : Tree) →
        AllHaveForm root text ↔ (fits root text ≡ true) }
    // A list that fits has a form, and each of its parts fits the sort that the form has for it.
    ensures parts { (v : ℕ) (sort : SortName) (parts : List Tree) →
        fits_in v sort (variant.List parts) ≡ true → PartsFit v sort parts }
    // A list whose parts fit the sorts of a form, one each, fits.
    ensures list { (v : ℕ) (sort : SortName) (parts : List Tree) →
        PartsFit v sort parts → fits_in v sort (variant.List parts) ≡ true }
{}

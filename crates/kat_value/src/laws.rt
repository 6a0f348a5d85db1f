//! The laws of values and operations. Such a function does nothing: its contract is the law.

ghost use Rattle.std.specs.Prelude.{◌≡◌, ℕ, List, Some, IsTrue};
ghost use Rattle.kat_value.specs.declared.op.Op.{Op};
ghost use Rattle.kat_value.specs.Equality.{TestsEquality};
ghost use Rattle.kat_value.specs.OperationTypes.{ExactOperations};
ghost use Rattle.kat_value.specs.Shown.{ShownTypes};
ghost use Rattle.kat_value.specs.TypeLaws.{UnitIsUnit, BoolIsTruths, BitsAreNumbers};
ghost use Rattle.kat_value.specs.Words.{word_of_op, bare, numbers_of_op, with_numbers, arity_of, is_written, op_of_word};

/// The test that computes whether two values are equal holds of equal values, and of no others.
#[tactic(auto, using(crate::proofs::EqualityLemmas::value_eq_is))]
pub fn equality_is_tested()
    ensures { TestsEquality }
{}

/// Which values are of the types without parts.
pub fn types_of_values()
    ensures unit { UnitIsUnit }
    ensures truths { BoolIsTruths }
    ensures numbers { BitsAreNumbers }
{}

/// A value is of the type that it shows, or of none.
pub fn values_show_types()
    ensures { ShownTypes }
{}

/// An operation, a constructor or a record has a value exactly on values of types that it takes,
/// and that value is of the type that it gives.
pub fn operations_are_exact()
    ensures { ExactOperations }
{}

/// A word tells its operation, and the operation its word.
pub fn words_of_operations()
    ensures found { (op : Op) →
        IsTrue (is_written op) → op_of_word (word_of_op op) ≡ Some (bare op) }
    // What a word begins has that word, is written with it, and has zeros for numbers.
    ensures word { (word : List ℕ) (op : Op) → op_of_word word ≡ Some op → word ≡ word_of_op op }
    ensures written { (word : List ℕ) (op : Op) →
        op_of_word word ≡ Some op → IsTrue (is_written op) }
    ensures zeros { (word : List ℕ) (op : Op) → op_of_word word ≡ Some op → bare op ≡ op }

    // An operation with zeros for numbers, and its numbers, are the operation.
    ensures numbers { (op : Op) → with_numbers (bare op) (numbers_of_op op) ≡ op }
    ensures same_word { (op : Op) → word_of_op (bare op) ≡ word_of_op op }
    ensures same_arity { (op : Op) → arity_of (bare op) ≡ arity_of op }
{}

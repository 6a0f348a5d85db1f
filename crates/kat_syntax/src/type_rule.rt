//! The conditions of typing.

ghost use Rattle.std.specs.Prelude.{◌≡◌};
ghost use Rattle.kat_syntax.specs.TypeRules.{code_of};

/// A condition that makes a specification ill-typed.
#[derive(Clone, Copy, Debug, PartialEq, Eq, Drop)]
pub enum TypeRule {
    /// A declared name is there already, or a local hides a name in scope; at the name.
    NameTaken,
    /// No type of this name is declared earlier; at the name.
    TypeUnknown,
    /// A width is not 1 to 64; at the number.
    NoWidth,
    /// There is no such name of the kind wanted; at the name.
    NameUnknown,
    /// A literal is not below 2 to the power of its width; at the number.
    LiteralLarge,
    /// Another type than the one wanted; at the tree.
    TypeOther,
    /// A wrong number of arguments; at the list.
    CountOther,
    /// A slice outside its argument, or with its lower place above the higher; at the list.
    SliceOutside,
    /// `cat` past 64, or `zext` or `sext` to less; at the list.
    WidthOther,
    /// `case` or `match` does not list each member once in declared order; at the list.
    NotListed,
    /// Branches of different types; at the list.
    BranchesDiffer,
    /// A function's body is not of its type; at the body.
    BodyOther,
    /// A second memory, or what needs an earlier memory without one; at the list.
    MemoryMissing,
    /// A memory whose bounds are no range of its indices, or are too far apart; at the list.
    MemoryBounds,
    /// An empty range, one outside the memory, or a code value past the cell's width; at the list.
    RangeOutside,
    /// A protected, outside or code cell that an earlier declaration has; at the list.
    CellTaken,
    /// An outside register that is not of bits; at the type.
    OutsideNotBits,
    /// An expression where it may not stand, or of a place that it may not name; at the list.
    NotHere,
    /// A predicate or lemma that is used at or before its declaration; at the name.
    UsedBefore,
    /// A lemma's step that is no proof statement; at the step.
    NotProof,
    /// What stands once stands twice or not at all, or a step function that is none; at the list,
    /// or at the name.
    NotOnce,
    /// `within` is not 1 to 256; at the number.
    WithinOutside,
    /// A count past a limit; at the declaration.
    TooMany,
    /// A second contract for one function; at the list.
    ContractTwice,
}

impl TypeRule {
    /// The number of the condition, from 1 to 24.
    pub fn code(self) -> u32
        ensures { result ≡ code_of self }
    {
        match self {
            TypeRule::NameTaken => 1,
            TypeRule::TypeUnknown => 2,
            TypeRule::NoWidth => 3,
            TypeRule::NameUnknown => 4,
            TypeRule::LiteralLarge => 5,
            TypeRule::TypeOther => 6,
            TypeRule::CountOther => 7,
            TypeRule::SliceOutside => 8,
            TypeRule::WidthOther => 9,
            TypeRule::NotListed => 10,
            TypeRule::BranchesDiffer => 11,
            TypeRule::BodyOther => 12,
            TypeRule::MemoryMissing => 13,
            TypeRule::MemoryBounds => 14,
            TypeRule::RangeOutside => 15,
            TypeRule::CellTaken => 16,
            TypeRule::OutsideNotBits => 17,
            TypeRule::NotHere => 18,
            TypeRule::UsedBefore => 19,
            TypeRule::NotProof => 20,
            TypeRule::NotOnce => 21,
            TypeRule::WithinOutside => 22,
            TypeRule::TooMany => 23,
            TypeRule::ContractTwice => 24,
        }
    }
}

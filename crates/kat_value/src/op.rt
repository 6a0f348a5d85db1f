//! The operations of expressions and terms.

/// An operation, in the order of the language's list. Those from `Ult` to `Sar` take bits of equal
/// widths.
#[derive(Clone, Copy, Debug, PartialEq, Eq, Drop)]
pub enum Op {
    Not,
    And,
    Or,
    /// Equality at any one type.
    Eq,
    Ult,
    Ule,
    /// The signed comparisons read two's complement.
    Slt,
    Sle,
    /// Sums, differences and products are modulo 2 to the power of the width.
    Add,
    Sub,
    Mul,
    Band,
    Bor,
    Bxor,
    Bnot,
    /// A shift amount is unsigned. A shift by the width or more gives 0.
    Shl,
    Shr,
    /// Shifts copies of the top bit in.
    Sar,
    /// The bits from `lo` to `hi`, both included.
    Slice { hi: u64, lo: u64 },
    /// The first argument is the high part.
    Cat,
    Zext { width: u64 },
    Sext { width: u64 },
    Ite,
    /// The field at this position of a record, of the type at this position.
    Get { of: u32, field: u32 },
}

//! How operations are typed.

ghost use Rattle.std.specs.Prelude.{◌≡◌};
ghost use Rattle.kat_value.specs.Signatures.{signature_of};

use crate::op::Op;

/// What types an operation takes, and what type it gives.
#[derive(Clone, Copy, Debug, PartialEq, Eq, Drop)]
pub enum Signature {
    /// Truths; it gives a truth.
    Truths,
    /// Two of any one type; it gives a truth.
    Equality,
    /// Two of bits of one width; it gives a truth.
    Comparison,
    /// Bits of one width; it gives bits of that width.
    Arithmetic,
    /// Bits that have these places; it gives as many bits as stand from `lo` to `hi`.
    Slice { hi: u64, lo: u64 },
    /// Two of bits; it gives bits of both widths together.
    Cat,
    /// Bits that are no wider than this; it gives bits of this width.
    Extension { width: u64 },
    /// A truth, and two of one type that is bits or truths; it gives that type.
    Choice,
    /// A record of this type; it gives the type of this field.
    Get { of: u32, field: u32 },
}

/// How an operation is typed.
pub fn signature_of(op: Op) -> Signature
    ensures { result ≡ signature_of op }
{
    match op {
        Op::Not | Op::And | Op::Or => Signature::Truths,
        Op::Eq => Signature::Equality,
        Op::Ult | Op::Ule | Op::Slt | Op::Sle => Signature::Comparison,
        Op::Add
        | Op::Sub
        | Op::Mul
        | Op::Band
        | Op::Bor
        | Op::Bxor
        | Op::Bnot
        | Op::Shl
        | Op::Shr
        | Op::Sar => Signature::Arithmetic,
        Op::Slice { hi, lo } => Signature::Slice { hi, lo },
        Op::Cat => Signature::Cat,
        Op::Zext { width } | Op::Sext { width } => Signature::Extension { width },
        Op::Ite => Signature::Choice,
        Op::Get { of, field } => Signature::Get { of, field },
    }
}

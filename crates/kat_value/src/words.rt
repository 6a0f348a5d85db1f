//! How operations are written: a word, numbers, and arguments.

ghost use Rattle.std.specs.Prelude.{◌≡◌};
ghost use Rattle.kat_value.specs.Words.{word_of_op, numbers_in, numbers_of_op, with_numbers, arity_of, is_written, op_of_word};

use crate::op::Op;

/// The numbers that stand between an operation's word and its arguments.
#[derive(Clone, Copy, Debug, PartialEq, Eq, Drop)]
pub enum OpNumbers {
    Zero,
    One(u64),
    Two(u64, u64),
}

/// The word of an operation.
pub fn word_of_op(op: Op) -> &'static str
    ensures { result.now ≡ word_of_op op }
{
    match op {
        Op::Not => "not",
        Op::And => "and",
        Op::Or => "or",
        Op::Eq => "eq",
        Op::Ult => "ult",
        Op::Ule => "ule",
        Op::Slt => "slt",
        Op::Sle => "sle",
        Op::Add => "add",
        Op::Sub => "sub",
        Op::Mul => "mul",
        Op::Band => "band",
        Op::Bor => "bor",
        Op::Bxor => "bxor",
        Op::Bnot => "bnot",
        Op::Shl => "shl",
        Op::Shr => "shr",
        Op::Sar => "sar",
        Op::Slice { .. } => "slice",
        Op::Cat => "cat",
        Op::Zext { .. } => "zext",
        Op::Sext { .. } => "sext",
        Op::Ite => "ite",
        Op::Get { .. } => "get",
    }
}

/// The operation that a word begins, with zeros for its numbers; none where it begins none.
/// `get` is a form of its own.
pub fn op_of_word(word: &str) -> Option<Op>
    ensures { result ≡ op_of_word word.now }
{
    match word {
        "not" => Some(Op::Not),
        "and" => Some(Op::And),
        "or" => Some(Op::Or),
        "eq" => Some(Op::Eq),
        "ult" => Some(Op::Ult),
        "ule" => Some(Op::Ule),
        "slt" => Some(Op::Slt),
        "sle" => Some(Op::Sle),
        "add" => Some(Op::Add),
        "sub" => Some(Op::Sub),
        "mul" => Some(Op::Mul),
        "band" => Some(Op::Band),
        "bor" => Some(Op::Bor),
        "bxor" => Some(Op::Bxor),
        "bnot" => Some(Op::Bnot),
        "shl" => Some(Op::Shl),
        "shr" => Some(Op::Shr),
        "sar" => Some(Op::Sar),
        "slice" => Some(Op::Slice { hi: 0, lo: 0 }),
        "cat" => Some(Op::Cat),
        "zext" => Some(Op::Zext { width: 0 }),
        "sext" => Some(Op::Sext { width: 0 }),
        "ite" => Some(Op::Ite),
        _ => None,
    }
}

/// The numbers of an operation.
pub fn numbers_of_op(op: Op) -> OpNumbers
    ensures { numbers_in result ≡ numbers_of_op op }
{
    match op {
        Op::Slice { hi, lo } => OpNumbers::Two(hi, lo),
        Op::Zext { width } | Op::Sext { width } => OpNumbers::One(width),
        _ => OpNumbers::Zero,
    }
}

/// The operation with these numbers in place of its own; as it is where it has not as many.
pub fn with_numbers(op: Op, numbers: OpNumbers) -> Op
    ensures { result ≡ with_numbers op (numbers_in numbers) }
{
    match (op, numbers) {
        (Op::Slice { .. }, OpNumbers::Two(hi, lo)) => Op::Slice { hi, lo },
        (Op::Zext { .. }, OpNumbers::One(width)) => Op::Zext { width },
        (Op::Sext { .. }, OpNumbers::One(width)) => Op::Sext { width },
        _ => op,
    }
}

/// How many arguments an operation takes.
pub fn arity_of(op: Op) -> usize
    ensures { result ≡ arity_of op }
{
    match op {
        Op::Not
        | Op::Bnot
        | Op::Slice { .. }
        | Op::Zext { .. }
        | Op::Sext { .. }
        | Op::Get { .. } => 1,
        Op::Ite => 3,
        _ => 2,
    }
}

/// Whether an operation is written with its word, its numbers and its arguments: all but `get`.
pub fn is_written(op: Op) -> bool
    ensures { result ≡ is_written op }
{
    !matches!(op, Op::Get { .. })
}

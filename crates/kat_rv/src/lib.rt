//! Instructions of the RV32I base, of its CSRs and of the machine level, and the words that encode
//! them. The table of encodings is a definition on words, by quotients and remainders; the calls
//! are proved to follow it, and to be inverse to each other.
#![tactic(auto)]

mod decode;
mod encode;
mod instr;
mod numbers;
mod parts;
#[cfg(test)]
mod tests;
mod text;

pub use decode::decode_word;
pub use encode::word_of;
pub use instr::Instr;
pub use numbers::{
    Amount, BranchOffset, Csr, Even, Immediate, JumpOffset, Number, Register, Signed, Unsigned,
    Upper,
};
pub use text::word_text;

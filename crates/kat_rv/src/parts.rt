//! The parts of a word, and the numbers that lie in them.

ghost use Rattle.std.specs.Prelude.{◌≡◌, ◌^◌, ◌+◌, ◌<◌, ◌%◌, pos};
ghost use Rattle.kat_rv.specs.Decoding.{immediate_i, immediate_s, offset_b, offset_j};
ghost use Rattle.kat_rv.specs.Parts.{AreParts, joined, number_b, number_i, number_j, number_s};
ghost use Rattle.kat_rv.specs.Parts.{number_u, parts_of};

use crate::numbers::{
    Amount, BranchOffset, Csr, Immediate, JumpOffset, Register, Upper, number_of,
};

/// The six parts of a word: opcode 6:0, rd 11:7, funct3 14:12, rs1 19:15, rs2 24:20, funct7 31:25.
#[derive(Drop)]
pub(crate) struct Parts {
    pub(crate) opcode: u32,
    pub(crate) rd: u32,
    pub(crate) funct3: u32,
    pub(crate) rs1: u32,
    pub(crate) rs2: u32,
    pub(crate) funct7: u32,
}

impl Parts {
    /// The parts of a word.
    pub(crate) fn of(word: u32) -> Parts
        ensures parts { result ≡ parts_of word }
        ensures held { AreParts result }
    {
        Parts {
            opcode: word & 0x7f,
            rd: word >> 7 & 0x1f,
            funct3: word >> 12 & 0x7,
            rs1: word >> 15 & 0x1f,
            rs2: word >> 20 & 0x1f,
            funct7: word >> 25,
        }
    }

    /// The word with these parts.
    pub(crate) fn joined(&self) -> u32
        requires { AreParts self.now }
        ensures { result ≡ joined self.now }
    {
        let low = self.opcode | self.rd << 7 | self.funct3 << 12;
        low | self.rs1 << 15 | self.rs2 << 20 | self.funct7 << 25
    }

    /// The register in 11:7.
    pub(crate) fn rd(&self) -> Register
        requires { AreParts self.now }
        ensures { result ≡ self.now.rd }
    {
        Register::new(self.rd)
    }

    /// The register in 19:15.
    pub(crate) fn rs1(&self) -> Register
        requires { AreParts self.now }
        ensures { result ≡ self.now.rs1 }
    {
        Register::new(self.rs1)
    }

    /// The register in 24:20.
    pub(crate) fn rs2(&self) -> Register
        requires { AreParts self.now }
        ensures { result ≡ self.now.rs2 }
    {
        Register::new(self.rs2)
    }

    /// The amount in 24:20.
    pub(crate) fn amount(&self) -> Amount
        requires { AreParts self.now }
        ensures { result ≡ pos self.now.rs2 }
    {
        Amount::new(self.rs2 as i32)
    }

    /// The CSR in 31:20.
    pub(crate) fn csr(&self) -> Csr
        requires { AreParts self.now }
        ensures { result ≡ number_i self.now }
    {
        Csr::new(self.funct7 << 5 | self.rs2)
    }

    /// The immediate in 31:20.
    pub(crate) fn immediate_i(&self) -> Immediate
        requires { AreParts self.now }
        ensures { result ≡ immediate_i self.now }
    {
        Immediate::new(number_of(1 << 11, self.funct7 << 5 | self.rs2))
    }

    /// The immediate in 31:25 and 11:7.
    pub(crate) fn immediate_s(&self) -> Immediate
        requires { AreParts self.now }
        ensures { result ≡ immediate_s self.now }
    {
        Immediate::new(number_of(1 << 11, self.funct7 << 5 | self.rd))
    }

    /// The upper 20 bits.
    pub(crate) fn upper(&self) -> Upper
        requires { AreParts self.now }
        ensures { result ≡ pos (number_u self.now) }
    {
        Upper::new(self.number_u() as i32)
    }

    /// The offset of a branch: 31, 7, 30:25, 11:8 and a zero.
    pub(crate) fn offset_b(&self) -> BranchOffset
        requires { AreParts self.now }
        ensures { result ≡ offset_b self.now }
    {
        BranchOffset::new(number_of(1 << 12, self.number_b()))
    }

    /// The offset of a jump: 31, 19:12, 20, 30:21 and a zero.
    pub(crate) fn offset_j(&self) -> JumpOffset
        requires { AreParts self.now }
        ensures { result ≡ offset_j self.now }
    {
        JumpOffset::new(number_of(1 << 20, self.number_j()))
    }

    /// The upper 20 bits as they stand.
    fn number_u(&self) -> u32
        requires { AreParts self.now }
        ensures number { result ≡ number_u self.now }
        ensures below { result < 1048576 }
    {
        let low = self.funct3 | self.rs1 << 3;
        low | self.rs2 << 8 | self.funct7 << 13
    }

    /// The offset of a branch without its sign.
    fn number_b(&self) -> u32
        requires { AreParts self.now }
        ensures number { result ≡ number_b self.now }
        ensures below { result < 8192 }
        ensures even { result % 2 ≡ 0 }
    {
        let low = self.rd >> 1 << 1 | (self.funct7 & 0x3f) << 5;
        low | (self.rd & 1) << 11 | self.funct7 >> 6 << 12
    }

    /// The offset of a jump without its sign.
    fn number_j(&self) -> u32
        requires { AreParts self.now }
        ensures number { result ≡ number_j self.now }
        ensures below { result < 2097152 }
        ensures even { result % 2 ≡ 0 }
    {
        let low = self.rs2 >> 1 << 1 | (self.funct7 & 0x3f) << 5;
        let middle = low | (self.rs2 & 1) << 11 | self.funct3 << 12;
        middle | self.rs1 << 15 | self.funct7 >> 6 << 20
    }
}

//! The instructions.

use crate::numbers::{Amount, BranchOffset, Csr, Immediate, JumpOffset, Register, Upper};

/// An instruction of the RV32I base, of its CSRs or of the machine level, with the numbers of its
/// fields. Each field has a type that keeps that it is a number which the encoding holds.
///
/// Source: The RISC-V Instruction Set Manual, volume I, the chapters "RV32I Base Integer
/// Instruction Set", "Zicsr" and "RV32/64G Instruction Set Listings"; of `Mret` volume II, the
/// chapter "Machine-Level ISA".
#[derive(Debug, Drop)]
pub enum Instr {
    /// Load upper immediate.
    Lui {
        rd: Register,
        imm: Upper,
    },
    /// Add upper immediate to pc.
    Auipc {
        rd: Register,
        imm: Upper,
    },
    /// Jump and link.
    Jal {
        rd: Register,
        imm: JumpOffset,
    },
    /// Jump and link register.
    Jalr {
        rd: Register,
        rs1: Register,
        imm: Immediate,
    },
    /// Branch if equal.
    Beq {
        rs1: Register,
        rs2: Register,
        imm: BranchOffset,
    },
    /// Branch if not equal.
    Bne {
        rs1: Register,
        rs2: Register,
        imm: BranchOffset,
    },
    /// Branch if less, signed.
    Blt {
        rs1: Register,
        rs2: Register,
        imm: BranchOffset,
    },
    /// Branch if not less, signed.
    Bge {
        rs1: Register,
        rs2: Register,
        imm: BranchOffset,
    },
    /// Branch if less, unsigned.
    Bltu {
        rs1: Register,
        rs2: Register,
        imm: BranchOffset,
    },
    /// Branch if not less, unsigned.
    Bgeu {
        rs1: Register,
        rs2: Register,
        imm: BranchOffset,
    },
    /// Load word.
    Lw {
        rd: Register,
        rs1: Register,
        imm: Immediate,
    },
    /// Store word.
    Sw {
        rs1: Register,
        rs2: Register,
        imm: Immediate,
    },
    /// Add immediate.
    Addi {
        rd: Register,
        rs1: Register,
        imm: Immediate,
    },
    /// Set if less than immediate, signed.
    Slti {
        rd: Register,
        rs1: Register,
        imm: Immediate,
    },
    /// Set if less than immediate, unsigned.
    Sltiu {
        rd: Register,
        rs1: Register,
        imm: Immediate,
    },
    /// Exclusive or with immediate.
    Xori {
        rd: Register,
        rs1: Register,
        imm: Immediate,
    },
    /// Or with immediate.
    Ori {
        rd: Register,
        rs1: Register,
        imm: Immediate,
    },
    /// And with immediate.
    Andi {
        rd: Register,
        rs1: Register,
        imm: Immediate,
    },
    /// Shift left by immediate.
    Slli {
        rd: Register,
        rs1: Register,
        imm: Amount,
    },
    /// Shift right by immediate.
    Srli {
        rd: Register,
        rs1: Register,
        imm: Amount,
    },
    /// Shift right by immediate, keeping the sign.
    Srai {
        rd: Register,
        rs1: Register,
        imm: Amount,
    },
    /// Add.
    Add {
        rd: Register,
        rs1: Register,
        rs2: Register,
    },
    /// Subtract.
    Sub {
        rd: Register,
        rs1: Register,
        rs2: Register,
    },
    /// Shift left.
    Sll {
        rd: Register,
        rs1: Register,
        rs2: Register,
    },
    /// Set if less, signed.
    Slt {
        rd: Register,
        rs1: Register,
        rs2: Register,
    },
    /// Set if less, unsigned.
    Sltu {
        rd: Register,
        rs1: Register,
        rs2: Register,
    },
    /// Exclusive or.
    Xor {
        rd: Register,
        rs1: Register,
        rs2: Register,
    },
    /// Shift right.
    Srl {
        rd: Register,
        rs1: Register,
        rs2: Register,
    },
    /// Shift right, keeping the sign.
    Sra {
        rd: Register,
        rs1: Register,
        rs2: Register,
    },
    /// Or.
    Or {
        rd: Register,
        rs1: Register,
        rs2: Register,
    },
    /// And.
    And {
        rd: Register,
        rs1: Register,
        rs2: Register,
    },
    /// Read and write a CSR.
    Csrrw {
        rd: Register,
        rs1: Register,
        csr: Csr,
    },
    /// Read a CSR and set bits in it.
    Csrrs {
        rd: Register,
        rs1: Register,
        csr: Csr,
    },
    /// Read a CSR and clear bits in it.
    Csrrc {
        rd: Register,
        rs1: Register,
        csr: Csr,
    },
    /// Environment call.
    Ecall,
    /// Return from a trap to machine mode.
    Mret,
}

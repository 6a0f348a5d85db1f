//! The word of an instruction.

ghost use Rattle.std.specs.Prelude.{◌≡◌, ◌<◌, ◌/◌, ◌%◌, Some};
ghost use Rattle.kat_rv.specs.Decoding.{instr_of};
ghost use Rattle.kat_rv.specs.Encoding.{HoldsNumbers, branch_parts, immediate_parts, jump_parts};
ghost use Rattle.kat_rv.specs.Encoding.{parts_of_instr, register_parts, shift_parts, store_parts};
ghost use Rattle.kat_rv.specs.Encoding.{system_parts, upper_parts, word_of, word_parts};
ghost use Rattle.kat_rv.specs.Encoding.{low_part};
ghost use Rattle.kat_rv.specs.Numbers.{IsAmount, IsBranchOffset, IsCsr, IsImmediate};
ghost use Rattle.kat_rv.specs.Numbers.{IsJumpOffset, IsRegister, IsUpper, natural_of};
ghost use Rattle.kat_rv.specs.Numbers.{unsigned_of};
ghost use Rattle.kat_rv.specs.Parts.{AreParts};

use crate::instr::Instr;
use crate::numbers::{Amount, BranchOffset, Csr, Immediate, JumpOffset, Register, Upper};
use crate::parts::Parts;

/// The word that encodes an instruction, from which it is read again.
pub fn word_of(instr: &Instr) -> u32
    ensures word { result ≡ word_of instr.now }
    ensures back { instr_of result ≡ Some instr.now }
{
    parts_of_instr(instr).joined()
}

/// The parts of that word.
fn parts_of_instr(instr: &Instr) -> Parts
    ensures parts { result ≡ parts_of_instr instr.now }
    ensures held { AreParts result }
    ensures numbers { HoldsNumbers instr.now }
{
    match instr {
        Instr::Lui { rd, imm } => word_parts(0x37, rd, imm),
        Instr::Auipc { rd, imm } => word_parts(0x17, rd, imm),
        Instr::Jal { rd, imm } => jump_parts(rd, imm),
        Instr::Jalr { rd, rs1, imm } => immediate_parts(0x67, 0, rd, rs1, imm),
        Instr::Beq { rs1, rs2, imm } => branch_parts(0, rs1, rs2, imm),
        Instr::Bne { rs1, rs2, imm } => branch_parts(1, rs1, rs2, imm),
        Instr::Blt { rs1, rs2, imm } => branch_parts(4, rs1, rs2, imm),
        Instr::Bge { rs1, rs2, imm } => branch_parts(5, rs1, rs2, imm),
        Instr::Bltu { rs1, rs2, imm } => branch_parts(6, rs1, rs2, imm),
        Instr::Bgeu { rs1, rs2, imm } => branch_parts(7, rs1, rs2, imm),
        Instr::Lw { rd, rs1, imm } => immediate_parts(0x03, 2, rd, rs1, imm),
        Instr::Sw { rs1, rs2, imm } => store_parts(rs1, rs2, imm),
        Instr::Addi { rd, rs1, imm } => immediate_parts(0x13, 0, rd, rs1, imm),
        Instr::Slti { rd, rs1, imm } => immediate_parts(0x13, 2, rd, rs1, imm),
        Instr::Sltiu { rd, rs1, imm } => immediate_parts(0x13, 3, rd, rs1, imm),
        Instr::Xori { rd, rs1, imm } => immediate_parts(0x13, 4, rd, rs1, imm),
        Instr::Ori { rd, rs1, imm } => immediate_parts(0x13, 6, rd, rs1, imm),
        Instr::Andi { rd, rs1, imm } => immediate_parts(0x13, 7, rd, rs1, imm),
        Instr::Slli { rd, rs1, imm } => shift_parts(1, 0, rd, rs1, imm),
        Instr::Srli { rd, rs1, imm } => shift_parts(5, 0, rd, rs1, imm),
        Instr::Srai { rd, rs1, imm } => shift_parts(5, 0x20, rd, rs1, imm),
        Instr::Add { rd, rs1, rs2 } => register_parts(0, 0, rd, rs1, rs2),
        Instr::Sub { rd, rs1, rs2 } => register_parts(0, 0x20, rd, rs1, rs2),
        Instr::Sll { rd, rs1, rs2 } => register_parts(1, 0, rd, rs1, rs2),
        Instr::Slt { rd, rs1, rs2 } => register_parts(2, 0, rd, rs1, rs2),
        Instr::Sltu { rd, rs1, rs2 } => register_parts(3, 0, rd, rs1, rs2),
        Instr::Xor { rd, rs1, rs2 } => register_parts(4, 0, rd, rs1, rs2),
        Instr::Srl { rd, rs1, rs2 } => register_parts(5, 0, rd, rs1, rs2),
        Instr::Sra { rd, rs1, rs2 } => register_parts(5, 0x20, rd, rs1, rs2),
        Instr::Or { rd, rs1, rs2 } => register_parts(6, 0, rd, rs1, rs2),
        Instr::And { rd, rs1, rs2 } => register_parts(7, 0, rd, rs1, rs2),
        Instr::Csrrw { rd, rs1, csr } => csr_parts(1, rd, rs1, csr),
        Instr::Csrrs { rd, rs1, csr } => csr_parts(2, rd, rs1, csr),
        Instr::Csrrc { rd, rs1, csr } => csr_parts(3, rd, rs1, csr),
        Instr::Ecall => system_parts(0, 0),
        Instr::Mret => system_parts(2, 24),
    }
}

/// Of two registers and a result.
fn register_parts(funct3: u32, funct7: u32, rd: &Register, rs1: &Register, rs2: &Register) -> Parts
    requires funct3 { funct3 < 8 }
    requires funct7 { funct7 < 128 }
    ensures parts { result ≡ register_parts funct3 funct7 rd.now rs1.now rs2.now }
    ensures held { AreParts result }
    ensures numbers { IsRegister rd.now × IsRegister rs1.now × IsRegister rs2.now }
{
    Parts {
        opcode: 0x33,
        rd: rd.number(),
        funct3,
        rs1: rs1.number(),
        rs2: rs2.number(),
        funct7,
    }
}

/// Of a register, a result and an immediate in 31:20.
fn immediate_parts(
    opcode: u32,
    funct3: u32,
    rd: &Register,
    rs1: &Register,
    imm: &Immediate,
) -> Parts
    requires opcode { opcode < 128 }
    requires funct3 { funct3 < 8 }
    ensures parts { result ≡ immediate_parts opcode funct3 rd.now rs1.now imm.now }
    ensures held { AreParts result }
    ensures numbers { IsRegister rd.now × IsRegister rs1.now × IsImmediate imm.now }
{
    upper_parts(opcode, funct3, rd, rs1, imm.bits())
}

/// Of a register, a result and a CSR.
fn csr_parts(funct3: u32, rd: &Register, rs1: &Register, csr: &Csr) -> Parts
    requires { funct3 < 8 }
    ensures parts { result ≡ upper_parts 0x73 funct3 rd.now rs1.now csr.now }
    ensures held { AreParts result }
    ensures numbers { IsRegister rd.now × IsRegister rs1.now × IsCsr csr.now }
{
    upper_parts(0x73, funct3, rd, rs1, csr.number())
}

/// Of a register, a result and a number of 12 bits in 31:20.
fn upper_parts(opcode: u32, funct3: u32, rd: &Register, rs1: &Register, number: u32) -> Parts
    requires opcode { opcode < 128 }
    requires funct3 { funct3 < 8 }
    requires number { number < 4096 }
    ensures parts { result ≡ upper_parts opcode funct3 rd.now rs1.now number }
    ensures held { AreParts result }
    ensures numbers { IsRegister rd.now × IsRegister rs1.now }
{
    Parts {
        opcode,
        rd: rd.number(),
        funct3,
        rs1: rs1.number(),
        rs2: number & 0x1f,
        funct7: number >> 5,
    }
}

/// Of a shift by an amount.
fn shift_parts(funct3: u32, funct7: u32, rd: &Register, rs1: &Register, imm: &Amount) -> Parts
    requires funct3 { funct3 < 8 }
    requires funct7 { funct7 < 128 }
    ensures parts { result ≡ shift_parts funct3 funct7 rd.now rs1.now imm.now }
    ensures held { AreParts result }
    ensures numbers { IsRegister rd.now × IsRegister rs1.now × IsAmount imm.now }
{
    Parts {
        opcode: 0x13,
        rd: rd.number(),
        funct3,
        rs1: rs1.number(),
        rs2: imm.bits(),
        funct7,
    }
}

/// Of a store.
fn store_parts(rs1: &Register, rs2: &Register, imm: &Immediate) -> Parts
    ensures parts { result ≡ store_parts rs1.now rs2.now (unsigned_of 2048 imm.now) }
    ensures held { AreParts result }
    ensures numbers { IsRegister rs1.now × IsRegister rs2.now × IsImmediate imm.now }
{
    let number = imm.bits();
    Parts {
        opcode: 0x23,
        rd: number & 0x1f,
        funct3: 2,
        rs1: rs1.number(),
        rs2: rs2.number(),
        funct7: number >> 5,
    }
}

/// Of a branch.
fn branch_parts(funct3: u32, rs1: &Register, rs2: &Register, imm: &BranchOffset) -> Parts
    requires { funct3 < 8 }
    ensures parts { result ≡ branch_parts funct3 rs1.now rs2.now (unsigned_of 4096 imm.now) }
    ensures held { AreParts result }
    ensures numbers { IsRegister rs1.now × IsRegister rs2.now × IsBranchOffset imm.now }
{
    let number = imm.bits();
    Parts {
        opcode: 0x63,
        rd: low_part(number),
        funct3,
        rs1: rs1.number(),
        rs2: rs2.number(),
        funct7: number >> 12 << 6 | middle_bits(number),
    }
}

/// Of a jump.
fn jump_parts(rd: &Register, imm: &JumpOffset) -> Parts
    ensures parts { result ≡ jump_parts rd.now (unsigned_of 1048576 imm.now) }
    ensures held { AreParts result }
    ensures numbers { IsRegister rd.now × IsJumpOffset imm.now }
{
    let number = imm.bits();
    Parts {
        opcode: 0x6f,
        rd: rd.number(),
        funct3: number >> 12 & 0x7,
        rs1: number >> 15 & 0x1f,
        rs2: low_part(number),
        funct7: number >> 20 << 6 | middle_bits(number),
    }
}

/// Of the upper 20 bits of a word.
fn word_parts(opcode: u32, rd: &Register, imm: &Upper) -> Parts
    requires { opcode < 128 }
    ensures parts { result ≡ word_parts opcode rd.now (natural_of imm.now) }
    ensures held { AreParts result }
    ensures numbers { IsRegister rd.now × IsUpper imm.now }
{
    let number = imm.bits();
    Parts {
        opcode,
        rd: rd.number(),
        funct3: number & 0x7,
        rs1: number >> 3 & 0x1f,
        rs2: number >> 8 & 0x1f,
        funct7: number >> 13,
    }
}

/// Of a whole word.
fn system_parts(rs2: u32, funct7: u32) -> Parts
    requires rs2 { rs2 < 32 }
    requires funct7 { funct7 < 128 }
    ensures parts { result ≡ system_parts rs2 funct7 }
    ensures held { AreParts result }
{
    Parts {
        opcode: 0x73,
        rd: 0,
        funct3: 0,
        rs1: 0,
        rs2,
        funct7,
    }
}

/// Bits 10:5 of an offset, in 30:25.
fn middle_bits(number: u32) -> u32
    ensures { result ≡ number / 32 % 64 }
{
    number >> 5 & 0x3f
}

/// Bits 4:1 and 11 of an offset, as rd or rs2 holds them.
fn low_part(number: u32) -> u32
    ensures part { result ≡ low_part number }
    ensures below { result < 32 }
{
    (number >> 1 & 0xf) << 1 | number >> 11 & 1
}

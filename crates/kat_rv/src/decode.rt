//! The instruction of a word.

ghost use Rattle.std.specs.Prelude.{◌≡◌, IfSome};
ghost use Rattle.kat_rv.specs.Decoding.{branch_of, immediate_of, instr_in, instr_of, jump_of};
ghost use Rattle.kat_rv.specs.Decoding.{load_of, register_of, shift_of, store_of, system_of};
ghost use Rattle.kat_rv.specs.Decoding.{whole_of};
ghost use Rattle.kat_rv.specs.Encoding.{word_of};
ghost use Rattle.kat_rv.specs.Parts.{AreParts};

use crate::instr::Instr;
use crate::parts::Parts;

/// The instruction that a word encodes; none exactly where the table has no row for it.
pub fn decode_word(word: u32) -> Option<Instr>
    ensures row { result ≡ instr_of word }
    ensures back { IfSome result (λ instr. word_of instr ≡ word) }
{
    instr_in(word, &Parts::of(word))
}

/// The instruction of a word with these parts.
fn instr_in(word: u32, parts: &Parts) -> Option<Instr>
    requires { AreParts parts.now }
    ensures { result ≡ instr_in word parts.now }
{
    match parts.opcode {
        0x37 => Some(Instr::Lui {
            rd: parts.rd(),
            imm: parts.upper(),
        }),
        0x17 => Some(Instr::Auipc {
            rd: parts.rd(),
            imm: parts.upper(),
        }),
        0x6f => Some(Instr::Jal {
            rd: parts.rd(),
            imm: parts.offset_j(),
        }),
        0x67 => jump_of(parts),
        0x63 => branch_of(parts),
        0x03 => load_of(parts),
        0x23 => store_of(parts),
        0x13 => immediate_of(parts),
        0x33 => register_of(parts),
        0x73 => system_of(word, parts),
        _ => None,
    }
}

/// The jump to a register of a word of opcode 67.
fn jump_of(parts: &Parts) -> Option<Instr>
    requires { AreParts parts.now }
    ensures { result ≡ jump_of parts.now }
{
    let (rd, rs1, imm) = (parts.rd(), parts.rs1(), parts.immediate_i());
    match parts.funct3 {
        0 => Some(Instr::Jalr { rd, rs1, imm }),
        _ => None,
    }
}

/// The load of a word of opcode 03.
fn load_of(parts: &Parts) -> Option<Instr>
    requires { AreParts parts.now }
    ensures { result ≡ load_of parts.now }
{
    let (rd, rs1, imm) = (parts.rd(), parts.rs1(), parts.immediate_i());
    match parts.funct3 {
        2 => Some(Instr::Lw { rd, rs1, imm }),
        _ => None,
    }
}

/// The store of a word of opcode 23.
fn store_of(parts: &Parts) -> Option<Instr>
    requires { AreParts parts.now }
    ensures { result ≡ store_of parts.now }
{
    let (rs1, rs2, imm) = (parts.rs1(), parts.rs2(), parts.immediate_s());
    match parts.funct3 {
        2 => Some(Instr::Sw { rs1, rs2, imm }),
        _ => None,
    }
}

/// The branch of a word of opcode 63.
fn branch_of(parts: &Parts) -> Option<Instr>
    requires { AreParts parts.now }
    ensures { result ≡ branch_of parts.now }
{
    let (rs1, rs2, imm) = (parts.rs1(), parts.rs2(), parts.offset_b());
    match parts.funct3 {
        0 => Some(Instr::Beq { rs1, rs2, imm }),
        1 => Some(Instr::Bne { rs1, rs2, imm }),
        4 => Some(Instr::Blt { rs1, rs2, imm }),
        5 => Some(Instr::Bge { rs1, rs2, imm }),
        6 => Some(Instr::Bltu { rs1, rs2, imm }),
        7 => Some(Instr::Bgeu { rs1, rs2, imm }),
        _ => None,
    }
}

/// The instruction of a word of opcode 13.
fn immediate_of(parts: &Parts) -> Option<Instr>
    requires { AreParts parts.now }
    ensures { result ≡ immediate_of parts.now }
{
    let (rd, rs1, imm) = (parts.rd(), parts.rs1(), parts.immediate_i());
    match parts.funct3 {
        0 => Some(Instr::Addi { rd, rs1, imm }),
        2 => Some(Instr::Slti { rd, rs1, imm }),
        3 => Some(Instr::Sltiu { rd, rs1, imm }),
        4 => Some(Instr::Xori { rd, rs1, imm }),
        6 => Some(Instr::Ori { rd, rs1, imm }),
        7 => Some(Instr::Andi { rd, rs1, imm }),
        _ => shift_of(parts),
    }
}

/// The shift by an amount of a word of opcode 13.
fn shift_of(parts: &Parts) -> Option<Instr>
    requires { AreParts parts.now }
    ensures { result ≡ shift_of parts.now }
{
    let (rd, rs1, imm) = (parts.rd(), parts.rs1(), parts.amount());
    match (parts.funct3, parts.funct7) {
        (1, 0) => Some(Instr::Slli { rd, rs1, imm }),
        (5, 0) => Some(Instr::Srli { rd, rs1, imm }),
        (5, 0x20) => Some(Instr::Srai { rd, rs1, imm }),
        _ => None,
    }
}

/// The instruction of a word of opcode 33.
fn register_of(parts: &Parts) -> Option<Instr>
    requires { AreParts parts.now }
    ensures { result ≡ register_of parts.now }
{
    let (rd, rs1, rs2) = (parts.rd(), parts.rs1(), parts.rs2());
    match (parts.funct3, parts.funct7) {
        (0, 0) => Some(Instr::Add { rd, rs1, rs2 }),
        (0, 0x20) => Some(Instr::Sub { rd, rs1, rs2 }),
        (1, 0) => Some(Instr::Sll { rd, rs1, rs2 }),
        (2, 0) => Some(Instr::Slt { rd, rs1, rs2 }),
        (3, 0) => Some(Instr::Sltu { rd, rs1, rs2 }),
        (4, 0) => Some(Instr::Xor { rd, rs1, rs2 }),
        (5, 0) => Some(Instr::Srl { rd, rs1, rs2 }),
        (5, 0x20) => Some(Instr::Sra { rd, rs1, rs2 }),
        (6, 0) => Some(Instr::Or { rd, rs1, rs2 }),
        (7, 0) => Some(Instr::And { rd, rs1, rs2 }),
        _ => None,
    }
}

/// The instruction of a word of opcode 73.
fn system_of(word: u32, parts: &Parts) -> Option<Instr>
    requires { AreParts parts.now }
    ensures { result ≡ system_of word parts.now }
{
    let (rd, rs1, csr) = (parts.rd(), parts.rs1(), parts.csr());
    match parts.funct3 {
        0 => whole_of(word),
        1 => Some(Instr::Csrrw { rd, rs1, csr }),
        2 => Some(Instr::Csrrs { rd, rs1, csr }),
        3 => Some(Instr::Csrrc { rd, rs1, csr }),
        _ => None,
    }
}

/// The instruction that is one whole word.
fn whole_of(word: u32) -> Option<Instr>
    ensures { result ≡ whole_of word }
{
    match word {
        0x0000_0073 => Some(Instr::Ecall),
        0x3020_0073 => Some(Instr::Mret),
        _ => None,
    }
}

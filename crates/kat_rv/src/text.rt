//! The text of a word.

ghost use Rattle.std.specs.Prelude.{◌≡◌, ◌++◌, IfOk, OnOk, Some};
ghost use Rattle.kat_rv.specs.Decoding.{instr_of};
ghost use Rattle.kat_rv.specs.Written.{compared, csr_text, immediate, immediate_text, name_of};
ghost use Rattle.kat_rv.specs.Written.{nothing, operands_of, operands_text, register_text};
ghost use Rattle.kat_rv.specs.Written.{registers, status, text_of, upper};

use crate::decode::decode_word;
use crate::instr::Instr;
use kat_text::{Text, TextBuilder};
use std::alloc::{AllocError, Global};

/// The text of a word: the name of its instruction in lower case, and the operands in the order rd,
/// rs1, rs2, CSR number, immediate, in decimal digits, registers as `x1`, each behind one space;
/// `illegal` where the table has no row for the word.
pub fn word_text(alloc: Global, word: u32) -> Result<Text, AllocError>
    ensures { IfOk result (λ t. t ≡ text_of (instr_of word)) }
{
    let mut out = TextBuilder::new(alloc);
    match decode_word(word) {
        Some(instr) => push_instr(&mut out, &instr)?,
        None => out.push_text("illegal")?,
    }
    Ok(out.into_text())
}

/// The name and the operands.
fn push_instr(out: &mut TextBuilder, instr: &Instr) -> Result<(), AllocError>
    ensures { OnOk result (out.new ≡ out.old ++ text_of (Some instr.now)) }
{
    out.push_text(name_of(instr))?;
    push_operands(out, &operands_of(instr))
}

/// The operands of an instruction, each where it has it.
#[derive(Drop)]
struct Operands {
    rd: Option<u32>,
    rs1: Option<u32>,
    rs2: Option<u32>,
    csr: Option<u32>,
    imm: Option<i32>,
}

/// The operands in their order.
fn push_operands(out: &mut TextBuilder, operands: &Operands) -> Result<(), AllocError>
    ensures { OnOk result (out.new ≡ out.old ++ operands_text operands.now) }
{
    push_register(out, operands.rd)?;
    push_register(out, operands.rs1)?;
    push_register(out, operands.rs2)?;
    push_csr(out, operands.csr)?;
    push_immediate(out, operands.imm)
}

/// A space and a register.
fn push_register(out: &mut TextBuilder, number: Option<u32>) -> Result<(), AllocError>
    ensures { OnOk result (out.new ≡ out.old ++ register_text number) }
{
    match number {
        Some(number) => {
            out.push_part("x")?;
            out.push_decimal(u64::from(number))
        }
        None => Ok(()),
    }
}

/// A space and the number of a CSR.
fn push_csr(out: &mut TextBuilder, number: Option<u32>) -> Result<(), AllocError>
    ensures { OnOk result (out.new ≡ out.old ++ csr_text number) }
{
    match number {
        Some(number) => out.push_decimal_part(u64::from(number)),
        None => Ok(()),
    }
}

/// A space and an immediate.
fn push_immediate(out: &mut TextBuilder, number: Option<i32>) -> Result<(), AllocError>
    ensures { OnOk result (out.new ≡ out.old ++ immediate_text number) }
{
    match number {
        Some(number) if number < 0 => {
            out.push_part("-")?;
            out.push_decimal(u64::from(number.unsigned_abs()))
        }
        Some(number) => out.push_decimal_part(number as u64),
        None => Ok(()),
    }
}

/// The operands of an instruction.
fn operands_of(instr: &Instr) -> Operands
    ensures { result ≡ operands_of instr.now }
{
    match instr {
        Instr::Lui { rd, imm } | Instr::Auipc { rd, imm } => upper(rd.number(), imm.number()),
        Instr::Jal { rd, imm } => upper(rd.number(), imm.number()),
        Instr::Jalr { rd, rs1, imm }
        | Instr::Lw { rd, rs1, imm }
        | Instr::Addi { rd, rs1, imm }
        | Instr::Slti { rd, rs1, imm }
        | Instr::Sltiu { rd, rs1, imm }
        | Instr::Xori { rd, rs1, imm }
        | Instr::Ori { rd, rs1, imm }
        | Instr::Andi { rd, rs1, imm } => immediate(rd.number(), rs1.number(), imm.number()),
        Instr::Slli { rd, rs1, imm }
        | Instr::Srli { rd, rs1, imm }
        | Instr::Srai { rd, rs1, imm } => immediate(rd.number(), rs1.number(), imm.number()),
        Instr::Beq { rs1, rs2, imm }
        | Instr::Bne { rs1, rs2, imm }
        | Instr::Blt { rs1, rs2, imm }
        | Instr::Bge { rs1, rs2, imm }
        | Instr::Bltu { rs1, rs2, imm }
        | Instr::Bgeu { rs1, rs2, imm } => compared(rs1.number(), rs2.number(), imm.number()),
        Instr::Sw { rs1, rs2, imm } => compared(rs1.number(), rs2.number(), imm.number()),
        Instr::Add { rd, rs1, rs2 }
        | Instr::Sub { rd, rs1, rs2 }
        | Instr::Sll { rd, rs1, rs2 }
        | Instr::Slt { rd, rs1, rs2 }
        | Instr::Sltu { rd, rs1, rs2 }
        | Instr::Xor { rd, rs1, rs2 }
        | Instr::Srl { rd, rs1, rs2 }
        | Instr::Sra { rd, rs1, rs2 }
        | Instr::Or { rd, rs1, rs2 }
        | Instr::And { rd, rs1, rs2 } => registers(rd.number(), rs1.number(), rs2.number()),
        Instr::Csrrw { rd, rs1, csr }
        | Instr::Csrrs { rd, rs1, csr }
        | Instr::Csrrc { rd, rs1, csr } => status(rd.number(), rs1.number(), csr.number()),
        Instr::Ecall | Instr::Mret => nothing(),
    }
}

/// A result and two registers.
fn registers(rd: u32, rs1: u32, rs2: u32) -> Operands
    ensures { result ≡ registers rd rs1 rs2 }
{
    Operands {
        rd: Some(rd),
        rs1: Some(rs1),
        rs2: Some(rs2),
        csr: None,
        imm: None,
    }
}

/// A result, a register and an immediate.
fn immediate(rd: u32, rs1: u32, imm: i32) -> Operands
    ensures { result ≡ immediate rd rs1 imm }
{
    Operands {
        rd: Some(rd),
        rs1: Some(rs1),
        rs2: None,
        csr: None,
        imm: Some(imm),
    }
}

/// Two registers and an immediate.
fn compared(rs1: u32, rs2: u32, imm: i32) -> Operands
    ensures { result ≡ compared rs1 rs2 imm }
{
    Operands {
        rd: None,
        rs1: Some(rs1),
        rs2: Some(rs2),
        csr: None,
        imm: Some(imm),
    }
}

/// A result and an immediate.
fn upper(rd: u32, imm: i32) -> Operands
    ensures { result ≡ upper rd imm }
{
    Operands {
        rd: Some(rd),
        rs1: None,
        rs2: None,
        csr: None,
        imm: Some(imm),
    }
}

/// A result, a register and a CSR.
fn status(rd: u32, rs1: u32, csr: u32) -> Operands
    ensures { result ≡ status rd rs1 csr }
{
    Operands {
        rd: Some(rd),
        rs1: Some(rs1),
        rs2: None,
        csr: Some(csr),
        imm: None,
    }
}

/// No operand.
fn nothing() -> Operands
    ensures { result ≡ nothing }
{
    Operands {
        rd: None,
        rs1: None,
        rs2: None,
        csr: None,
        imm: None,
    }
}

/// The name of an instruction.
fn name_of(instr: &Instr) -> &'static str
    ensures { result.now ≡ name_of instr.now }
{
    match instr {
        Instr::Lui { .. } => "lui",
        Instr::Auipc { .. } => "auipc",
        Instr::Jal { .. } => "jal",
        Instr::Jalr { .. } => "jalr",
        Instr::Beq { .. } => "beq",
        Instr::Bne { .. } => "bne",
        Instr::Blt { .. } => "blt",
        Instr::Bge { .. } => "bge",
        Instr::Bltu { .. } => "bltu",
        Instr::Bgeu { .. } => "bgeu",
        Instr::Lw { .. } => "lw",
        Instr::Sw { .. } => "sw",
        Instr::Addi { .. } => "addi",
        Instr::Slti { .. } => "slti",
        Instr::Sltiu { .. } => "sltiu",
        Instr::Xori { .. } => "xori",
        Instr::Ori { .. } => "ori",
        Instr::Andi { .. } => "andi",
        Instr::Slli { .. } => "slli",
        Instr::Srli { .. } => "srli",
        Instr::Srai { .. } => "srai",
        Instr::Add { .. } => "add",
        Instr::Sub { .. } => "sub",
        Instr::Sll { .. } => "sll",
        Instr::Slt { .. } => "slt",
        Instr::Sltu { .. } => "sltu",
        Instr::Xor { .. } => "xor",
        Instr::Srl { .. } => "srl",
        Instr::Sra { .. } => "sra",
        Instr::Or { .. } => "or",
        Instr::And { .. } => "and",
        Instr::Csrrw { .. } => "csrrw",
        Instr::Csrrs { .. } => "csrrs",
        Instr::Csrrc { .. } => "csrrc",
        Instr::Ecall => "ecall",
        Instr::Mret => "mret",
    }
}

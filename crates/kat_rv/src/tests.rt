//! Words against their texts. The words of the rows that have an instruction are what the GNU
//! assembler makes of it.

use crate::{decode_word, word_of, word_text};
use std::alloc::Global;
use std::test::Fail;

/// Words in hexadecimal digits, and their texts.
const TABLE: &str = "\
000040b7 lui x1 4
ffffffb7 lui x31 1048575
00000037 lui x0 0
80000297 auipc x5 524288
00000097 auipc x1 0
0020006f jal x0 2
001000ef jal x1 2048
fffff0ef jal x1 -2
7fffffef jal x31 1048574
8000006f jal x0 -1048576
000010ef jal x1 4096
000100e7 jalr x1 x2 0
80008067 jalr x0 x1 -2048
7fff8fe7 jalr x31 x31 2047
fe208ee3 beq x1 x2 -4
000000e3 beq x0 x0 2048
7fef8fe3 beq x31 x30 4094
80009063 bne x1 x0 -4096
00629863 bne x5 x6 16
0020cf63 blt x1 x2 30
fe41d1e3 bge x3 x4 -30
4062e063 bltu x5 x6 1024
c083f0e3 bgeu x7 x8 -1024
ffc0a103 lw x2 x1 -4
7ff02f83 lw x31 x0 2047
80012083 lw x1 x2 -2048
fe20ae23 sw x1 x2 -4
7e0fafa3 sw x31 x0 2047
81f02023 sw x0 x31 -2048
00112fa3 sw x2 x1 31
04000093 addi x1 x0 64
00000013 addi x0 x0 0
fff10113 addi x2 x2 -1
80008f93 addi x31 x1 -2048
fff12093 slti x1 x2 -1
7ff23193 sltiu x3 x4 2047
fff34293 xori x5 x6 -1
0ff46393 ori x7 x8 255
ff057493 andi x9 x10 -16
00011093 slli x1 x2 0
01f11093 slli x1 x2 31
00125193 srli x3 x4 1
01f25193 srli x3 x4 31
41f35293 srai x5 x6 31
40035293 srai x5 x6 0
003100b3 add x1 x2 x3
01ff8fb3 add x31 x31 x31
40628233 sub x4 x5 x6
009413b3 sll x7 x8 x9
00c5a533 slt x10 x11 x12
00f736b3 sltu x13 x14 x15
0128c833 xor x16 x17 x18
015a59b3 srl x19 x20 x21
418bdb33 sra x22 x23 x24
01bd6cb3 or x25 x26 x27
01eefe33 and x28 x29 x30
30509073 csrrw x0 x1 773
ffff9ff3 csrrw x31 x31 4095
300020f3 csrrs x1 x0 768
3411b173 csrrc x2 x3 833
00000073 ecall
30200073 mret
00000000 illegal
ffffffff illegal
000000f3 illegal
00008073 illegal
00100073 illegal
10500073 illegal
30200173 illegal
000110e7 illegal
0000a063 illegal
00003063 illegal
00008003 illegal
0000b003 illegal
00009023 illegal
00001023 illegal
40009093 illegal
02009093 illegal
2000d093 illegal
022081b3 illegal
402091b3 illegal
60209033 illegal
0000c073 illegal
0000000f illegal
";

/// Whether the word of the row has its text, and is the word of its instruction.
fn holds(alloc: Global, word: u32, text: &str) -> Result<bool, Fail> {
    let written = word_text(alloc, word)?;
    let back = match decode_word(word) {
        Some(instr) => word_of(&instr) == word,
        None => true,
    };
    Ok(back && written.as_str() == text)
}

#[test]
fn words_and_their_texts(rt: HostRuntime) -> Result<(), Fail> {
    let alloc = rt.alloc();
    for line in TABLE.lines() {
        let (digits, text) = line.split_once(" ").ok_or("a row")?;
        let word = u32::from_str_radix(digits, 16)?;
        assert!(rt; holds(alloc, word, text)?, "{line}");
    }
    Ok(())
}

use std::alloc::Global;
use std::process::Abort;
use std::test::Fail;
use tg_asm::{AsmFault, assemble};
use tg_isa::Image;

// In each row: what a text is, before the first `|`, and the text. What it is: the rule and the
// line of its first
// fault, or the entry, the words of the code and, after a `/`, the bytes of the statics.

// Each rule at its first line.
static FAULTS: [&str; 60] = [
    "A9 1|",
    "A9 1|\n",
    "A9 1| \t\r",
    "A9 2|\nx: nop",
    "A9 2|\nx: nop\n",
    "A9 3|\nx: nop\n\n",
    "A9 1|main:",
    "A9 2|nop\nmain:",
    "A9 2|.data\nmain: .word 1",
    "A1 1|a b,, c",
    "A1 1|nop ,",
    "A1 1|move , $t0, $t1",
    "A1 1|move $t0, $t1,",
    "A1 1|move $t0, # $t1",
    "A1 1|,",
    "A1 1|\"a\"",
    "A1 2|nop\n.ascii \"abc",
    "A1 2|.data\n.ascii \"abc\\\"",
    "A1 2|.data\n.ascii \"a\"\"b\"",
    "A1 2|.text\nmain: .word 1",
    "A1 2|.data\nmain: nop",
    "A1 1|.byte 1",
    "A1 1|.align 0",
    "A1 1|.space 1",
    "A2 1|multu $t0, $t1",
    "A2 1|NOP",
    "A2 1|1:",
    "A2 1|main : nop",
    "A2 2|nop\n.bss",
    "A2 1|nop:nop:nop=",
    "A2 1|main: .x: nop",
    "A3 1|nop $t0",
    "A3 1|add $t0, $t1",
    "A3 1|add $t0, $t1, 1",
    "A3 1|add $t0, $t1, $32",
    "A3 1|add $t0, $t1, $s8",
    "A3 1|add $t0, $t1, t2",
    "A3 1|addi $t0, $t1, $t2",
    "A3 1|addi $t0, $t1, 0X1",
    "A3 1|addi $t0, $t1, 0x",
    "A3 1|addi $t0, $t1, -",
    "A3 1|addi $t0, $t1, --1",
    "A3 1|addi $t0, $t1, 1a",
    "A3 1|lw $t0, 4($sp",
    "A3 1|lw $t0, 4 ($sp)",
    "A3 1|lw $t0, ($sp)4",
    "A3 1|lw $t0, 4($sp))",
    "A3 1|lw $t0, main",
    "A3 1|j 4",
    "A3 1|la $t0, 4",
    "A3 1|li $t0, main",
    "A3 1|break 1, 2",
    "A3 1|.text 1",
    "A3 1|.globl 1",
    "A3 1|.globl",
    "A3 2|.data\n.word",
    "A3 2|.data\n.byte main",
    "A3 2|.data\n.ascii abc",
    "A3 2|.data\n.ascii \"\\q\"",
    "A3 2|.data\n.ascii \"\t\"",
];

// Numbers one past each range, labels twice, labels that are nowhere given or out of reach.
static MORE_FAULTS: [&str; 46] = [
    "A7 1|addi $t0, $t1, 32768",
    "A7 1|addiu $t0, $t1, -32769",
    "A7 1|slti $t0, $t1, 0x8000",
    "A7 1|sltiu $t0, $t1, 32768",
    "A7 1|andi $t0, $t1, -1",
    "A7 1|ori $t0, $t1, 65536",
    "A7 1|xori $t0, $t1, 0x10000",
    "A7 1|lui $t0, 65536",
    "A7 1|lb $t0, 32768($t1)",
    "A7 1|lbu $t0, -32769($t1)",
    "A7 1|lw $t0, 32768($t1)",
    "A7 1|sb $t0, 32768($t1)",
    "A7 1|sw $t0, 32768($t1)",
    "A7 1|sll $t0, $t1, 32",
    "A7 1|srl $t0, $t1, -1",
    "A7 1|sra $t0, $t1, 32",
    "A7 1|break 1048576",
    "A7 1|li $t0, 4294967296",
    "A7 1|li $t0, -2147483649",
    "A7 1|li $t0, 99999999999999999999999999999999",
    "A7 2|.data\n.word 4294967296",
    "A7 2|.data\n.word -2147483649, 1",
    "A7 2|.data\n.byte 256",
    "A7 2|.data\n.byte 1, 2, -129",
    "A7 2|.data\n.space 16711681",
    "A7 2|.data\n.space -1",
    "A7 2|.data\n.align 4",
    "A4 2|main:\nmain:",
    "A4 1|main: main: nop",
    "A4 3|.data\nx: .word 1\nx: .word 1",
    "A4 4|x: nop\n.data\n.word 1\nx:",
    "A8 3|.data\n.space 16711680\n.byte 1",
    "A8 3|.data\n.space 16711680 # full\n.word 1",
    "A8 4|.data\n.space 16711677\n.align 2\n.byte 1\n.byte 1",
    "A5 1|main: j x",
    "A5 2|main: nop\nbeq $t0, $t1, x",
    "A5 3|main: nop\n\nla $a0, x",
    "A5 4|main: nop\n.data\n.byte 1\n.word 1, x",
    "A6 1|main: j end\nend:",
    "A6 1|main: jal end\nend:",
    "A6 2|main: nop\nj d\n.data\nd: .byte 1",
    "A6 2|main: nop\nbgez $t0, d\n.data\nd: .byte 1",
    "A9 3|x: nop\n.globl main\n.data",
    "A5 1|\tj main\r\n.data\r\nMain: .byte 1\r\n",
    "A3 2|.globl main # nowhere given\n.globl a b",
    "A9 1|.globl main",
];

// Rules in competition: on one line by their order, else by the line, A5 and A6 last.
static COMPETITIONS: [&str; 24] = [
    "A1 1|main: main: .word 1,",
    "A1 1|x: .word 1\ny: .word 1",
    "A1 1|bad ,",
    "A2 1|main: main: bad",
    "A2 1|bad 1, 99999999999",
    "A3 1|main: main: addi $t0, 99999999999",
    "A3 2|.data\n.byte 256, x",
    "A7 1|main: main: addi $t0, $t1, 32768",
    "A7 3|.data\nx:\nx: .space 16711681",
    "A4 3|.data\nx: .space 16711680\nx: .word 1",
    "A4 2|main: j x\nmain: bad2: nop",
    "A8 3|.data\n.space 16711680\nx: .word 1, y",
    "A2 3|main: j x\nx: j y\nbad",
    "A3 2|main: j nowhere\nnop 1",
    "A5 1|main: j x\nbeq $t0, $t1, y",
    "A5 2|main: nop\nj x\nj end\nend:",
    "A6 2|main: nop\nj end\nj x\nend:",
    "A6 1|j end\nend:",
    "A5 1|j main",
    "A4 2|main: nop\nmain: j x\nbad",
    "A1 2|main: nop\n.data \"\nmain: nop",
    "A7 2|main: nop\nli $t0, 4294967296\nmain: nop",
    "A1 1|.data,\n.text,",
    "A2 1|.word: x",
];

// Words of the table, as GNU `as` and `llvm-mc` make them for MIPS I, big endian. Their `break 0,7`
// is `break 7` here,
// and their `move` is an `or`.
static WORDS: [&str; 58] = [
    "400000: 000957c0|main: sll $t2, $t1, 31",
    "400000: 001f1042|main: srl $v0, $ra, 1",
    "400000: 000857c3|main: sra $t2, $t0, 31",
    "400000: 03e00008|main: jr $ra",
    "400000: 0320f809|main: jalr $t9",
    "400000: 02001009|main: jalr $v0, $s0",
    "400000: 0000000c|main: syscall",
    "400000: 000001cd|main: break 7",
    "400000: 03ffffcd|main: break 1048575",
    "400000: 0000000d|main: break",
    "400000: 00004810|main: mfhi $t1",
    "400000: 00004012|main: mflo $t0",
    "400000: 01090018|main: mult $t0, $t1",
    "400000: 009f001a|main: div $a0, $ra",
    "400000: 01094020|main: add $t0, $t0, $t1",
    "400000: 00084022|main: sub $t0, $zero, $t0",
    "400000: 00851021|main: addu $v0, $a0, $a1",
    "400000: 03bcf023|main: subu $fp, $sp, $gp",
    "400000: 02538824|main: and $s1, $s2, $s3",
    "400000: 00fa1825|main: or $v1, $a3, $k0",
    "400000: 01495026|main: xor $t2, $t2, $t1",
    "400000: 001f8027|main: nor $s0, $zero, $ra",
    "400000: 0319082a|main: slt $at, $t8, $t9",
    "400000: 000a502b|main: sltu $t2, $zero, $t2",
    "400000: 08100000|main: j main",
    "400000: 00000000 0c100001|main: nop\nx: jal x",
    "400000: 1000ffff|main: beq $zero, $zero, main",
    "400000: 1000ffff 151ffffe|main: x: beq $zero, $zero, x\nbne $t0, $ra, x",
    "400000: 18800001 00000000 00000000|main: blez $a0, y\nnop\ny: nop",
    "400000: 1fa00000|main: bgtz $sp, y\ny:",
    "400000: 00000000 04a0fffe|main: nop\nbltz $a1, main",
    "400000: 00000000 07c1fffe|main: nop\nbgez $fp, main",
    "400000: 2108ffff|main: addi $t0, $t0, -1",
    "400000: 27bdfffc|main: addiu $sp, $sp, -4",
    "400000: 28628000|main: slti $v0, $v1, -32768",
    "400000: 2d8b7fff|main: sltiu $t3, $t4, 32767",
    "400000: 31cdffff|main: andi $t5, $t6, 65535",
    "400000: 3508ffff|main: ori $t0, $t0, 65535",
    "400000: 3a8f8000|main: xori $t7, $s4, 32768",
    "400000: 3c088000|main: lui $t0, 0x8000",
    "400000: 82d5ffff|main: lb $s5, -1($s6)",
    "400000: 931700ff|main: lbu $s7, 255($t8)",
    "400000: 8fa80004|main: lw $t0, 4($sp)",
    "400000: 8f3c7fff|main: lw $gp, 32767($t9)",
    "400000: 8fa80000|main: lw $t0, ($sp)",
    "400000: a0e60000|main: sb $a2, 0($a3)",
    "400000: afdffff8|main: sw $ra, -8($fp)",
    "400000: 00000000|main: nop",
    "400000: 00112021|main: move $a0, $s1",
    "400000: 24080000|main: li $t0, 0",
    "400000: 24088000|main: li $t0, -32768",
    "400000: 24087fff|main: li $t0, 32767",
    "400000: 34088000|main: li $t0, 32768",
    "400000: 3408ffff|main: li $t0, 65535",
    "400000: 3c080001 35080000|main: li $t0, 65536",
    "400000: 3c08ffff 35087fff|main: li $t0, -32769",
    "400000: 3c08ffff 3508ffff|main: li $t0, 4294967295",
    "400008: 3c080040 35080008 00000000|la $t0, x\nx: main: nop",
];

// Images with statics, blanks, comments and line ends of all kinds.
static IMAGES: [&str; 33] = [
    "400000: 8c080002|.text\nmain: lw $t0, 2($zero)",
    "400000: 3c088000 2108ffff|.text\nmain: lui $t0, 0x8000\naddi $t0, $t0, -1",
    "400000: 24020005 0000000c|main: li $v0, 5\nsyscall",
    "400000: 3c084000 ad080000|main: lui $t0, 0x4000\nsw $t0, 0($t0)",
    "400000: 0000024d|main: break 9",
    "400000: 8c080000|main: lw $t0, 0($zero)",
    "400000: 03a00008|main: jr $sp",
    "400000: 00000000|\r\nmain: nop\r\n",
    "400000: 00000000|main:\tnop # comment, \"",
    "400000: 00000000|main:nop#",
    "400004: 00000000 00000000|nop\nmain: # here\n\n nop",
    "400000: 00851021|main: addu $v0 $a0\t$a1",
    "400000: 00851021|main: addu $v0,$a0 ,\t$a1",
    "400000: 00e73821|main: addu $07, $0x7, $7",
    "400000: 20080010|main: addi $t0, $zero, 0x0000000000000000000000010",
    "400000: 2008ffff|main: addi $8, $0, -0x1",
    "400000: 20080000|main: addi $t0, $zero, -0",
    "400000: 00000000|.data\n.text\n.globl x\nmain: nop",
    "400000: 00000000|_a.b9: main: nop\nj: beq:",
    "400000: 00000000 / 01 ff 80 00|main: nop\n.data\n.byte 1, 255 -128,0",
    "400000: 00000000 / 78 56 34 12|main: nop\n.data\n.word 0x12345678",
    "400000: 00000000 / 01 00 00 00 ff ff ff ff|main: nop\n.data\n.byte 1\n.word -1",
    "400000: 00000000 / 01 00 00 00 04 00 01 10|main: nop\n.data\n.byte 1\nx: .word x",
    "400000: 00000000 / 00 00 40 00 01 00|main: nop\n.data\n.word main\n.byte 1\n.align 1",
    "400000: 00000000 / 01 02|main: nop\n.data\n.byte 1\n.align 0\n.byte 2",
    "400000: 00000000 / 01 00 00 00 00 00 00 00 02|main: nop\n.data\n.byte 1\n.align 3\n.byte 2",
    "400000: 00000000 / 00 00 00|main: nop\n.data\n.space 3\n.space 0",
    "400000: 00000000 / 61 0a 09 22 5c 00 23|main: nop\n.data\n.ascii \"a\\n\\t\\\"\\\\\\0#\"",
    "400000: 00000000 / 61 00|main: nop\n.data\n.asciiz \"a\" # \"b\"",
    "400000: 00000000 / c3 a9 00|main: nop\n.data\n.asciiz \"\u{e9}\"",
    "400000: 3c081001 35080001 / 01|main: la $t0, end\n.data\n.byte 1\nend:",
    "400000: 3c041001 34840000 24020004 0000000c 24040007 24020011 0000000c / 68 69 00|\
     .data\nm: .asciiz \"hi\"\n.text\nmain: la $a0, m\nli $v0, 4\nsyscall\n\
     li $a0, 7\nli $v0, 17\nsyscall",
    "400000: 0000000c 08100000 / 01 00 00 00 0c 00 01 10 00 00 40 00 02|x: main: syscall\n.data\n\
     .byte 1\n.word y, x\ny: .text\nj x\n.data\n.byte 2",
];

/// What a text is, in the words of the tables.
fn shown(alloc: Global, text: &[u8]) -> Result<String, Fail> {
    match assemble(alloc, text) {
        Ok(image) => show_image(alloc, &image),
        Err(AsmFault::Bad { rule, at }) => Ok(format!(in alloc; "{rule:?} {at}")?),
        Err(AsmFault::Memory) => Ok(String::from_str(alloc, "memory")?),
    }
}

fn show_image(alloc: Global, image: &Image) -> Result<String, Fail> {
    let mut shown = format!(in alloc; "{:x}:", image.entry)?;
    for word in image.code.as_slice() {
        write!(shown, " {word:08x}")?;
    }
    if !image.statics.as_slice().is_empty() {
        shown.push_str(" /")?;
    }
    for byte in image.statics.as_slice() {
        write!(shown, " {byte:02x}")?;
    }
    Ok(shown)
}

/// Each row's text is what stands before it.
fn hold(rt: &impl Abort, alloc: Global, rows: &[&str]) -> Result<(), Fail> {
    for row in rows {
        let (want, text) = row.split_once('|').ok_or("a row without its text")?;
        let shown = shown(alloc, text.as_bytes())?;
        assert_eq!(rt; shown.as_str(), want, "{text}");
    }
    Ok(())
}

#[test]
fn faults_and_images(rt: HostRuntime) -> Result<(), Fail> {
    let alloc = rt.alloc();
    hold(&rt, alloc, &FAULTS)?;
    hold(&rt, alloc, &MORE_FAULTS)?;
    hold(&rt, alloc, &COMPETITIONS)?;
    hold(&rt, alloc, &WORDS)?;
    hold(&rt, alloc, &IMAGES)
}

/// A text of so many `nop`s between two lines.
fn between(alloc: Global, first: &str, count: u32, last: &str) -> Result<Vec<u8>, Fail> {
    let mut text = first.as_bytes().to_vec(alloc)?;
    for _ in 0..count {
        text.extend_from_slice(b"\nnop")?;
    }
    text.push(b'\n')?;
    text.extend_from_slice(last.as_bytes())?;
    Ok(text)
}

/// The first and the last word of a text, or its fault.
fn ends_shown(alloc: Global, text: &[u8]) -> Result<String, Fail> {
    match assemble(alloc, text) {
        Ok(image) => {
            let code = image.code.as_slice();
            let first = code.first().copied().unwrap_or(0);
            let last = code.last().copied().unwrap_or(0);
            Ok(format!(in alloc; "{first:08x} {last:08x}")?)
        }
        Err(AsmFault::Bad { rule, at }) => Ok(format!(in alloc; "{rule:?} {at}")?),
        Err(AsmFault::Memory) => Ok(String::from_str(alloc, "memory")?),
    }
}

#[test]
fn reach_of_branches(rt: HostRuntime) -> Result<(), Fail> {
    let alloc = rt.alloc();
    for (first, count, last, want) in [
        (
            "main: beq $t0, $t1, x",
            32767,
            "x: nop",
            "11097fff 00000000",
        ),
        ("main: beq $t0, $t1, x", 32768, "x: nop", "A6 1"),
        (
            "main: nop",
            32766,
            "bne $t0, $t1, main",
            "00000000 15098000",
        ),
        ("main: nop", 32767, "bne $t0, $t1, main", "A6 32769"),
    ] {
        let shown = ends_shown(alloc, &between(alloc, first, count, last)?)?;
        assert_eq!(rt; shown.as_str(), want);
    }
    Ok(())
}

/// The bytes of a text that no one wrote: those of a generator of numbers.
fn random(alloc: Global, seed: u32) -> Result<Vec<u8>, Fail> {
    let mut text = Vec::with_capacity(alloc, 300)?;
    let mut state = seed;
    for _ in 0..300 {
        state = state.wrapping_mul(1664525).wrapping_add(1013904223);
        text.push((state / 16777216) as u8)?;
    }
    Ok(text)
}

#[test]
fn random_bytes(rt: HostRuntime) -> Result<(), Fail> {
    let alloc = rt.alloc();
    for seed in 0..500 {
        let text = random(alloc, seed)?;
        match assemble(alloc, &text) {
            Err(AsmFault::Bad { at, .. }) => assert!(rt; 1 <= at && at <= 301),
            _ => assert!(rt; false, "seed {seed}"),
        }
    }
    Ok(())
}

use std::alloc::Global;
use std::process::Abort;
use std::test::Fail;
use tg_asm_text::line;
use tg_isa::{Bits, Mips, Reg, decode, encode, name};

// Each word was made by another assembler: GNU `as` for MIPS I, big endian. Its `break 0,7` is
// `break 7` here.

/// The instruction has the word, and the word is an instruction with that word.
fn gives(rt: &impl Abort, one: Mips, word: u32) {
    assert_eq!(rt; encode(&one), word);
    match decode(word) {
        Some(back) => assert_eq!(rt; encode(&back), word),
        None => assert!(rt; false, "{word:08x} is outside the table"),
    }
}

fn reg(number: u8) -> Reg {
    if number < 32 {
        Reg::new(number)
    } else {
        Reg::ZERO
    }
}

#[test]
fn words_of_shifts_and_jumps(rt: HostRuntime) {
    gives(&rt, Mips::Sll(reg(10), reg(9), Bits::new(31)), 0x000957C0);
    gives(&rt, Mips::Sll(reg(0), reg(0), Bits::new(0)), 0x00000000);
    gives(&rt, Mips::Srl(reg(2), reg(31), Bits::new(1)), 0x001F1042);
    gives(&rt, Mips::Sra(reg(10), reg(8), Bits::new(31)), 0x000857C3);
    gives(&rt, Mips::Jr(reg(31)), 0x03E00008);
    gives(&rt, Mips::Jalr(reg(31), reg(25)), 0x0320F809);
    gives(&rt, Mips::Jalr(reg(2), reg(16)), 0x02001009);
    gives(&rt, Mips::J(Bits::new(64)), 0x08000040);
    gives(&rt, Mips::Jal(Bits::new(64)), 0x0C000040);
    gives(&rt, Mips::J(Bits::new(67108863)), 0x0BFFFFFF);
}

#[test]
fn words_of_services_and_products(rt: HostRuntime) {
    gives(&rt, Mips::Syscall, 0x0000000C);
    gives(&rt, Mips::Break(Bits::new(7)), 0x000001CD);
    gives(&rt, Mips::Break(Bits::new(1048575)), 0x03FFFFCD);
    gives(&rt, Mips::Mfhi(reg(9)), 0x00004810);
    gives(&rt, Mips::Mflo(reg(8)), 0x00004012);
    gives(&rt, Mips::Mult(reg(8), reg(9)), 0x01090018);
    gives(&rt, Mips::Div(reg(4), reg(31)), 0x009F001A);
}

#[test]
fn words_of_arithmetic(rt: HostRuntime) {
    gives(&rt, Mips::Add(reg(8), reg(8), reg(9)), 0x01094020);
    gives(&rt, Mips::Add(reg(31), reg(23), reg(27)), 0x02FBF820);
    gives(&rt, Mips::Sub(reg(8), reg(0), reg(8)), 0x00084022);
    gives(&rt, Mips::Addu(reg(2), reg(4), reg(5)), 0x00851021);
    gives(&rt, Mips::Subu(reg(30), reg(29), reg(28)), 0x03BCF023);
    gives(&rt, Mips::And(reg(17), reg(18), reg(19)), 0x02538824);
    gives(&rt, Mips::Or(reg(3), reg(7), reg(26)), 0x00FA1825);
    gives(&rt, Mips::Xor(reg(10), reg(10), reg(9)), 0x01495026);
    gives(&rt, Mips::Nor(reg(16), reg(0), reg(31)), 0x001F8027);
    gives(&rt, Mips::Slt(reg(1), reg(24), reg(25)), 0x0319082A);
    gives(&rt, Mips::Sltu(reg(10), reg(0), reg(10)), 0x000A502B);
}

#[test]
fn words_of_branches(rt: HostRuntime) {
    gives(&rt, Mips::Beq(reg(0), reg(0), Bits::new(65535)), 0x1000FFFF);
    gives(
        &rt,
        Mips::Bne(reg(8), reg(31), Bits::new(65532)),
        0x151FFFFC,
    );
    gives(&rt, Mips::Blez(reg(4), Bits::new(65531)), 0x1880FFFB);
    gives(&rt, Mips::Bgtz(reg(29), Bits::new(65530)), 0x1FA0FFFA);
    gives(&rt, Mips::Bltz(reg(5), Bits::new(65529)), 0x04A0FFF9);
    gives(&rt, Mips::Bgez(reg(30), Bits::new(65528)), 0x07C1FFF8);
}

#[test]
fn words_of_immediates(rt: HostRuntime) {
    gives(
        &rt,
        Mips::Addi(reg(8), reg(8), Bits::new(65535)),
        0x2108FFFF,
    );
    gives(
        &rt,
        Mips::Addiu(reg(29), reg(29), Bits::new(65532)),
        0x27BDFFFC,
    );
    gives(
        &rt,
        Mips::Slti(reg(2), reg(3), Bits::new(32768)),
        0x28628000,
    );
    gives(
        &rt,
        Mips::Sltiu(reg(11), reg(12), Bits::new(32767)),
        0x2D8B7FFF,
    );
    gives(
        &rt,
        Mips::Andi(reg(13), reg(14), Bits::new(65535)),
        0x31CDFFFF,
    );
    gives(&rt, Mips::Ori(reg(8), reg(8), Bits::new(65535)), 0x3508FFFF);
    gives(
        &rt,
        Mips::Xori(reg(15), reg(20), Bits::new(32768)),
        0x3A8F8000,
    );
    gives(&rt, Mips::Lui(reg(8), Bits::new(32768)), 0x3C088000);
}

#[test]
fn words_of_loads_and_stores(rt: HostRuntime) {
    gives(
        &rt,
        Mips::Lb(reg(21), Bits::new(65535), reg(22)),
        0x82D5FFFF,
    );
    gives(&rt, Mips::Lbu(reg(23), Bits::new(255), reg(24)), 0x931700FF);
    gives(&rt, Mips::Lw(reg(8), Bits::new(4), reg(29)), 0x8FA80004);
    gives(
        &rt,
        Mips::Lw(reg(28), Bits::new(32767), reg(25)),
        0x8F3C7FFF,
    );
    gives(&rt, Mips::Sb(reg(6), Bits::new(0), reg(7)), 0xA0E60000);
    gives(
        &rt,
        Mips::Sw(reg(31), Bits::new(65528), reg(30)),
        0xAFDFFFF8,
    );
}

#[test]
fn words_outside_the_table(rt: HostRuntime) {
    for word in [
        0xFFFFFFFF, // no opcode
        0x00000001, // no function
        0x00000004, // sllv
        0x01090019, // multu
        0x0109001B, // divu
        0x84880000, // lh
        0x04A20000, // bltz with 2 in rt
        0x18810000, // blez with a register in rt
        0x1C810000, // bgtz with a register in rt
        0x3C288000, // lui with a register in rs
        0x01094018, // mult with a register in rd
        0x0109401A, // div with a register in rd
        0x01094060, // add with a shift
        0x0000004C, // syscall with a code
        0x00204810, // mfhi with a register in rs
        0x03E10008, // jr with a register in rt
        0x03E00808, // jr with a register in rd
        0x0321F809, // jalr with a register in rt
        0x00200042, // srl with a register in rs
    ] {
        assert!(rt; decode(word).is_none(), "{word:08x}");
    }
}

#[test]
fn names_of_registers(rt: HostRuntime) {
    assert_eq!(rt; name(reg(0)), "$zero");
    assert_eq!(rt; name(reg(8)), "$t0");
    assert_eq!(rt; name(reg(24)), "$t8");
    assert_eq!(rt; name(reg(31)), "$ra");
}

/// The line of an instruction with the label `main` is the text.
fn reads(rt: &impl Abort, alloc: Global, one: Mips, text: &str) -> Result<(), Fail> {
    let line = line(alloc, &one, "main")?;
    assert_eq!(rt; line.as_slice(), text.as_bytes());
    Ok(())
}

#[test]
fn lines_of_registers(rt: HostRuntime) -> Result<(), Fail> {
    let alloc = rt.alloc();
    reads(
        &rt,
        alloc,
        Mips::Sll(reg(10), reg(9), Bits::new(31)),
        "sll $t2, $t1, 31",
    )?;
    reads(&rt, alloc, Mips::Jr(reg(31)), "jr $ra")?;
    reads(&rt, alloc, Mips::Jalr(reg(2), reg(16)), "jalr $v0, $s0")?;
    reads(&rt, alloc, Mips::Syscall, "syscall")?;
    reads(&rt, alloc, Mips::Break(Bits::new(1048575)), "break 1048575")?;
    reads(&rt, alloc, Mips::Mfhi(reg(9)), "mfhi $t1")?;
    reads(&rt, alloc, Mips::Mult(reg(8), reg(9)), "mult $t0, $t1")?;
    reads(
        &rt,
        alloc,
        Mips::Addu(reg(2), reg(4), reg(5)),
        "addu $v0, $a0, $a1",
    )?;
    Ok(())
}

#[test]
fn lines_of_labels_and_numbers(rt: HostRuntime) -> Result<(), Fail> {
    let alloc = rt.alloc();
    reads(&rt, alloc, Mips::J(Bits::new(64)), "j main")?;
    reads(
        &rt,
        alloc,
        Mips::Beq(reg(0), reg(8), Bits::new(65535)),
        "beq $zero, $t0, main",
    )?;
    reads(
        &rt,
        alloc,
        Mips::Bgez(reg(30), Bits::new(0)),
        "bgez $fp, main",
    )?;
    reads(
        &rt,
        alloc,
        Mips::Addiu(reg(29), reg(29), Bits::new(65532)),
        "addiu $sp, $sp, -4",
    )?;
    reads(
        &rt,
        alloc,
        Mips::Slti(reg(2), reg(3), Bits::new(32768)),
        "slti $v0, $v1, -32768",
    )?;
    reads(
        &rt,
        alloc,
        Mips::Andi(reg(13), reg(14), Bits::new(65535)),
        "andi $t5, $t6, 65535",
    )?;
    reads(
        &rt,
        alloc,
        Mips::Lui(reg(8), Bits::new(32768)),
        "lui $t0, 32768",
    )?;
    reads(
        &rt,
        alloc,
        Mips::Lw(reg(8), Bits::new(4), reg(29)),
        "lw $t0, 4($sp)",
    )?;
    reads(
        &rt,
        alloc,
        Mips::Sw(reg(31), Bits::new(65528), reg(30)),
        "sw $ra, -8($fp)",
    )?;
    Ok(())
}

// A word of code is prepared once, at load, into a row of 8 bytes: immediates extended, a
// branch's distance and a jump's target in bytes. With the word itself, which watchers see, that
// is 12 bytes a word. The place is a variable of the loop, written back at a pause. A branch
// writes it into the core too: so it stays a branch, which the processor foresees, where a
// selected place would wait for the test.

ghost use Rattle.std.specs.Prelude.{◌≡◌};
ghost use Rattle.tg_machine.specs.mirror.Rows.{distance, prepared, row_of};

use crate::rows::Row;
use crate::words::extend;
use tg_base::mul;
use tg_isa::{Bits, Mips, decode};

/// The row of a word of code. It takes no memory.
pub(crate) fn row_of(word: u32) -> Row
    ensures { result ≡ row_of word }
{
    match decode(word) {
        Some(one) => prepare(one),
        None => Row::Unknown(word),
    }
}

/// How many bytes a branch goes.
fn distance(number: Bits<16>) -> u32
    ensures { result ≡ distance number }
{
    mul(4, extend(number))
}

/// The row of an instruction.
fn prepare(one: Mips) -> Row
    ensures { result ≡ prepared one }
{
    match one {
        Mips::Sll(rd, rt, shamt) => Row::Sll(rd, rt, shamt),
        Mips::Srl(rd, rt, shamt) => Row::Srl(rd, rt, shamt),
        Mips::Sra(rd, rt, shamt) => Row::Sra(rd, rt, shamt),
        Mips::Jr(rs) => Row::Jr(rs),
        Mips::Jalr(rd, rs) => Row::Jalr(rd, rs),
        Mips::Syscall => Row::Syscall,
        Mips::Break(code) => Row::Break(code),
        Mips::Mfhi(rd) => Row::Mfhi(rd),
        Mips::Mflo(rd) => Row::Mflo(rd),
        Mips::Mult(rs, rt) => Row::Mult(rs, rt),
        Mips::Div(rs, rt) => Row::Div(rs, rt),
        Mips::Add(rd, rs, rt) => Row::Add(rd, rs, rt),
        Mips::Sub(rd, rs, rt) => Row::Sub(rd, rs, rt),
        Mips::Addu(rd, rs, rt) => Row::Addu(rd, rs, rt),
        Mips::Subu(rd, rs, rt) => Row::Subu(rd, rs, rt),
        Mips::And(rd, rs, rt) => Row::And(rd, rs, rt),
        Mips::Or(rd, rs, rt) => Row::Or(rd, rs, rt),
        Mips::Xor(rd, rs, rt) => Row::Xor(rd, rs, rt),
        Mips::Nor(rd, rs, rt) => Row::Nor(rd, rs, rt),
        Mips::Slt(rd, rs, rt) => Row::Slt(rd, rs, rt),
        Mips::Sltu(rd, rs, rt) => Row::Sltu(rd, rs, rt),
        Mips::J(target) => Row::J(Bits::new(4 * target.get())),
        Mips::Jal(target) => Row::Jal(Bits::new(4 * target.get())),
        Mips::Beq(rs, rt, number) => Row::Beq(rs, rt, distance(number)),
        Mips::Bne(rs, rt, number) => Row::Bne(rs, rt, distance(number)),
        Mips::Blez(rs, number) => Row::Blez(rs, distance(number)),
        Mips::Bgtz(rs, number) => Row::Bgtz(rs, distance(number)),
        Mips::Bltz(rs, number) => Row::Bltz(rs, distance(number)),
        Mips::Bgez(rs, number) => Row::Bgez(rs, distance(number)),
        Mips::Addi(rt, rs, number) => Row::Addi(rt, rs, extend(number)),
        Mips::Addiu(rt, rs, number) => Row::Addiu(rt, rs, extend(number)),
        Mips::Slti(rt, rs, number) => Row::Slti(rt, rs, extend(number)),
        Mips::Sltiu(rt, rs, number) => Row::Sltiu(rt, rs, extend(number)),
        Mips::Andi(rt, rs, number) => Row::Andi(rt, rs, number),
        Mips::Ori(rt, rs, number) => Row::Ori(rt, rs, number),
        Mips::Xori(rt, rs, number) => Row::Xori(rt, rs, number),
        Mips::Lui(rt, number) => Row::Lui(rt, number.get() * 65536),
        Mips::Lb(rt, number, rs) => Row::Lb(rt, rs, extend(number)),
        Mips::Lbu(rt, number, rs) => Row::Lbu(rt, rs, extend(number)),
        Mips::Lw(rt, number, rs) => Row::Lw(rt, rs, extend(number)),
        Mips::Sb(rt, number, rs) => Row::Sb(rt, rs, extend(number)),
        Mips::Sw(rt, number, rs) => Row::Sw(rt, rs, extend(number)),
    }
}

ghost use Rattle.std.specs.Prelude.{◌≡◌, Some, ◌<◌, ◌^◌};
ghost use Rattle.tg_isa.specs.Table.{
  code_form,
  decode_of,
  immediate_form,
  jump_form,
  register_form,
  word_of,
};
ghost use Rattle.tg_isa.specs.Rows.{IsRow};

use crate::bits::Bits;
use crate::mips::Mips;
use crate::registers::Reg;

/// The word of an instruction. It takes no memory.
pub fn encode(one: &Mips) -> u32
    ensures word { result ≡ word_of one.now }
    ensures back { decode_of result ≡ Some one.now }
{
    word(*one)
}

/// The word of a row, whose fields fit their bits.
fn word(one: Mips) -> u32
    ensures word { result ≡ word_of one }
    ensures row { IsRow one }
{
    let none = Reg::ZERO;
    let zero = Bits::<5>::new(0);
    match one {
        Mips::Sll(rd, rt, shamt) => register_word(none, rt, rd, shamt, 0x00),
        Mips::Srl(rd, rt, shamt) => register_word(none, rt, rd, shamt, 0x02),
        Mips::Sra(rd, rt, shamt) => register_word(none, rt, rd, shamt, 0x03),
        Mips::Jr(rs) => register_word(rs, none, none, zero, 0x08),
        Mips::Jalr(rd, rs) => register_word(rs, none, rd, zero, 0x09),
        Mips::Syscall => register_word(none, none, none, zero, 0x0C),
        Mips::Break(code) => code_word(code, 0x0D),
        Mips::Mfhi(rd) => register_word(none, none, rd, zero, 0x10),
        Mips::Mflo(rd) => register_word(none, none, rd, zero, 0x12),
        Mips::Mult(rs, rt) => register_word(rs, rt, none, zero, 0x18),
        Mips::Div(rs, rt) => register_word(rs, rt, none, zero, 0x1A),
        Mips::Add(rd, rs, rt) => register_word(rs, rt, rd, zero, 0x20),
        Mips::Sub(rd, rs, rt) => register_word(rs, rt, rd, zero, 0x22),
        Mips::Addu(rd, rs, rt) => register_word(rs, rt, rd, zero, 0x21),
        Mips::Subu(rd, rs, rt) => register_word(rs, rt, rd, zero, 0x23),
        Mips::And(rd, rs, rt) => register_word(rs, rt, rd, zero, 0x24),
        Mips::Or(rd, rs, rt) => register_word(rs, rt, rd, zero, 0x25),
        Mips::Xor(rd, rs, rt) => register_word(rs, rt, rd, zero, 0x26),
        Mips::Nor(rd, rs, rt) => register_word(rs, rt, rd, zero, 0x27),
        Mips::Slt(rd, rs, rt) => register_word(rs, rt, rd, zero, 0x2A),
        Mips::Sltu(rd, rs, rt) => register_word(rs, rt, rd, zero, 0x2B),
        Mips::J(target) => jump_word(0x02, target),
        Mips::Jal(target) => jump_word(0x03, target),
        Mips::Beq(rs, rt, number) => immediate_word(0x04, rs, rt, number),
        Mips::Bne(rs, rt, number) => immediate_word(0x05, rs, rt, number),
        Mips::Blez(rs, number) => immediate_word(0x06, rs, none, number),
        Mips::Bgtz(rs, number) => immediate_word(0x07, rs, none, number),
        Mips::Bltz(rs, number) => immediate_word(0x01, rs, none, number),
        Mips::Bgez(rs, number) => immediate_word(0x01, rs, Reg::new(1), number),
        Mips::Addi(rt, rs, number) => immediate_word(0x08, rs, rt, number),
        Mips::Addiu(rt, rs, number) => immediate_word(0x09, rs, rt, number),
        Mips::Slti(rt, rs, number) => immediate_word(0x0A, rs, rt, number),
        Mips::Sltiu(rt, rs, number) => immediate_word(0x0B, rs, rt, number),
        Mips::Andi(rt, rs, number) => immediate_word(0x0C, rs, rt, number),
        Mips::Ori(rt, rs, number) => immediate_word(0x0D, rs, rt, number),
        Mips::Xori(rt, rs, number) => immediate_word(0x0E, rs, rt, number),
        Mips::Lui(rt, number) => immediate_word(0x0F, none, rt, number),
        Mips::Lb(rt, number, rs) => immediate_word(0x20, rs, rt, number),
        Mips::Lbu(rt, number, rs) => immediate_word(0x24, rs, rt, number),
        Mips::Lw(rt, number, rs) => immediate_word(0x23, rs, rt, number),
        Mips::Sb(rt, number, rs) => immediate_word(0x28, rs, rt, number),
        Mips::Sw(rt, number, rs) => immediate_word(0x2B, rs, rt, number),
    }
}

/// A word with opcode 0.
fn register_word(rs: Reg, rt: Reg, rd: Reg, shamt: Bits<5>, funct: u32) -> u32
    requires { funct < 2 ^ 6 }
    ensures word { result ≡ register_form rs rt rd shamt funct }
    ensures registers { (rs < 2 ^ 5) × (rt < 2 ^ 5) × (rd < 2 ^ 5) }
    ensures shamt { shamt < 2 ^ 5 }
{
    let rs = u32::from(rs.number());
    let rt = u32::from(rt.number());
    let rd = u32::from(rd.number());
    rs * 2097152 + rt * 65536 + rd * 2048 + shamt.get() * 64 + funct
}

/// A word with another opcode and an immediate.
fn immediate_word(opcode: u32, rs: Reg, rt: Reg, number: Bits<16>) -> u32
    requires { opcode < 2 ^ 6 }
    ensures word { result ≡ immediate_form opcode rs rt number }
    ensures registers { (rs < 2 ^ 5) × (rt < 2 ^ 5) }
    ensures number { number < 2 ^ 16 }
{
    let rs = u32::from(rs.number());
    let rt = u32::from(rt.number());
    opcode * 67108864 + rs * 2097152 + rt * 65536 + number.get()
}

/// A word with another opcode and a target.
fn jump_word(opcode: u32, target: Bits<26>) -> u32
    requires { opcode < 2 ^ 6 }
    ensures word { result ≡ jump_form opcode target }
    ensures target { target < 2 ^ 26 }
{
    opcode * 67108864 + target.get()
}

/// A word with opcode 0 and a code.
fn code_word(code: Bits<20>, funct: u32) -> u32
    requires { funct < 2 ^ 6 }
    ensures word { result ≡ code_form code funct }
    ensures code { code < 2 ^ 20 }
{
    code.get() * 64 + funct
}

use crate::bits::Bits;
use crate::registers::Reg;

/// An instruction of the table, with its operands in the order of the assembly text (MIPS I manual,
/// appendix A).
///
/// Fields are the bits of the word: an immediate has no sign of its own, and a label is the offset
/// in words of a branch or the target of a jump.
#[derive(Clone, Copy)]
pub enum Mips {
    Sll(Reg, Reg, Bits<5>),
    Srl(Reg, Reg, Bits<5>),
    Sra(Reg, Reg, Bits<5>),
    Jr(Reg),
    Jalr(Reg, Reg),
    Syscall,
    Break(Bits<20>),
    Mfhi(Reg),
    Mflo(Reg),
    Mult(Reg, Reg),
    Div(Reg, Reg),
    Add(Reg, Reg, Reg),
    Sub(Reg, Reg, Reg),
    Addu(Reg, Reg, Reg),
    Subu(Reg, Reg, Reg),
    And(Reg, Reg, Reg),
    Or(Reg, Reg, Reg),
    Xor(Reg, Reg, Reg),
    Nor(Reg, Reg, Reg),
    Slt(Reg, Reg, Reg),
    Sltu(Reg, Reg, Reg),
    J(Bits<26>),
    Jal(Bits<26>),
    Beq(Reg, Reg, Bits<16>),
    Bne(Reg, Reg, Bits<16>),
    Blez(Reg, Bits<16>),
    Bgtz(Reg, Bits<16>),
    Bltz(Reg, Bits<16>),
    Bgez(Reg, Bits<16>),
    Addi(Reg, Reg, Bits<16>),
    Addiu(Reg, Reg, Bits<16>),
    Slti(Reg, Reg, Bits<16>),
    Sltiu(Reg, Reg, Bits<16>),
    Andi(Reg, Reg, Bits<16>),
    Ori(Reg, Reg, Bits<16>),
    Xori(Reg, Reg, Bits<16>),
    Lui(Reg, Bits<16>),
    Lb(Reg, Bits<16>, Reg),
    Lbu(Reg, Bits<16>, Reg),
    Lw(Reg, Bits<16>, Reg),
    Sb(Reg, Bits<16>, Reg),
    Sw(Reg, Bits<16>, Reg),
}

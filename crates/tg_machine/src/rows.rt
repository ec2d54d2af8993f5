use tg_isa::{Bits, Reg};

/// A word of code as the machine executes it, in 8 bytes: its instruction, with what is the same at
/// each step worked out.
///
/// An immediate that has a sign is extended to a word, a branch has its distance in bytes from the
/// next instruction, and a jump has its target in bytes within the 256 MiB of the next instruction.
/// Registers stand before the word, so that no row takes more room.
#[derive(Clone, Copy)]
pub enum Row {
    Sll(Reg, Reg, Bits<5>),
    Srl(Reg, Reg, Bits<5>),
    Sra(Reg, Reg, Bits<5>),
    Jr(Reg),
    Jalr(Reg, Reg),
    Syscall,
    Break(Bits<20>),
    Mfhi(Reg),
    Mflo(Reg),
    Mult(Reg, Reg),
    Div(Reg, Reg),
    Add(Reg, Reg, Reg),
    Sub(Reg, Reg, Reg),
    Addu(Reg, Reg, Reg),
    Subu(Reg, Reg, Reg),
    And(Reg, Reg, Reg),
    Or(Reg, Reg, Reg),
    Xor(Reg, Reg, Reg),
    Nor(Reg, Reg, Reg),
    Slt(Reg, Reg, Reg),
    Sltu(Reg, Reg, Reg),
    J(Bits<28>),
    Jal(Bits<28>),
    Beq(Reg, Reg, u32),
    Bne(Reg, Reg, u32),
    Blez(Reg, u32),
    Bgtz(Reg, u32),
    Bltz(Reg, u32),
    Bgez(Reg, u32),
    Addi(Reg, Reg, u32),
    Addiu(Reg, Reg, u32),
    Slti(Reg, Reg, u32),
    Sltiu(Reg, Reg, u32),
    Andi(Reg, Reg, Bits<16>),
    Ori(Reg, Reg, Bits<16>),
    Xori(Reg, Reg, Bits<16>),
    Lui(Reg, u32),
    Lb(Reg, Reg, u32),
    Lbu(Reg, Reg, u32),
    Lw(Reg, Reg, u32),
    Sb(Reg, Reg, u32),
    Sw(Reg, Reg, u32),
    /// A word that the table doesn't have.
    Unknown(u32),
}

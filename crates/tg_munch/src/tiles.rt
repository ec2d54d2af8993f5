ghost use Rattle.std.specs.Prelude.{◌≡◌};
ghost use Rattle.tg_munch.specs.mirror.Tiles as tiles;

use tg_instr::{Instr, Opnd};
use tg_isa::Bits;

/// What an instruction does with one operand and the number in its field.
#[derive(Clone, Copy)]
pub(crate) enum Immediate {
    Add(Bits<16>),
    AddTrap(Bits<16>),
    And(Bits<16>),
    Or(Bits<16>),
    Xor(Bits<16>),
    ShiftLeft(Bits<5>),
    ShiftRight(Bits<5>),
    ShiftSigned(Bits<5>),
}

/// How an operator is done: with its right or its left side in a field, as a shift by a word, or on
/// two operands.
#[derive(Clone, Copy)]
pub(crate) enum Tile {
    Right(Immediate),
    Left(Immediate),
    ByWord,
    Operands,
}

/// An address: so many bytes, by a field with a sign, after what an operand holds.
#[derive(Clone, Copy)]
pub(crate) struct Base {
    pub(crate) bytes: Bits<16>,
    pub(crate) operand: Opnd,
}

impl Immediate {
    /// The instruction that gives an operand what it does with another.
    pub(crate) fn instruction(self, to: Opnd, from: Opnd) -> Instr
        ensures { result ≡ tiles.instruction self to from }
    {
        match self {
            Immediate::Add(n) => Instr::Addiu(to, from, n),
            Immediate::AddTrap(n) => Instr::Addi(to, from, n),
            Immediate::And(n) => Instr::Andi(to, from, n),
            Immediate::Or(n) => Instr::Ori(to, from, n),
            Immediate::Xor(n) => Instr::Xori(to, from, n),
            Immediate::ShiftLeft(n) => Instr::Sll(to, from, n),
            Immediate::ShiftRight(n) => Instr::Srl(to, from, n),
            Immediate::ShiftSigned(n) => Instr::Sra(to, from, n),
        }
    }
}

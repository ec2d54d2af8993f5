// A branch is `Branch(Test, mark)`: that its comparison is one row of the table is a ghost field
// of `Test`, since a variant can't have one.

ghost use Rattle.std.specs.Prelude.{IsTrue};
ghost use Rattle.tg_instr.specs.Operands.{is_one_row};

use crate::operands::Opnd;
use tg_base::{Label, ListOf};
use tg_isa::Bits;
use tg_tree::Rel;

/// What a branch tests. It is one row of the instruction table: an equality or inequality of two
/// operands, or a signed order between an operand and `$zero` on its right.
#[derive(Drop)]
pub struct Test {
    pub rel: Rel,
    pub left: Opnd,
    pub right: Opnd,
    pub ghost is_one_row: { IsTrue (is_one_row rel left right) },
}

/// An instruction over temporaries and registers. The rows of the table (MIPS I manual, appendix A)
/// have their operands in the order of the assembly text, and number fields are the bits of the
/// word.
#[derive(Drop)]
pub enum Instr {
    Sll(Opnd, Opnd, Bits<5>),
    Srl(Opnd, Opnd, Bits<5>),
    Sra(Opnd, Opnd, Bits<5>),
    Mfhi(Opnd),
    Mflo(Opnd),
    Mult(Opnd, Opnd),
    Div(Opnd, Opnd),
    Add(Opnd, Opnd, Opnd),
    Sub(Opnd, Opnd, Opnd),
    Addu(Opnd, Opnd, Opnd),
    Subu(Opnd, Opnd, Opnd),
    And(Opnd, Opnd, Opnd),
    Or(Opnd, Opnd, Opnd),
    Xor(Opnd, Opnd, Opnd),
    Nor(Opnd, Opnd, Opnd),
    Slt(Opnd, Opnd, Opnd),
    Sltu(Opnd, Opnd, Opnd),
    Addi(Opnd, Opnd, Bits<16>),
    Addiu(Opnd, Opnd, Bits<16>),
    Slti(Opnd, Opnd, Bits<16>),
    Sltiu(Opnd, Opnd, Bits<16>),
    Andi(Opnd, Opnd, Bits<16>),
    Ori(Opnd, Opnd, Bits<16>),
    Xori(Opnd, Opnd, Bits<16>),
    Lui(Opnd, Bits<16>),
    Lb(Opnd, Bits<16>, Opnd),
    Lbu(Opnd, Bits<16>, Opnd),
    Lw(Opnd, Bits<16>, Opnd),
    Sb(Opnd, Bits<16>, Opnd),
    Sw(Opnd, Bits<16>, Opnd),
    /// The first operand gets what the second holds.
    Move(Opnd, Opnd),
    /// A slot of the frame, by its number, is loaded or stored.
    FrameLoad(Opnd, u32),
    FrameStore(Opnd, u32),
    /// The activation's frame address.
    FrameAddress(Opnd),
    /// The address of a literal.
    Address(Opnd, Label),
    Mark(u32),
    Jump(u32),
    /// Goes on at a mark where the test holds, else at the next instruction.
    Branch(Test, u32),
    /// Hands `$a0` to `$a3` on, and finds the result in `$v0`.
    Call(Label),
    /// The service that `$v0` names, with `$a0`; what it answers is in `$v0`.
    Service,
    /// Ends the run with this code of a `break`.
    Fault(u32),
    Return,
}

/// Instructions, in the order of the code.
pub type Instrs = ListOf<Instr>;

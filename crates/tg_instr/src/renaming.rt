ghost use Rattle.std.specs.Prelude.{◌≡◌, IsTrue};

use crate::instr::{Instr, Test};
use crate::operands::Opnd;

/// The operands that an instruction's text names: what it defines, and what it uses, in the order
/// of the text. A call, a service and a return name none, whatever they use and define besides.
#[derive(Clone, Copy)]
pub struct Named {
    pub to: Option<Opnd>,
    pub first: Option<Opnd>,
    pub second: Option<Opnd>,
}

impl Named {
    ghost use Rattle.tg_instr.specs.Renaming.{names};

    fn new(to: Option<Opnd>, first: Option<Opnd>, second: Option<Opnd>) -> Named
        ensures { result ≡ names to first second }
    {
        Named { to, first, second }
    }

    fn three(to: Opnd, first: Opnd, second: Opnd) -> Named
        ensures { result ≡ names (Some to) (Some first) (Some second) }
    {
        Named::new(Some(to), Some(first), Some(second))
    }

    fn from_one(to: Opnd, from: Opnd) -> Named
        ensures { result ≡ names (Some to) (Some from) None }
    {
        Named::new(Some(to), Some(from), None)
    }

    fn of_two(first: Opnd, second: Opnd) -> Named
        ensures { result ≡ names None (Some first) (Some second) }
    {
        Named::new(None, Some(first), Some(second))
    }

    fn target(to: Opnd) -> Named
        ensures { result ≡ names (Some to) None None }
    {
        Named::new(Some(to), None, None)
    }
}

impl Instr {
    ghost use Rattle.tg_instr.specs.Renaming.{named, renamed, stays_one_row};

    /// The operands that the instruction's text names.
    pub fn named(&self) -> Named
        ensures { result ≡ named self.now }
    {
        match self {
            Instr::Sll(rd, rt, _) => Named::from_one(*rd, *rt),
            Instr::Srl(rd, rt, _) => Named::from_one(*rd, *rt),
            Instr::Sra(rd, rt, _) => Named::from_one(*rd, *rt),
            Instr::Mfhi(rd) => Named::target(*rd),
            Instr::Mflo(rd) => Named::target(*rd),
            Instr::Mult(rs, rt) => Named::of_two(*rs, *rt),
            Instr::Div(rs, rt) => Named::of_two(*rs, *rt),
            Instr::Add(rd, rs, rt) => Named::three(*rd, *rs, *rt),
            Instr::Sub(rd, rs, rt) => Named::three(*rd, *rs, *rt),
            Instr::Addu(rd, rs, rt) => Named::three(*rd, *rs, *rt),
            Instr::Subu(rd, rs, rt) => Named::three(*rd, *rs, *rt),
            Instr::And(rd, rs, rt) => Named::three(*rd, *rs, *rt),
            Instr::Or(rd, rs, rt) => Named::three(*rd, *rs, *rt),
            Instr::Xor(rd, rs, rt) => Named::three(*rd, *rs, *rt),
            Instr::Nor(rd, rs, rt) => Named::three(*rd, *rs, *rt),
            Instr::Slt(rd, rs, rt) => Named::three(*rd, *rs, *rt),
            Instr::Sltu(rd, rs, rt) => Named::three(*rd, *rs, *rt),
            Instr::Addi(rt, rs, _) => Named::from_one(*rt, *rs),
            Instr::Addiu(rt, rs, _) => Named::from_one(*rt, *rs),
            Instr::Slti(rt, rs, _) => Named::from_one(*rt, *rs),
            Instr::Sltiu(rt, rs, _) => Named::from_one(*rt, *rs),
            Instr::Andi(rt, rs, _) => Named::from_one(*rt, *rs),
            Instr::Ori(rt, rs, _) => Named::from_one(*rt, *rs),
            Instr::Xori(rt, rs, _) => Named::from_one(*rt, *rs),
            Instr::Lui(rt, _) => Named::target(*rt),
            Instr::Lb(rt, _, rs) => Named::from_one(*rt, *rs),
            Instr::Lbu(rt, _, rs) => Named::from_one(*rt, *rs),
            Instr::Lw(rt, _, rs) => Named::from_one(*rt, *rs),
            Instr::Sb(rt, _, rs) => Named::of_two(*rt, *rs),
            Instr::Sw(rt, _, rs) => Named::of_two(*rt, *rs),
            Instr::Move(to, from) => Named::from_one(*to, *from),
            Instr::FrameLoad(to, _) => Named::target(*to),
            Instr::FrameStore(from, _) => Named::new(None, Some(*from), None),
            Instr::FrameAddress(to) => Named::target(*to),
            Instr::Address(to, _) => Named::target(*to),
            Instr::Branch(test, _) => Named::of_two(test.left, test.right),
            _ => Named::new(None, None, None),
        }
    }

    /// The instruction with other operands in the places of those that its text names; those that
    /// it doesn't name are passed over.
    pub fn renamed(&self, to: Opnd, first: Opnd, second: Opnd) -> Instr
        requires { IsTrue (stays_one_row self.now first second) }
        ensures { result ≡ renamed self.now to first second }
    {
        match self {
            Instr::Sll(_, _, n) => Instr::Sll(to, first, *n),
            Instr::Srl(_, _, n) => Instr::Srl(to, first, *n),
            Instr::Sra(_, _, n) => Instr::Sra(to, first, *n),
            Instr::Mfhi(_) => Instr::Mfhi(to),
            Instr::Mflo(_) => Instr::Mflo(to),
            Instr::Mult(_, _) => Instr::Mult(first, second),
            Instr::Div(_, _) => Instr::Div(first, second),
            Instr::Add(_, _, _) => Instr::Add(to, first, second),
            Instr::Sub(_, _, _) => Instr::Sub(to, first, second),
            Instr::Addu(_, _, _) => Instr::Addu(to, first, second),
            Instr::Subu(_, _, _) => Instr::Subu(to, first, second),
            Instr::And(_, _, _) => Instr::And(to, first, second),
            Instr::Or(_, _, _) => Instr::Or(to, first, second),
            Instr::Xor(_, _, _) => Instr::Xor(to, first, second),
            Instr::Nor(_, _, _) => Instr::Nor(to, first, second),
            Instr::Slt(_, _, _) => Instr::Slt(to, first, second),
            Instr::Sltu(_, _, _) => Instr::Sltu(to, first, second),
            Instr::Addi(_, _, n) => Instr::Addi(to, first, *n),
            Instr::Addiu(_, _, n) => Instr::Addiu(to, first, *n),
            Instr::Slti(_, _, n) => Instr::Slti(to, first, *n),
            Instr::Sltiu(_, _, n) => Instr::Sltiu(to, first, *n),
            Instr::Andi(_, _, n) => Instr::Andi(to, first, *n),
            Instr::Ori(_, _, n) => Instr::Ori(to, first, *n),
            Instr::Xori(_, _, n) => Instr::Xori(to, first, *n),
            Instr::Lui(_, n) => Instr::Lui(to, *n),
            Instr::Lb(_, n, _) => Instr::Lb(to, *n, first),
            Instr::Lbu(_, n, _) => Instr::Lbu(to, *n, first),
            Instr::Lw(_, n, _) => Instr::Lw(to, *n, first),
            Instr::Sb(_, n, _) => Instr::Sb(first, *n, second),
            Instr::Sw(_, n, _) => Instr::Sw(first, *n, second),
            Instr::Move(_, _) => Instr::Move(to, first),
            Instr::FrameLoad(_, slot) => Instr::FrameLoad(to, *slot),
            Instr::FrameStore(_, slot) => Instr::FrameStore(first, *slot),
            Instr::FrameAddress(_) => Instr::FrameAddress(to),
            Instr::Address(_, label) => Instr::Address(to, *label),
            Instr::Mark(mark) => Instr::Mark(*mark),
            Instr::Jump(mark) => Instr::Jump(*mark),
            Instr::Branch(test, mark) => Instr::Branch(test.renamed(first, second), *mark),
            Instr::Call(label) => Instr::Call(*label),
            Instr::Service => Instr::Service,
            Instr::Fault(code) => Instr::Fault(*code),
            Instr::Return => Instr::Return,
        }
    }
}

impl Test {
    ghost use Rattle.tg_instr.specs.Operands.{is_one_row};
    ghost use Rattle.tg_instr.specs.Renaming.{renamed_test};

    /// The test of two other operands.
    pub fn renamed(&self, left: Opnd, right: Opnd) -> Test
        requires { IsTrue (is_one_row self.now.rel left right) }
        ensures { result ≡ renamed_test self.now left right }
    {
        Test {
            rel: self.rel,
            left,
            right,
        }
    }
}

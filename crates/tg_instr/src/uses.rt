ghost use Rattle.std.specs.Prelude.{◌≡◌, ◌≤◌, ◌+◌, ◌<◌, [], ◌∷◌, ◌++◌, map, length, IsTrue, nat_lt};
ghost use Rattle.std.specs.List.{list_all};
ghost use Rattle.tg_instr.specs.declared.operands.Opnd.TheVariants.{Reg as RegOf};

use crate::instr::Instr;
use crate::operands::Opnd;
use smallvec::SmallVec;
use std::alloc::Global;
use tg_isa::Reg;

/// `$a0` to `$a3`, which a call hands on.
const ARGUMENTS: [u8; 4] = [4, 5, 6, 7];

/// The colours but for `$s0` to `$s7`, which a call leaves.
const CLOBBERED: [u8; 17] = [2, 3, 4, 5, 6, 7, 8, 9, 10, 11, 12, 13, 14, 15, 24, 25, 31];

/// `$v0` with the result, and what a function gives back: `$s0` to `$s7` and `$ra`.
const GIVEN_BACK: [u8; 10] = [2, 16, 17, 18, 19, 20, 21, 22, 23, 31];

impl Instr {
    ghost use Rattle.tg_instr.specs.Uses.{uses_of, defs_of};

    /// The operands whose content the instruction reads, moves or hands on, in the order of its
    /// text.
    pub fn uses(&self, alloc: Global) -> SmallVec<Opnd, 24>
        ensures { result.items ≡ uses_of self.now }
    {
        match self {
            Instr::Sll(_, rt, _) | Instr::Srl(_, rt, _) | Instr::Sra(_, rt, _) => one(alloc, *rt),
            Instr::Mult(rs, rt) | Instr::Div(rs, rt) => two(alloc, *rs, *rt),
            Instr::Add(_, rs, rt) | Instr::Sub(_, rs, rt) => two(alloc, *rs, *rt),
            Instr::Addu(_, rs, rt) | Instr::Subu(_, rs, rt) => two(alloc, *rs, *rt),
            Instr::And(_, rs, rt) | Instr::Or(_, rs, rt) => two(alloc, *rs, *rt),
            Instr::Xor(_, rs, rt) | Instr::Nor(_, rs, rt) => two(alloc, *rs, *rt),
            Instr::Slt(_, rs, rt) | Instr::Sltu(_, rs, rt) => two(alloc, *rs, *rt),
            Instr::Addi(_, rs, _) | Instr::Addiu(_, rs, _) => one(alloc, *rs),
            Instr::Slti(_, rs, _) | Instr::Sltiu(_, rs, _) => one(alloc, *rs),
            Instr::Andi(_, rs, _) | Instr::Ori(_, rs, _) | Instr::Xori(_, rs, _) => one(alloc, *rs),
            Instr::Lb(_, _, rs) | Instr::Lbu(_, _, rs) | Instr::Lw(_, _, rs) => one(alloc, *rs),
            Instr::Sb(rt, _, rs) | Instr::Sw(rt, _, rs) => two(alloc, *rt, *rs),
            Instr::Move(_, from) | Instr::FrameStore(from, _) => one(alloc, *from),
            Instr::Branch(test, _) => two(alloc, test.left, test.right),
            Instr::Call(_) => registers(alloc, &ARGUMENTS),
            Instr::Service => two(alloc, Opnd::Reg(Reg::V0), Opnd::Reg(Reg::A0)),
            Instr::Return => registers(alloc, &GIVEN_BACK),
            _ => none(alloc),
        }
    }

    /// The operands that hold something else after the instruction than before it: at a call all
    /// that it may change.
    pub fn defs(&self, alloc: Global) -> SmallVec<Opnd, 24>
        ensures { result.items ≡ defs_of self.now }
    {
        match self {
            Instr::Sll(rd, _, _) | Instr::Srl(rd, _, _) | Instr::Sra(rd, _, _) => one(alloc, *rd),
            Instr::Mfhi(rd) | Instr::Mflo(rd) => one(alloc, *rd),
            Instr::Add(rd, _, _) | Instr::Sub(rd, _, _) => one(alloc, *rd),
            Instr::Addu(rd, _, _) | Instr::Subu(rd, _, _) => one(alloc, *rd),
            Instr::And(rd, _, _) | Instr::Or(rd, _, _) => one(alloc, *rd),
            Instr::Xor(rd, _, _) | Instr::Nor(rd, _, _) => one(alloc, *rd),
            Instr::Slt(rd, _, _) | Instr::Sltu(rd, _, _) => one(alloc, *rd),
            Instr::Addi(rt, _, _) | Instr::Addiu(rt, _, _) => one(alloc, *rt),
            Instr::Slti(rt, _, _) | Instr::Sltiu(rt, _, _) => one(alloc, *rt),
            Instr::Andi(rt, _, _) | Instr::Ori(rt, _, _) | Instr::Xori(rt, _, _) => one(alloc, *rt),
            Instr::Lui(rt, _) => one(alloc, *rt),
            Instr::Lb(rt, _, _) | Instr::Lbu(rt, _, _) | Instr::Lw(rt, _, _) => one(alloc, *rt),
            Instr::Move(to, _) | Instr::FrameLoad(to, _) => one(alloc, *to),
            Instr::FrameAddress(to) | Instr::Address(to, _) => one(alloc, *to),
            Instr::Call(_) => registers(alloc, &CLOBBERED),
            Instr::Service => one(alloc, Opnd::Reg(Reg::V0)),
            _ => none(alloc),
        }
    }
}

fn none(alloc: Global) -> SmallVec<Opnd, 24>
    ensures items { result.items ≡ [] }
    ensures capacity { result.capacity ≡ 24 }
{
    SmallVec::new(alloc)
}

fn one(alloc: Global, first: Opnd) -> SmallVec<Opnd, 24>
    ensures items { result.items ≡ first ∷ [] }
    ensures capacity { result.capacity ≡ 24 }
{
    let mut list = none(alloc);
    list.push_reserved(first);
    list
}

fn two(alloc: Global, first: Opnd, second: Opnd) -> SmallVec<Opnd, 24>
    ensures items { result.items ≡ first ∷ second ∷ [] }
    ensures capacity { result.capacity ≡ 24 }
{
    let mut list = one(alloc, first);
    list.push_reserved(second);
    list
}

fn registers(alloc: Global, numbers: &[u8]) -> SmallVec<Opnd, 24>
    requires few { length numbers.now ≤ 24 }
    requires registers { IsTrue (list_all (λ n. nat_lt n 32) numbers.now) }
    ensures items { result.items ≡ map (λ n. RegOf n) numbers.now }
    ensures capacity { result.capacity ≡ 24 }
{
    let mut list = none(alloc);
    for &number in numbers.iter() {
        list.push_reserved(Opnd::Reg(Reg::new(number)));
    }
    list
}

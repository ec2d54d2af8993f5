ghost use Rattle.std.specs.Prelude.{◌≡◌};
ghost use Rattle.tg_delay.specs.Filling.{
  branches,
  controls,
  movable,
  opposite,
  reads,
  stays,
  writes,
};
ghost use Rattle.tg_delay.specs.glue.Registers.{registers_of};

use crate::registers::Registers;
use tg_isa::{Mips, Reg};

/// The registers that an instruction reads.
fn reads(one: &Mips) -> Registers
    ensures { registers_of result ≡ reads one.now }
{
    match one {
        Mips::Sll(_, rt, _) | Mips::Srl(_, rt, _) | Mips::Sra(_, rt, _) => Registers::One(*rt),
        Mips::Jr(rs) | Mips::Jalr(_, rs) => Registers::One(*rs),
        Mips::Syscall => Registers::Two(Reg::V0, Reg::A0),
        Mips::Mult(rs, rt) | Mips::Div(rs, rt) => Registers::Two(*rs, *rt),
        Mips::Add(_, rs, rt) | Mips::Sub(_, rs, rt) => Registers::Two(*rs, *rt),
        Mips::Addu(_, rs, rt) | Mips::Subu(_, rs, rt) => Registers::Two(*rs, *rt),
        Mips::And(_, rs, rt) | Mips::Or(_, rs, rt) => Registers::Two(*rs, *rt),
        Mips::Xor(_, rs, rt) | Mips::Nor(_, rs, rt) => Registers::Two(*rs, *rt),
        Mips::Slt(_, rs, rt) | Mips::Sltu(_, rs, rt) => Registers::Two(*rs, *rt),
        Mips::Beq(rs, rt, _) | Mips::Bne(rs, rt, _) => Registers::Two(*rs, *rt),
        Mips::Blez(rs, _) | Mips::Bgtz(rs, _) => Registers::One(*rs),
        Mips::Bltz(rs, _) | Mips::Bgez(rs, _) => Registers::One(*rs),
        Mips::Addi(_, rs, _) | Mips::Addiu(_, rs, _) => Registers::One(*rs),
        Mips::Slti(_, rs, _) | Mips::Sltiu(_, rs, _) => Registers::One(*rs),
        Mips::Andi(_, rs, _) | Mips::Ori(_, rs, _) | Mips::Xori(_, rs, _) => Registers::One(*rs),
        Mips::Lb(_, _, rs) | Mips::Lbu(_, _, rs) | Mips::Lw(_, _, rs) => Registers::One(*rs),
        Mips::Sb(rt, _, rs) | Mips::Sw(rt, _, rs) => Registers::Two(*rt, *rs),
        _ => Registers::None,
    }
}

/// The register that an instruction writes, where it writes one.
fn writes(one: &Mips) -> Registers
    ensures { registers_of result ≡ writes one.now }
{
    match one {
        Mips::Sll(rd, _, _) | Mips::Srl(rd, _, _) | Mips::Sra(rd, _, _) => Registers::written(*rd),
        Mips::Jalr(rd, _) | Mips::Mfhi(rd) | Mips::Mflo(rd) => Registers::written(*rd),
        Mips::Syscall => Registers::written(Reg::V0),
        Mips::Jal(_) => Registers::written(Reg::RA),
        Mips::Add(rd, _, _) | Mips::Sub(rd, _, _) => Registers::written(*rd),
        Mips::Addu(rd, _, _) | Mips::Subu(rd, _, _) => Registers::written(*rd),
        Mips::And(rd, _, _) | Mips::Or(rd, _, _) => Registers::written(*rd),
        Mips::Xor(rd, _, _) | Mips::Nor(rd, _, _) => Registers::written(*rd),
        Mips::Slt(rd, _, _) | Mips::Sltu(rd, _, _) => Registers::written(*rd),
        Mips::Addi(rt, _, _) | Mips::Addiu(rt, _, _) => Registers::written(*rt),
        Mips::Slti(rt, _, _) | Mips::Sltiu(rt, _, _) => Registers::written(*rt),
        Mips::Andi(rt, _, _) | Mips::Ori(rt, _, _) => Registers::written(*rt),
        Mips::Xori(rt, _, _) | Mips::Lui(rt, _) => Registers::written(*rt),
        Mips::Lb(rt, _, _) | Mips::Lbu(rt, _, _) | Mips::Lw(rt, _, _) => Registers::written(*rt),
        _ => Registers::None,
    }
}

/// Whether an instruction jumps or branches.
pub fn controls(one: &Mips) -> bool
    ensures { result ≡ controls one.now }
{
    match one {
        Mips::J(_) | Mips::Jal(_) | Mips::Jr(_) | Mips::Jalr(_, _) => true,
        _ => branches(one),
    }
}

/// Whether an instruction is never moved into a slot.
fn stays(one: &Mips) -> bool
    ensures { result ≡ stays one.now }
{
    match one {
        Mips::Syscall | Mips::Break(_) => true,
        _ => controls(one),
    }
}

/// Whether an instruction may go into the slot of the one behind it.
pub fn movable(one: &Mips, other: &Mips) -> bool
    ensures { result ≡ movable one.now other.now }
{
    controls(other)
        && !stays(one)
        && !writes(one).touch(&reads(other))
        && !reads(one).touch(&writes(other))
        && !writes(one).touch(&writes(other))
}

/// Whether an instruction is a branch.
pub fn branches(one: &Mips) -> bool
    ensures { result ≡ branches one.now }
{
    match one {
        Mips::Beq(_, _, _) | Mips::Bne(_, _, _) => true,
        Mips::Blez(_, _) | Mips::Bgtz(_, _) | Mips::Bltz(_, _) | Mips::Bgez(_, _) => true,
        _ => false,
    }
}

/// The branch that is taken exactly where this one isn't.
pub fn opposite(one: &Mips) -> Mips
    ensures { result ≡ opposite one.now }
{
    match one {
        Mips::Beq(rs, rt, to) => Mips::Bne(*rs, *rt, *to),
        Mips::Bne(rs, rt, to) => Mips::Beq(*rs, *rt, *to),
        Mips::Blez(rs, to) => Mips::Bgtz(*rs, *to),
        Mips::Bgtz(rs, to) => Mips::Blez(*rs, *to),
        Mips::Bltz(rs, to) => Mips::Bgez(*rs, *to),
        Mips::Bgez(rs, to) => Mips::Bltz(*rs, *to),
        _ => *one,
    }
}

ghost use Rattle.std.specs.Prelude.{◌≡◌, ◌<◌, ◌^◌};
ghost use Rattle.tg_emit.specs.Ranges.{RowFits};
ghost use Rattle.tg_emit.specs.mirror.Rows.{
  register_of,
  row_of,
  branch_of,
  opposite_branch_of,
  branch_on as branch_on_rel,
};

use tg_instr::{Instr, Opnd, Test};
use tg_isa::{Bits, Mips, Reg};
use tg_tree::{Rel, opposite};

/// The register of an operand of code that is allocated.
pub fn register(one: Opnd) -> Reg
    ensures register { result ≡ register_of one }
    ensures fits { register_of one < 32 }
{
    match one {
        Opnd::Reg(register) => register,
        Opnd::Temp(_) => Reg::ZERO,
    }
}

/// A field, whose number fits its bits.
fn field<const N: u32>(one: Bits<N>) -> Bits<N>
    ensures value { result ≡ one.entry }
    ensures fits { one.entry < 2 ^ N }
{
    one
}

/// The row of an instruction that is one, each field of which fits its bits.
pub fn row(one: &Instr) -> Option<Mips>
    ensures row { result ≡ row_of one.now }
    ensures fits { RowFits one.now }
{
    match one {
        Instr::Sll(rd, rt, n) => Some(Mips::Sll(register(*rd), register(*rt), field(*n))),
        Instr::Srl(rd, rt, n) => Some(Mips::Srl(register(*rd), register(*rt), field(*n))),
        Instr::Sra(rd, rt, n) => Some(Mips::Sra(register(*rd), register(*rt), field(*n))),
        Instr::Mfhi(rd) => Some(Mips::Mfhi(register(*rd))),
        Instr::Mflo(rd) => Some(Mips::Mflo(register(*rd))),
        Instr::Mult(rs, rt) => Some(Mips::Mult(register(*rs), register(*rt))),
        Instr::Div(rs, rt) => Some(Mips::Div(register(*rs), register(*rt))),
        Instr::Move(to, from) => Some(Mips::Addu(register(*to), Reg::ZERO, register(*from))),
        Instr::Service => Some(Mips::Syscall),
        Instr::Lui(rt, n) => Some(Mips::Lui(register(*rt), field(*n))),
        Instr::Lb(rt, n, rs) => Some(Mips::Lb(register(*rt), field(*n), register(*rs))),
        Instr::Lbu(rt, n, rs) => Some(Mips::Lbu(register(*rt), field(*n), register(*rs))),
        Instr::Lw(rt, n, rs) => Some(Mips::Lw(register(*rt), field(*n), register(*rs))),
        Instr::Sb(rt, n, rs) => Some(Mips::Sb(register(*rt), field(*n), register(*rs))),
        Instr::Sw(rt, n, rs) => Some(Mips::Sw(register(*rt), field(*n), register(*rs))),
        Instr::Add(rd, rs, rt) => Some(Mips::Add(register(*rd), register(*rs), register(*rt))),
        Instr::Sub(rd, rs, rt) => Some(Mips::Sub(register(*rd), register(*rs), register(*rt))),
        Instr::Addu(rd, rs, rt) => Some(Mips::Addu(register(*rd), register(*rs), register(*rt))),
        Instr::Subu(rd, rs, rt) => Some(Mips::Subu(register(*rd), register(*rs), register(*rt))),
        Instr::And(rd, rs, rt) => Some(Mips::And(register(*rd), register(*rs), register(*rt))),
        Instr::Or(rd, rs, rt) => Some(Mips::Or(register(*rd), register(*rs), register(*rt))),
        Instr::Xor(rd, rs, rt) => Some(Mips::Xor(register(*rd), register(*rs), register(*rt))),
        Instr::Nor(rd, rs, rt) => Some(Mips::Nor(register(*rd), register(*rs), register(*rt))),
        Instr::Slt(rd, rs, rt) => Some(Mips::Slt(register(*rd), register(*rs), register(*rt))),
        Instr::Sltu(rd, rs, rt) => Some(Mips::Sltu(register(*rd), register(*rs), register(*rt))),
        Instr::Addi(rt, rs, n) => Some(Mips::Addi(register(*rt), register(*rs), field(*n))),
        Instr::Addiu(rt, rs, n) => Some(Mips::Addiu(register(*rt), register(*rs), field(*n))),
        Instr::Slti(rt, rs, n) => Some(Mips::Slti(register(*rt), register(*rs), field(*n))),
        Instr::Sltiu(rt, rs, n) => Some(Mips::Sltiu(register(*rt), register(*rs), field(*n))),
        Instr::Andi(rt, rs, n) => Some(Mips::Andi(register(*rt), register(*rs), field(*n))),
        Instr::Ori(rt, rs, n) => Some(Mips::Ori(register(*rt), register(*rs), field(*n))),
        Instr::Xori(rt, rs, n) => Some(Mips::Xori(register(*rt), register(*rs), field(*n))),
        _ => None,
    }
}

/// The branch of a test, with 0 as its field.
pub fn branch(test: &Test) -> Mips
    ensures row { result ≡ branch_of test.now }
    ensures fits { (register_of test.now.left < 32) × (register_of test.now.right < 32) }
{
    branch_on(test.rel, register(test.left), register(test.right))
}

/// The branch of the opposite test, with 0 as its field.
pub fn opposite_branch(test: &Test) -> Mips
    ensures row { result ≡ opposite_branch_of test.now }
    ensures fits { (register_of test.now.left < 32) × (register_of test.now.right < 32) }
{
    branch_on(
        opposite(test.rel),
        register(test.left),
        register(test.right),
    )
}

fn branch_on(rel: Rel, left: Reg, right: Reg) -> Mips
    ensures { result ≡ branch_on_rel rel left right }
{
    let to = Bits::new(0);
    match rel {
        Rel::Equal => Mips::Beq(left, right, to),
        Rel::NotEqual => Mips::Bne(left, right, to),
        Rel::Less => Mips::Bltz(left, to),
        Rel::LessEqual => Mips::Blez(left, to),
        Rel::Greater => Mips::Bgtz(left, to),
        Rel::GreaterEqual => Mips::Bgez(left, to),
        _ => Mips::Beq(Reg::ZERO, Reg::ZERO, to),
    }
}

ghost use Rattle.std.specs.Prelude.{◌≡◌, ◌<◌, ◌+◌, ◌^◌, IsTrue};
ghost use Rattle.tg_instr.specs.Operands.{is_same};
ghost use Rattle.tg_live.specs.Live.{number_of, operand_of, is_proper, is_among};
ghost use Rattle.tg_instr.specs.declared.operands.Opnd.TheVariants.{Temp as TempOf, Reg as RegOf};
ghost use Rattle.tg_live.specs.glue.LiveChanges.{ends_in};

use tg_base::Temp;
use tg_instr::Opnd;
use tg_isa::Reg;

/// The number of the registers, after which the temporaries are numbered.
pub(crate) const REGISTERS: usize = 32;

/// The number of an operand in the order of operands.
pub(crate) fn number_of(one: Opnd) -> usize
    ensures number { result ≡ number_of one }
    ensures proper { IsTrue (is_proper one) }
{
    match one {
        Opnd::Reg(reg) => reg.number() as usize,
        Opnd::Temp(temp) => REGISTERS + temp.0 as usize,
    }
}

/// The operand with a number.
pub(crate) fn operand_of(number: usize) -> Opnd
    requires { number < 32 + 2 ^ 32 }
    ensures { result ≡ operand_of number }
{
    if number < REGISTERS {
        Opnd::Reg(Reg::new(number as u8))
    } else {
        Opnd::Temp(Temp((number - REGISTERS) as u32))
    }
}

pub(crate) fn is_same(left: &Opnd, right: &Opnd) -> bool
    ensures { result ≡ is_same left.now right.now }
{
    match left {
        Opnd::Temp(temp) => is_temp(*temp, right),
        Opnd::Reg(reg) => is_register(*reg, right),
    }
}

fn is_temp(temp: Temp, one: &Opnd) -> bool
    ensures { result ≡ is_same (TempOf temp) one.now }
{
    match one {
        Opnd::Temp(other) => temp.0 == other.0,
        Opnd::Reg(_) => false,
    }
}

fn is_register(reg: Reg, one: &Opnd) -> bool
    ensures { result ≡ is_same (RegOf reg) one.now }
{
    match one {
        Opnd::Temp(_) => false,
        Opnd::Reg(other) => reg.number() == other.number(),
    }
}

/// Whether the operand is the last of a list.
pub(crate) fn ends_in(one: &Opnd, list: &[Opnd]) -> bool
    ensures { result ≡ ends_in one.now list.now }
{
    match list.last() {
        Some(last) => is_same(one, last),
        None => false,
    }
}

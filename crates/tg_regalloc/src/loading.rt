ghost use Rattle.std.specs.Prelude.{◌≡◌, ◌<◌, ◌^◌, ◌+◌, ◌++◌, IsTrue, OnOk};
ghost use Rattle.tg_instr.specs.Codes.{has_temps_below};
ghost use Rattle.tg_regalloc.specs.glue.Below.{is_option_below};
ghost use Rattle.tg_instr.specs.Renaming.{named};
ghost use Rattle.tg_regalloc.specs.mirror.InFrame.{
  instruction_in_frame,
  loaded,
  moved,
  stored,
  through as through_register,
  through_named,
  through_slots,
};

use tg_base::Memory;
use tg_instr::{Instr, Opnd, push_instr};
use tg_isa::Reg;

/// The registers through which operands go that stand in slots: `$t0` and `$t1`.
const FIRST: u8 = 8;

const SECOND: u8 = 9;

/// Puts what stands for an instruction at the end of a list, where slot `base + t` is that of the
/// temporary t.
pub fn put(list: &mut Vec<Instr>, base: u32, temps: u32, one: &Instr) -> Result<(), Memory>
    requires below { IsTrue (has_temps_below temps one.now) }
    requires fits { base + temps < 2 ^ 32 }
    ensures { OnOk result (list.new.items ≡ list.old.items ++ instruction_in_frame base one.now) }
{
    match one {
        Instr::Move(to, from) => put_move(list, base, temps, *to, *from),
        _ => put_through(list, base, temps, one),
    }
}

/// Puts an instruction that is no move.
fn put_through(list: &mut Vec<Instr>, base: u32, temps: u32, one: &Instr) -> Result<(), Memory>
    requires below { IsTrue (has_temps_below temps one.now) }
    requires fits { base + temps < 2 ^ 32 }
    ensures { OnOk result
        (list.new.items ≡ list.old.items ++ through_slots base one.now (named one.now)) }
{
    let named = one.named();
    load(list, base, temps, FIRST, named.first)?;
    load(list, base, temps, SECOND, named.second)?;
    let to = through_or(FIRST, named.to);
    let first = through_or(FIRST, named.first);
    let second = through_or(SECOND, named.second);
    push_instr(list, one.renamed(to, first, second))?;
    store(list, base, temps, FIRST, named.to)
}

/// Puts a move.
fn put_move(
    list: &mut Vec<Instr>,
    base: u32,
    temps: u32,
    to: Opnd,
    from: Opnd,
) -> Result<(), Memory>
    requires to_below { IsTrue (is_option_below temps (Some to)) }
    requires from_below { IsTrue (is_option_below temps (Some from)) }
    requires fits { base + temps < 2 ^ 32 }
    ensures { OnOk result (list.new.items ≡ list.old.items ++ moved base to from) }
{
    match (to, from) {
        (Opnd::Temp(to), Opnd::Temp(from)) => {
            push_instr(list, Instr::FrameLoad(Opnd::Reg(Reg::T0), base + from.0))?;
            push_instr(list, Instr::FrameStore(Opnd::Reg(Reg::T0), base + to.0))
        }
        (Opnd::Temp(to), Opnd::Reg(_)) => push_instr(list, Instr::FrameStore(from, base + to.0)),
        (Opnd::Reg(_), Opnd::Temp(from)) => push_instr(list, Instr::FrameLoad(to, base + from.0)),
        (Opnd::Reg(_), Opnd::Reg(_)) => push_instr(list, Instr::Move(to, from)),
    }
}

/// The register through which an operand goes: its own, or the one for temporaries.
fn through(register: u8, one: Opnd) -> Opnd
    requires { register < 32 }
    ensures { result ≡ through_register register one }
{
    match one {
        Opnd::Temp(_) => Opnd::Reg(Reg::new(register)),
        Opnd::Reg(_) => one,
    }
}

fn through_or(register: u8, one: Option<Opnd>) -> Opnd
    requires { register < 32 }
    ensures { result ≡ through_named register one }
{
    match one {
        Some(one) => through(register, one),
        None => Opnd::Reg(Reg::new(register)),
    }
}

/// Puts the load of a temporary into a register.
fn load(
    list: &mut Vec<Instr>,
    base: u32,
    temps: u32,
    register: u8,
    one: Option<Opnd>,
) -> Result<(), Memory>
    requires register { register < 32 }
    requires below { IsTrue (is_option_below temps one) }
    requires fits { base + temps < 2 ^ 32 }
    ensures { OnOk result (list.new.items ≡ list.old.items ++ loaded base register one) }
{
    match one {
        Some(Opnd::Temp(temp)) => {
            push_instr(
                list,
                Instr::FrameLoad(Opnd::Reg(Reg::new(register)), base + temp.0),
            )
        }
        _ => Ok(()),
    }
}

/// Puts the store of a register into a temporary.
fn store(
    list: &mut Vec<Instr>,
    base: u32,
    temps: u32,
    register: u8,
    one: Option<Opnd>,
) -> Result<(), Memory>
    requires register { register < 32 }
    requires below { IsTrue (is_option_below temps one) }
    requires fits { base + temps < 2 ^ 32 }
    ensures { OnOk result (list.new.items ≡ list.old.items ++ stored base register one) }
{
    match one {
        Some(Opnd::Temp(temp)) => {
            push_instr(
                list,
                Instr::FrameStore(Opnd::Reg(Reg::new(register)), base + temp.0),
            )
        }
        _ => Ok(()),
    }
}

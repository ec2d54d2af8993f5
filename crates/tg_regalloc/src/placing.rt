ghost use Rattle.std.specs.Prelude.{◌≡◌, ◌<◌, ◌+◌, ◌++◌, ◌^◌, IsTrue, OnOk, length};
ghost use Rattle.tg_instr.specs.declared.operands.Opnd.TheVariants.{Temp as TempOf};
ghost use Rattle.tg_instr.specs.Codes.{is_below};
ghost use Rattle.tg_regalloc.specs.Rewriting.{
  drawn,
  in_slot,
  loads,
  placed,
  slot_in,
  staying,
  stores,
};
ghost use Rattle.tg_regalloc.specs.glue.Below.{is_option_below};

use tg_base::{Memory, Temp};
use tg_instr::{Instr, Opnd, push_instr};
use tg_isa::Reg;

/// Where an operand of an instruction stands after a round that spills: itself, or, where it is a
/// temporary that went to a slot, a temporary made for this place, which is loaded from the slot or
/// stored to it.
#[derive(Clone, Copy)]
pub struct Placed {
    pub operand: Opnd,
    pub slot: Option<u32>,
}

impl Placed {
    fn staying(operand: Opnd) -> Placed
        ensures { result ≡ staying operand }
    {
        Placed {
            operand,
            slot: None,
        }
    }

    /// Puts the load before the instruction, where the operand has a slot.
    pub fn put_load(self, list: &mut Vec<Instr>) -> Result<(), Memory>
        ensures { OnOk result (list.new.items ≡ list.old.items ++ loads self.operand self.slot) }
    {
        match self.slot {
            Some(slot) => push_instr(list, Instr::FrameLoad(self.operand, slot)),
            None => Ok(()),
        }
    }

    /// Puts the store after the instruction, where the operand has a slot.
    pub fn put_store(self, list: &mut Vec<Instr>) -> Result<(), Memory>
        ensures { OnOk result (list.new.items ≡ list.old.items ++ stores self.operand self.slot) }
    {
        match self.slot {
            Some(slot) => push_instr(list, Instr::FrameStore(self.operand, slot)),
            None => Ok(()),
        }
    }
}

/// Places an operand that an instruction names, or none; `next` is the number of the next temporary
/// to be made.
pub fn place(slots: &[Option<u32>], one: Option<Opnd>, next: &mut u32) -> Placed
    requires below { IsTrue (is_option_below (length slots.now) one) }
    requires room { next.old + 1 < 2 ^ 32 }
    ensures placed { result ≡ placed (slot_in slots.now) one next.old }
    ensures next { next.new ≡ next.old + drawn result }
{
    match one {
        Some(one) => place_operand(slots, one, next),
        None => Placed::staying(Opnd::Reg(Reg::ZERO)),
    }
}

fn place_operand(slots: &[Option<u32>], one: Opnd, next: &mut u32) -> Placed
    requires below { IsTrue (is_below (length slots.now) one) }
    requires room { next.old + 1 < 2 ^ 32 }
    ensures placed { result ≡ placed (slot_in slots.now) (Some one) next.old }
    ensures next { next.new ≡ next.old + drawn result }
{
    match one {
        Opnd::Temp(temp) => place_temp(temp, slots[temp.0 as usize], next),
        Opnd::Reg(_) => Placed::staying(one),
    }
}

fn place_temp(temp: Temp, slot: Option<u32>, next: &mut u32) -> Placed
    requires { next.old + 1 < 2 ^ 32 }
    ensures placed { result ≡ in_slot next.old (TempOf temp) slot }
    ensures next { next.new ≡ next.old + drawn result }
{
    match slot {
        None => Placed::staying(Opnd::Temp(temp)),
        Some(_) => {
            let made = Temp(*next);
            *next += 1;
            Placed {
                operand: Opnd::Temp(made),
                slot,
            }
        }
    }
}

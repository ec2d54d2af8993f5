// `in_frame` puts temporary t in slot `slots + t`. Operands go through `$t0` and `$t1`, which it
// asks code before allocation not to name; a move between a slot and a register is one load or
// store.

ghost use Rattle.std.specs.Prelude.{[], ◌≡◌, ◌<◌, ◌+◌, ◌^◌, IsTrue, IfOk, cond};
ghost use Rattle.std.specs.List.{list_all};
ghost use Rattle.tg_instr.specs.Codes.{
  has_slots_below,
  has_temps_below,
  is_allocated,
  names_registers,
};
ghost use Rattle.tg_regalloc.specs.Conditions.{is_fixed};
ghost use Rattle.tg_regalloc.specs.mirror.InFrame.{code_in_frame, locations_from};

use crate::allocations::{Allocation, Location, Locations, Rounds};
use crate::loading::put;
use std::alloc::Global;
use tg_base::Memory;
use tg_frame::Frame;
use tg_instr::{Allocated, Code, Instr, Instrs};

/// The code with every temporary in a slot of its own, above those that the frame has: temporary t
/// in slot `slots + t`.
pub fn in_frame(alloc: Global, code: &Code, frame: Frame) -> Result<Allocation, Memory>
    requires slots { frame.slots < 16777216 }
    requires temps { code.now.temps < 16777216 }
    requires registers { IsTrue (list_all (names_registers is_fixed) code.now.list) }
    requires slots_below { IsTrue (list_all (has_slots_below frame.slots) code.now.list) }
    ensures code { IfOk result (λ a. a.done.code.list ≡ code_in_frame frame.slots code.now.list) }
    ensures frame { IfOk result (λ a. a.done.frame.slots ≡ frame.slots + a.slots) }
    ensures label { IfOk result (λ a. a.done.frame.label ≡ frame.label) }
    ensures params { IfOk result (λ a. a.done.frame.params ≡ frame.params) }
    ensures temps { IfOk result (λ a. a.done.frame.temps ≡ frame.temps) }
    ensures out { IfOk result (λ a. a.done.frame.out ≡ frame.out) }
    ensures locations { IfOk result (λ a. a.registers ≡ locations_from frame.slots code.now.temps) }
    ensures slots { IfOk result (λ a. a.slots ≡ code.now.temps) }
    ensures rounds { IfOk result (λ a. a.rounds ≡ []) }
    ensures all { IfOk result (λ a. IsTrue a.all_in_frame) }
    ensures registers { IfOk result
        (λ a. IsTrue (list_all (names_registers is_allocated) a.done.code.list)) }
{
    let base = frame.slots;
    let list = instructions(alloc, code.list.as_slice(), base, code.temps)?;
    let registers = locations(alloc, base, code.temps)?;
    let mut frame = frame;
    frame.slots += code.temps;
    Ok(Allocation {
        done: Allocated {
            frame,
            code: Code {
                list: Instrs::from_vec(list),
                temps: 0,
            },
        },
        registers,
        rounds: Rounds::from_vec(Vec::new(alloc)),
        all_in_frame: true,
        slots: code.temps,
    })
}

fn instructions(alloc: Global, code: &[Instr], base: u32, temps: u32) -> Result<Vec<Instr>, Memory>
    requires fits { base + temps < 2 ^ 32 }
    requires below { IsTrue (list_all (has_temps_below temps) code.now) }
    ensures { IfOk result (λ list. list.items ≡ code_in_frame base code.now) }
{
    let mut list = Vec::new(alloc);
    for one in code.iter() {
        put(&mut list, base, temps, one)?;
    }
    Ok(list)
}

fn locations(alloc: Global, base: u32, count: u32) -> Result<Locations, Memory>
    requires { base + count < 2 ^ 32 }
    ensures { IfOk result (λ locations. locations ≡ locations_from base count) }
{
    let mut locations = Vec::new(alloc);
    for temp in 0..count {
        locations.push(Location::Slot(base + temp))?;
    }
    Ok(Locations::from_vec(locations))
}

ghost use Rattle.std.specs.Prelude.{[], ◌≡◌, ◌<◌, ◌++◌, ◌∷◌, IsTrue, IfOk};
ghost use Rattle.std.specs.List.{list_all};
ghost use Rattle.tg_instr.specs.Codes.{has_slots_below, is_allocated, names_registers};
ghost use Rattle.tg_regalloc.specs.Allocations.{HasFrame, IsAllocation};
ghost use Rattle.tg_regalloc.specs.Conditions.{is_fixed};
ghost use Rattle.tg_regalloc.specs.mirror.InFrame.{code_in_frame, locations_from};

use crate::allocations::Allocation;
use crate::frames::in_frame;
use crate::progress::Progress;
use crate::stages::{color_code, slotted};
use std::alloc::Global;
use tg_base::Memory;
use tg_frame::Frame;
use tg_instr::Code;
use tg_irc_definition::{Round, SpillPolicy};

/// Registers for a code's temporaries by rounds of coalescing and spilling (George and Appel 1996,
/// section 4): each round that spills a class with an original gives it a slot, above those that
/// the frame has, and the next round is on the code with its loads and stores. Where a round spills
/// classes of made temporaries alone, every temporary of the code that was handed in goes to the
/// frame. After `Memory` the policy may have been asked.
pub fn allocate(
    alloc: Global,
    code: &Code,
    frame: Frame,
    policy: &mut dyn SpillPolicy,
) -> Result<Allocation, Memory>
    requires slots { frame.slots < 16777216 }
    requires temps { code.now.temps < 16777216 }
    requires registers { IsTrue (list_all (names_registers is_fixed) code.now.list) }
    requires slots_below { IsTrue (list_all (has_slots_below frame.slots) code.now.list) }
    ensures allocation { IfOk result (λ a. IsAllocation (rule policy.old) code.now frame a) }
    ensures registers { IfOk result
        (λ a. IsTrue (list_all (names_registers is_allocated) a.done.code.list)) }
    ensures same { rule policy.new ≡ rule policy.old }
{
    let originals = code.temps;
    let mut rounds = Vec::new(alloc);
    let mut progress = Progress::new(alloc, code, frame.slots)?;
    'rounds: for _ in 0..=originals {
        let round = color_code(alloc, &progress.code, originals, policy)?;
        let classes = slotted(alloc, originals, &round)?;
        if classes.is_empty() {
            return if round.spilled.as_slice().is_empty() {
                progress.finish(alloc, frame, round, rounds)
            } else {
                all_in_frame(alloc, code, frame, round, rounds)
            };
        }
        progress = progress.spill(alloc, &round, &classes)?;
        rounds.push(round)?;
    }
    Err(Memory)
}

/// Every temporary in the frame, after a round that spills made temporaries alone.
fn all_in_frame(
    alloc: Global,
    code: &Code,
    frame: Frame,
    round: Round,
    rounds: Vec<Round>,
) -> Result<Allocation, Memory>
    requires slots { frame.slots < 16777216 }
    requires temps { code.now.temps < 16777216 }
    requires registers { IsTrue (list_all (names_registers is_fixed) code.now.list) }
    requires slots_below { IsTrue (list_all (has_slots_below frame.slots) code.now.list) }
    ensures code { IfOk result (λ a. a.done.code.list ≡ code_in_frame frame.slots code.now.list) }
    ensures frame { IfOk result (λ a. HasFrame frame a) }
    ensures locations { IfOk result (λ a. a.registers ≡ locations_from frame.slots code.now.temps) }
    ensures slots { IfOk result (λ a. a.slots ≡ code.now.temps) }
    ensures rounds { IfOk result (λ a. a.rounds ≡ rounds.items ++ round ∷ []) }
    ensures all { IfOk result (λ a. IsTrue a.all_in_frame) }
    ensures registers { IfOk result
        (λ a. IsTrue (list_all (names_registers is_allocated) a.done.code.list)) }
{
    in_frame(alloc, code, frame)?.behind(rounds, round)
}

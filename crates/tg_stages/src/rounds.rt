ghost use Rattle.std.specs.Prelude.{◌≡◌, ◌≤◌, length, IfOk, IsTrue, OnOk};
ghost use Rattle.std.specs.List.{list_all};
ghost use Rattle.tg_instr.specs.Codes.{has_slots_below, names_registers};
ghost use Rattle.tg_regalloc.specs.Conditions.{is_fixed};
ghost use Rattle.tg_regalloc.specs.Rounds.{CodeIsNumbered, IsOfTemps, next_stage, stage_of};
ghost use Rattle.tg_stages.specs.LaterRounds.{TellLater, TellsRound};
ghost use Rattle.tg_stages.specs.glue.Allocating.{HasRounds};
ghost use Rattle.tg_stages.specs.glue.Putting.{Puts};

use std::alloc::Global;
use tg_base::{Bytes, Memory};
use tg_instr::Code;
use tg_interference::{interference, moves_of};
use tg_irc_definition::{Round, rounds_are_of_nodes};
use tg_live::{flow, live};
use tg_regalloc::{Progress, slotted};
use tg_show::put_round;

/// The most temporaries that a code has before a round, and the most instructions.
const MOST_TEMPS: u32 = 16_777_216;

const MOST_INSTRUCTIONS: usize = 89_478_485;

/// Puts the graphs and moves of the rounds of a code's allocation behind the first at the end.
pub fn put_later_rounds(
    alloc: Global,
    text: &mut Vec<u8>,
    names: &[Bytes],
    code: &Code,
    slots: u32,
    rounds: &[Round],
) -> Result<(), Memory>
    requires registers { IsTrue (list_all (names_registers is_fixed) code.now.list) }
    requires slots_below { IsTrue (list_all (has_slots_below slots) code.now.list) }
    requires rounds { HasRounds code.now.temps (stage_of code.now slots) rounds.now }
    ensures { OnOk result (Puts text.old.items text.new.items
        (TellLater names.now code.now.temps 1 (stage_of code.now slots) rounds.now)) }
{
    rounds_are_of_nodes();
    let mut progress = Progress::new(alloc, code, slots)?;
    for at in 0..rounds.len().saturating_sub(1) {
        progress = spill(alloc, progress, code.temps, &rounds[at])?;
        put_code_of_round(alloc, text, names, at + 2, &progress.code)?;
    }
    Ok(())
}

/// The code that a round is followed by, and what it has taken of the frame.
fn spill(
    alloc: Global,
    progress: Progress,
    originals: u32,
    round: &Round,
) -> Result<Progress, Memory>
    requires originals { originals ≤ progress.code.temps }
    requires size { length progress.locations.items ≡ originals }
    requires nodes { IsOfTemps progress.code.temps round.now }
    ensures stage { IfOk result (λ next. stage_of next.code next.slots ≡
        next_stage originals (stage_of progress.code progress.slots) round.now) }
    ensures size { IfOk result (λ next. length next.locations.items ≡ originals) }
    ensures originals { IfOk result (λ next. originals ≤ next.code.temps) }
{
    check_size(&progress.code)?;
    let classes = slotted(alloc, originals, round)?;
    Ok(progress.spill(alloc, round, &classes)?)
}

/// That nodes and uses of a code have numbers, as where a round was made of it, or else `Memory`.
fn check_size(code: &Code) -> Result<(), Memory>
    ensures { OnOk result (CodeIsNumbered code.now) }
{
    if code.temps > MOST_TEMPS || code.list.as_slice().len() > MOST_INSTRUCTIONS {
        return Err(Memory);
    }
    Ok(())
}

/// Puts the graph and the moves of a round of this number on a code at the end.
fn put_code_of_round(
    alloc: Global,
    text: &mut Vec<u8>,
    names: &[Bytes],
    number: usize,
    code: &Code,
) -> Result<(), Memory>
    ensures { OnOk result (Puts text.old.items text.new.items
        (TellsRound names.now number (stage_of code.now 0))) }
{
    check_size(code)?;
    let flow = flow(alloc, code)?;
    let sets = live(alloc, code, &flow)?;
    let graph = interference(alloc, code, &sets)?;
    let moves = moves_of(alloc, code)?;
    Ok(put_round(alloc, text, names, number, &graph, moves.as_slice())?)
}

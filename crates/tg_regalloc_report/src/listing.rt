ghost use Rattle.std.specs.Prelude.{◌≡◌, ◌++◌, IfOk, OnOk};
ghost use Rattle.tg_regalloc_report.specs.Listing.{allocation_lines, listed, rounds_lines};

use crate::locations::put_locations;
use crate::nodes::put_number_line;
use crate::steps::put_round;
use std::alloc::Global;
use tg_base::Memory;
use tg_irc_definition::Round;
use tg_regalloc::Allocation;

/// The text of `tiger alloc`: for each allocation a line with the number of its function's label,
/// then for each round, from 1, its steps in their order and the classes that it spilled, then for
/// each temporary of the code that was handed in its register or slot, and the number of slots that
/// were added.
pub fn list(alloc: Global, allocations: &[Allocation]) -> Result<Vec<u8>, Memory>
    ensures { IfOk result (λ text. text.items ≡ listed allocations.now) }
{
    let mut text = Vec::new(alloc);
    for one in allocations {
        put_allocation(&mut text, one)?;
    }
    Ok(text)
}

fn put_allocation(text: &mut Vec<u8>, one: &Allocation) -> Result<(), Memory>
    ensures { OnOk result (text.new.items ≡ text.old.items ++ allocation_lines one.now) }
{
    put_number_line(text, b"function ", one.done.frame.label.0 as usize)?;
    put_rounds(text, one.rounds.as_slice())?;
    put_locations(text, one.all_in_frame, one.registers.as_slice())?;
    put_number_line(text, b"slots ", one.slots as usize)
}

fn put_rounds(text: &mut Vec<u8>, rounds: &[Round]) -> Result<(), Memory>
    ensures { OnOk result (text.new.items ≡ text.old.items ++ rounds_lines 1 rounds.now) }
{
    for at in 0..rounds.len() {
        put_round(text, at + 1, &rounds[at])?;
    }
    Ok(())
}

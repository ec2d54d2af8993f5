ghost use Rattle.std.specs.Prelude.{◌≡◌, OnOk};
ghost use Rattle.tg_redundancy.specs.mirror.Known as known;
ghost use Rattle.tg_redundancy.specs.mirror.Known.{most_facts};

use crate::facts::{Fact, forget, forget_memory, note, stands, temp};
use crate::readings::{Reading, is_same, reads};
use tg_base::Memory;
use tg_instr::Opnd;

/// What is known where a temporary gets what another operand has.
pub(crate) fn copy(list: &mut Vec<Fact>, to: u32, from: &Opnd) -> Result<(), Memory>
    ensures { OnOk result (list.new.items ≡ known.copied most_facts to from.now list.old.items) }
{
    forget(list, &temp(to));
    if is_same(temp(to), *from) {
        return Ok(());
    }
    note(list, Fact::Has(to, Reading::Moved(*from)))
}

/// What is known where a temporary gets what is read so.
pub(crate) fn get(list: &mut Vec<Fact>, to: u32, reading: &Reading) -> Result<(), Memory>
    ensures { OnOk result (list.new.items ≡ known.gotten most_facts to reading.now list.old.items) }
{
    forget(list, &temp(to));
    if reads(&temp(to), reading) {
        return Ok(());
    }
    note(list, Fact::Has(to, *reading))
}

/// What is known behind a move.
pub(crate) fn move_to(list: &mut Vec<Fact>, to: &Opnd, from: &Opnd) -> Result<(), Memory>
    ensures { OnOk result (list.new.items ≡ known.moved most_facts to.now from.now list.old.items) }
{
    if let Opnd::Temp(number) = to {
        if let Opnd::Temp(_) = from {
            let stood = stands(list, from);
            return copy(list, number.0, &stood);
        }
    }
    forget(list, to);
    Ok(())
}

/// What is known behind a store to a slot of the frame.
pub(crate) fn keep(list: &mut Vec<Fact>, from: Opnd, slot: u32) -> Result<(), Memory>
    ensures { OnOk result (list.new.items ≡ known.kept most_facts from slot list.old.items) }
{
    forget_memory(list);
    match from {
        Opnd::Temp(number) => note(list, Fact::Has(number.0, Reading::InSlot(slot))),
        Opnd::Reg(_) => Ok(()),
    }
}

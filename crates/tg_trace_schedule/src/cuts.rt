ghost use Rattle.std.specs.Prelude.{◌≡◌, [], reverse, length, slice_set, IfOk, OnOk};
ghost use Rattle.tg_tree.specs.glue.Plain.{plain_ts};
ghost use Rattle.tg_tree.specs.glue.Lists.{stms_of};
ghost use Rattle.tg_tree.specs.Tree.{no_stms};
ghost use Rattle.tg_trace_schedule.specs.Block.{Jump};
ghost use Rattle.tg_trace_schedule.specs.glue.Plains.{plain_end, plain_cut, Cuts};
ghost use Rattle.tg_trace_schedule.specs.mirror.Cutting as cutting;

use crate::flows::{Block, End};
use std::alloc::Global;
use std::mem;
use tg_base::Memory;
use tg_tree::{Stms, Ts};

/// Blocks that are being cut, from a body's end to its front: those that are laid, the last of the
/// body first, and the block that is open, with its statements from the last on. Ends lead to
/// marks, and each mark has the place of its block among those that are laid.
#[derive(Drop)]
pub(crate) struct Cut {
    pub(crate) laid: Vec<Block>,
    pub(crate) places: Vec<u32>,
    pub(crate) body: Vec<Ts>,
    pub(crate) end: End,
    /// The marks after the loops that are around what is cut, the outermost first.
    pub(crate) exits: Vec<u32>,
}

/// What is cut of a body before anything is.
pub(crate) fn start(alloc: Global) -> Cut
    ensures cut { plain_cut result ≡ cutting.start }
    ensures exits { result.exits.items ≡ [] }
{
    Cut {
        laid: Vec::new(alloc),
        places: Vec::new(alloc),
        body: Vec::new(alloc),
        end: End::Fault(0),
        exits: Vec::new(alloc),
    }
}

/// Nothing but an end is known of what comes in front of it.
pub(crate) fn open_at(cut: &mut Cut, end: End)
    ensures { Cuts cut.old cut.new (cutting.open_at (plain_end end)) }
{
    cut.body.clear();
    cut.end = end;
}

/// What comes in front goes on at a mark.
#[inline(never)]
pub(crate) fn jump_to(cut: &mut Cut, mark: u32)
    ensures { Cuts cut.old cut.new (cutting.open_at (Jump mark)) }
{
    open_at(cut, End::Jump(mark));
}

/// Puts a statement in front.
#[inline(never)]
pub(crate) fn put_in_front(cut: &mut Cut, statement: Ts) -> Result<(), Memory>
    ensures { OnOk result (Cuts cut.old cut.new (cutting.in_front (plain_ts statement))) }
{
    cut.body.push(statement)?;
    Ok(())
}

/// Draws a mark for the block at a place.
pub(crate) fn draw(cut: &mut Cut, place: u32) -> Result<u32, Memory>
    ensures mark { IfOk result (λ mark. mark ≡ length cut.old.places.items) }
    ensures cut { OnOk result (Cuts cut.old cut.new (cutting.draw place)) }
{
    let mark = number(cut.places.len())?;
    cut.places.push(place)?;
    Ok(mark)
}

/// A length as a number of 32 bits. Longer lists are out of memory.
pub(crate) fn number(length: usize) -> Result<u32, Memory>
    ensures { IfOk result (λ n. n ≡ length) }
{
    match u32::try_from(length) {
        Ok(number) => Ok(number),
        Err(_) => Err(Memory),
    }
}

/// Lays the open block, and leads what comes in front of it to a mark.
pub(crate) fn lay(alloc: Global, cut: &mut Cut, mark: u32) -> Result<(), Memory>
    ensures { OnOk result (Cuts cut.old cut.new (cutting.lay mark)) }
{
    let mut items = mem::replace(&mut cut.body, Vec::new(alloc));
    items.reverse();
    let end = mem::replace(&mut cut.end, End::Jump(mark));
    let block = Block {
        body: Stms { items },
        end,
    };
    cut.laid.push(block)?;
    Ok(())
}

/// Where a block leads that only jumps.
pub(crate) fn leads(body: &[Ts], end: &End) -> Option<u32>
    ensures { result ≡ cutting.leads (stms_of (reverse body.now)) (plain_end end.now) }
{
    if body.len() > 0 {
        return None;
    }
    target(end)
}

/// Where a jump leads.
fn target(end: &End) -> Option<u32>
    ensures { result ≡ cutting.leads no_stms (plain_end end.now) }
{
    match end {
        End::Jump(mark) => Some(*mark),
        End::Branch(_, _, _, _, _) | End::Fault(_) | End::Return(_) => None,
    }
}

/// The mark of what comes next, which is laid unless it only jumps.
#[inline(never)]
pub(crate) fn seal(alloc: Global, cut: &mut Cut) -> Result<u32, Memory>
    ensures mark { IfOk result (λ mark. mark ≡ cutting.next_mark (plain_cut cut.old)) }
    ensures cut { OnOk result (Cuts cut.old cut.new cutting.seal) }
{
    match leads(&cut.body, &cut.end) {
        Some(mark) => Ok(mark),
        None => lay_marked(alloc, cut),
    }
}

/// Lays the open block with a mark of its own.
fn lay_marked(alloc: Global, cut: &mut Cut) -> Result<u32, Memory>
    ensures mark { IfOk result (λ mark. mark ≡ length cut.old.places.items) }
    ensures cut { OnOk result (Cuts cut.old cut.new (cutting.seal_by None)) }
{
    let place = number(cut.laid.len())?;
    let mark = draw(cut, place)?;
    lay(alloc, cut, mark)?;
    Ok(mark)
}

/// Lets a mark stand at a place.
fn stand(places: &mut [u32], mark: u32, place: u32)
    ensures { places.new ≡ slice_set places.old mark place }
{
    let mark = mark as usize;
    if mark < places.len() {
        places[mark] = place;
    }
}

/// Lets a loop's head stand at the open block, which is laid.
#[inline(never)]
pub(crate) fn put_head(alloc: Global, cut: &mut Cut, mark: u32) -> Result<(), Memory>
    ensures { OnOk result (Cuts cut.old cut.new (cutting.head mark)) }
{
    let place = number(cut.laid.len())?;
    stand(&mut cut.places, mark, place);
    lay(alloc, cut, mark)?;
    Ok(())
}

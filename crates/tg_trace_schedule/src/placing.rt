ghost use Rattle.std.specs.Prelude.{◌≡◌, slice_index, IfOk, OnOk};
ghost use Rattle.tg_trace_schedule.specs.glue.Plains.{plain_end, plain_block, plain_blocks, plain_cut};
ghost use Rattle.tg_trace_schedule.specs.mirror.Cutting as cutting;

use crate::cuts::{Cut, lay, leads, number};
use crate::flows::{Block, End};
use std::alloc::Global;
use tg_base::Memory;

/// Lays the open block as the first, unless it only jumps: then the first is where it leads.
pub(crate) fn enter(alloc: Global, cut: &mut Cut) -> Result<(), Memory>
    ensures laid { OnOk result
        (plain_blocks cut.new.laid.items ≡ cutting.entered (plain_cut cut.old)) }
    ensures places { OnOk result (cut.new.places.items ≡ cut.old.places.items) }
{
    match leads(&cut.body, &cut.end) {
        Some(mark) => {
            let place = standing(&cut.places, mark) as usize;
            cut.laid.truncate(place + 1);
            Ok(())
        }
        None => {
            lay(alloc, cut, 0)?;
            Ok(())
        }
    }
}

/// The blocks that are laid, from the first on, with places for marks.
pub(crate) fn place_all(
    alloc: Global,
    laid: Vec<Block>,
    places: &[u32],
) -> Result<Vec<Block>, Memory>
    ensures { IfOk result (λ blocks. plain_blocks blocks.items ≡
        cutting.placed_all places.now (plain_blocks laid.items)) }
{
    let last = number(laid.len())?.saturating_sub(1);
    let mut rest = laid;
    let mut blocks = Vec::new(alloc);
    while let Some(block) = rest.pop() {
        blocks.push(place_block(block, places, last))?;
    }
    Ok(blocks)
}

fn place_block(block: Block, places: &[u32], last: u32) -> Block
    ensures { plain_block result ≡ cutting.placed places.now last (plain_block block) }
{
    let Block { body, end } = block;
    let end = place_end(end, places, last);
    Block { body, end }
}

fn place_end(end: End, places: &[u32], last: u32) -> End
    ensures { plain_end result ≡ cutting.placed_end places.now last (plain_end end) }
{
    match end {
        End::Jump(mark) => End::Jump(place_of(places, last, mark)),
        End::Branch(rel, left, right, yes, no) => End::Branch(
            rel,
            left,
            right,
            place_of(places, last, yes),
            place_of(places, last, no),
        ),
        End::Fault(code) => End::Fault(code),
        End::Return(value) => End::Return(value),
    }
}

/// The place of a mark's block from the first block on.
fn place_of(places: &[u32], last: u32, mark: u32) -> u32
    ensures { result ≡ cutting.place_of places.now last mark }
{
    last.saturating_sub(standing(places, mark))
}

/// The place of a mark's block from the last block on.
fn standing(places: &[u32], mark: u32) -> u32
    ensures { result ≡ slice_index places.now mark }
{
    let at = mark as usize;
    if at < places.len() { places[at] } else { 0 }
}

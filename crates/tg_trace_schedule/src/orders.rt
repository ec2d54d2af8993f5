// A block that only fails is laid behind the trace of its check, so a test that is passed falls
// through, and one that is known to pass can go. A branch is otherwise followed by its true side
// where that isn't laid yet.

ghost use Rattle.std.specs.Prelude.{◌≡◌, true, length, slice_set, IfOk, OnOk};
ghost use Rattle.tg_tree.specs.Tree.{no_stms};
ghost use Rattle.tg_trace_schedule.specs.glue.Plains.{plain_block, plain_blocks, plain_end, plain_order};
ghost use Rattle.tg_trace_schedule.specs.mirror.Laying as laying;

use crate::flows::{Block, End};
use std::alloc::Global;
use tg_base::Memory;

/// The places of blocks in the order in which they are laid, and of each place whether its block
/// is.
#[derive(Drop)]
pub(crate) struct Order {
    pub(crate) places: Vec<u32>,
    pub(crate) laid: Vec<bool>,
}

/// The order of blocks, in traces from the first places on.
pub(crate) fn arrange(alloc: Global, blocks: &[Block]) -> Result<Order, Memory>
    ensures { IfOk result (λ order.
        plain_order order ≡ laying.traces (length blocks.now) (plain_blocks blocks.now)) }
{
    let count = match u32::try_from(blocks.len()) {
        Ok(count) => count,
        Err(_) => return Err(Memory),
    };
    let mut order = nothing_laid(alloc, blocks)?;
    for place in 0..count {
        let first = unless_laid(&order.laid, place, None);
        follow(&mut order, blocks, first)?;
    }
    Ok(order)
}

fn nothing_laid(alloc: Global, blocks: &[Block]) -> Result<Order, Memory>
    ensures { IfOk result (λ order. plain_order order ≡ laying.traces 0 (plain_blocks blocks.now)) }
{
    let laid = vec![in alloc; false; blocks.len()]?;
    Ok(Order {
        places: Vec::new(alloc),
        laid,
    })
}

/// Lays a trace from a block on.
fn follow(order: &mut Order, blocks: &[Block], first: Option<u32>) -> Result<(), Memory>
    ensures { OnOk result (plain_order order.new ≡
        laying.follow (length blocks.now) (plain_blocks blocks.now) first (plain_order order.old)) }
{
    let mut next = first;
    for step in 0..blocks.len() {
        let place = match next {
            Some(place) => place,
            None => return Ok(()),
        };
        put(order, place)?;
        next = onward_at(&order.laid, blocks, place);
    }
    Ok(())
}

/// Puts a place at the end of the order.
fn put(order: &mut Order, place: u32) -> Result<(), Memory>
    ensures { OnOk result (plain_order order.new ≡ laying.put place (plain_order order.old)) }
{
    order.places.push(place)?;
    lay(&mut order.laid, place);
    Ok(())
}

fn lay(laid: &mut [bool], place: u32)
    ensures { laid.new ≡ slice_set laid.old place true }
{
    let at = place as usize;
    if at < laid.len() {
        laid[at] = true;
    }
}

/// What comes after the block at a place.
fn onward_at(laid: &[bool], blocks: &[Block], place: u32) -> Option<u32>
    ensures { result ≡
        laying.onward (plain_blocks blocks.now) laid.now
        (laying.block_at (plain_blocks blocks.now) place).end }
{
    let at = place as usize;
    if at < blocks.len() {
        onward(laid, blocks, &blocks[at].end)
    } else {
        None
    }
}

/// What comes after a block: where it leads that isn't laid, the true side of a branch first, but
/// last where the block there only fails.
fn onward(laid: &[bool], blocks: &[Block], end: &End) -> Option<u32>
    ensures { result ≡ laying.onward (plain_blocks blocks.now) laid.now (plain_end end.now) }
{
    match end {
        End::Jump(place) => unless_laid(laid, *place, None),
        End::Branch(_, _, _, yes, no) => {
            if only_fails_at(blocks, *yes) {
                first_unlaid(laid, *no, *yes)
            } else {
                first_unlaid(laid, *yes, *no)
            }
        }
        End::Fault(_) | End::Return(_) => None,
    }
}

/// Whether the block at a place does nothing but fail.
fn only_fails_at(blocks: &[Block], place: u32) -> bool
    ensures { result ≡ laying.only_fails (laying.block_at (plain_blocks blocks.now) place) }
{
    let at = place as usize;
    if at < blocks.len() {
        only_fails(&blocks[at])
    } else {
        true
    }
}

/// Whether a block has no statements and ends by a fault.
fn only_fails(block: &Block) -> bool
    ensures { result ≡ laying.only_fails (plain_block block.now) }
{
    if block.body.items.is_empty() {
        is_fault(&block.end)
    } else {
        false
    }
}

fn is_fault(end: &End) -> bool
    ensures { result ≡ laying.fails_at_once no_stms (plain_end end.now) }
{
    matches!(end, End::Fault(_))
}

/// The first of two places that isn't laid.
fn first_unlaid(laid: &[bool], place: u32, other: u32) -> Option<u32>
    ensures { result ≡ laying.first_unlaid laid.now place other }
{
    unless_laid(laid, place, unless_laid(laid, other, None))
}

/// A place that isn't laid, else another.
fn unless_laid(laid: &[bool], place: u32, other: Option<u32>) -> Option<u32>
    ensures { result ≡ laying.unless_laid laid.now place other }
{
    match laid.get(place as usize).copied() {
        Some(false) => Some(place),
        _ => other,
    }
}

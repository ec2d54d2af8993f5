// No block that only jumps is laid but heads of loops: each way back goes to its own loop's
// head, whose jump falls through in a trace. What follows a statement that leaves its sequence
// is dropped; other code that is never come to stays.
//
// A way back stays one where blocks are laid. Blocks take a unit of fuel for a way back alone,
// flat code for each jump and each branch taken, so the code wants no less. A way back would
// fall through only where a trace came to a block of a loop before its head; `trace` asks that
// loops are entered at their heads alone, and `blocks` gives it.

ghost use Rattle.std.specs.Prelude.{◌≡◌, ◌<◌, ◌+◌, IfOk, OnOk};
ghost use Rattle.std.specs.Prelude.{◌++◌, length, slice_set, slice_get, slice_index};
ghost use Rattle.tg_tree.specs.glue.Lists.{code_of};
ghost use Rattle.tg_trace_schedule.specs.glue.Plains.{plain_block, plain_blocks};
ghost use Rattle.tg_trace_schedule.specs.mirror.Laying as laying;

use crate::emission::put_block;
use crate::flows::{Block, Blocks, End};
use crate::orders::arrange;
use std::alloc::Global;
use std::mem;
use tg_base::Memory;
use tg_tree::{Linear, Stms};

/// Orders blocks in traces, as flat code. It fails only where memory runs out.
pub fn trace(alloc: Global, blocks: Blocks) -> Result<Vec<Linear>, Memory>
    ensures { IfOk result (λ code. code_of code.items ≡ laying.traced (plain_blocks blocks)) }
{
    let blocks = blocks.into_vec();
    let order = arrange(alloc, &blocks)?;
    emit(alloc, blocks, &order.places)
}

/// The code of blocks in an order.
fn emit(alloc: Global, blocks: Vec<Block>, order: &[u32]) -> Result<Vec<Linear>, Memory>
    ensures { IfOk result (λ code.
        code_of code.items ≡ laying.code_in order.now (plain_blocks blocks.items)) }
{
    let mut blocks = blocks;
    let mut code = Vec::new(alloc);
    for at in 0..order.len() {
        put_next(alloc, &mut code, &mut blocks, order, at)?;
    }
    Ok(code)
}

/// Takes a block out, and puts its code at the end.
fn put_next(
    alloc: Global,
    code: &mut Vec<Linear>,
    blocks: &mut [Block],
    order: &[u32],
    at: usize,
) -> Result<(), Memory>
    requires { at < length order.now }
    ensures code { OnOk result (code_of code.new.items ≡ code_of code.old.items ++
        laying.block_code (slice_index order.now at) (slice_get order.now (at + 1))
        (laying.block_at (plain_blocks blocks.old) (slice_index order.now at))) }
    ensures blocks { OnOk result (plain_blocks blocks.new ≡
        slice_set (plain_blocks blocks.old) (slice_index order.now at) laying.no_block) }
{
    let place = order[at];
    let next = order.get(at + 1).copied();
    let block = take_block(alloc, blocks, place);
    put_block(code, place, next, block)?;
    Ok(())
}

/// The block at a place, in which nothing is left.
fn take_block(alloc: Global, blocks: &mut [Block], place: u32) -> Block
    ensures taken { plain_block result ≡ laying.block_at (plain_blocks blocks.old) place }
    ensures left { plain_blocks blocks.new ≡
        slice_set (plain_blocks blocks.old) place laying.no_block }
{
    let at = place as usize;
    if at < blocks.len() {
        mem::replace(&mut blocks[at], no_block(alloc))
    } else {
        no_block(alloc)
    }
}

/// What stands where there is no block.
fn no_block(alloc: Global) -> Block
    ensures { plain_block result ≡ laying.no_block }
{
    Block {
        body: Stms {
            items: Vec::new(alloc),
        },
        end: End::Fault(0),
    }
}

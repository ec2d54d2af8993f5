ghost use Rattle.std.specs.Prelude.{◌≡◌, IfOk, OnOk};
ghost use Rattle.tg_tree.specs.glue.Plain.{plain_tx, plain_ts};
ghost use Rattle.tg_tree.specs.glue.Lists.{stms_of};
ghost use Rattle.tg_tree.specs.Tree as tree;
ghost use Rattle.tg_trace_schedule.specs.glue.Plains.{plain_blocks, plain_cut, Cuts, come_to as come_to_in};
ghost use Rattle.tg_trace_schedule.specs.mirror.Cutting as cutting;

use crate::conditions::branch;
use crate::cuts::{Cut, draw, jump_to, open_at, put_head, put_in_front, seal, start};
use crate::flows::{Blocks, End};
use crate::placing::{enter, place_all};
use std::alloc::Global;
use tg_base::Memory;
use tg_tree::{Stms, Ts, Tx};

/// Cuts canonical statements into basic blocks. It fails only where memory runs out.
pub fn blocks(alloc: Global, stms: Vec<Ts>) -> Result<Blocks, Memory>
    ensures { IfOk result (λ b. plain_blocks b ≡ cutting.blocks_of (stms_of stms.items)) }
{
    let mut all = start(alloc);
    cut_all(alloc, &mut all, Stms { items: stms })?;
    enter(alloc, &mut all)?;
    let items = place_all(alloc, all.laid, &all.places)?;
    Ok(Blocks::from_vec(items))
}

/// Cuts a statement. What else is done than to go on into its parts is done by functions of their
/// own, so that a statement in another leaves little on the stack.
#[cycle(cutting)]
#[inline(never)]
fn cut(alloc: Global, before: &mut Cut, statement: Ts) -> Result<(), Memory>
    ensures { OnOk result (Cuts before.old before.new
        (cutting.cut before.old.exits.items (plain_ts statement))) }
{
    match statement {
        Ts::If(test, this, other) => {
            let join = seal(alloc, before)?;
            let no = cut_side(alloc, before, other, join)?;
            let yes = cut_side(alloc, before, this, join)?;
            branch(alloc, before, test, yes, no)?;
            Ok(())
        }
        Ts::Loop(turn) => cut_loop(alloc, before, turn),
        Ts::Break(loops) => {
            leave_loops(before, loops);
            Ok(())
        }
        Ts::Fault(code) => {
            end_in_fault(before, code);
            Ok(())
        }
        Ts::Seq(all) => cut_all(alloc, before, all),
        Ts::Return(value) => {
            end_in_return(before, value);
            Ok(())
        }
        flat => put_in_front(before, flat),
    }
}

/// Cuts a side of a choice, after which both sides join, and gives its mark.
#[cycle(cutting)]
#[inline(never)]
fn cut_side(alloc: Global, before: &mut Cut, side: Box<Ts>, join: u32) -> Result<u32, Memory>
    ensures mark { IfOk result (λ mark. mark ≡
        cutting.next_mark (cutting.before_join join
        (cutting.cut before.old.exits.items (plain_ts side.value)) (plain_cut before.old))) }
    ensures cut { OnOk result (Cuts before.old before.new (λ c.
        cutting.seal (cutting.before_join join
        (cutting.cut before.old.exits.items (plain_ts side.value)) c))) }
{
    jump_to(before, join);
    cut(alloc, before, Box::into_inner(side))?;
    let mark = seal(alloc, before)?;
    Ok(mark)
}

/// Cuts a loop by what it does again and again.
#[cycle(cutting)]
#[inline(never)]
fn cut_loop(alloc: Global, before: &mut Cut, turn: Box<Ts>) -> Result<(), Memory>
    ensures { OnOk result (Cuts before.old before.new
        (λ c. cutting.cut before.old.exits.items (tree.Loop (plain_ts turn.value)) c)) }
{
    let exit = seal(alloc, before)?;
    let head = draw(before, 0)?;
    before.exits.push(exit)?;
    jump_to(before, head);
    cut(alloc, before, Box::into_inner(turn))?;
    before.exits.pop();
    put_head(alloc, before, head)?;
    Ok(())
}

/// Cuts statements in turn, from the last that is come to.
#[cycle(cutting)]
#[inline(never)]
fn cut_all(alloc: Global, before: &mut Cut, mut all: Stms) -> Result<(), Memory>
    ensures { OnOk result (Cuts before.old before.new
        (cutting.cut_all before.old.exits.items (stms_of all.items.items))) }
{
    let count = come_to(&all.items);
    while let Some(statement) = all.items.pop() {
        if all.items.len() < count {
            cut(alloc, before, statement)?;
        } else {
            forget(statement);
        }
    }
    Ok(())
}

/// Lets go of a statement that is never come to.
#[inline(never)]
fn forget(_statement: Ts) {}

/// How many statements are come to, the first of them that leaves the sequence among them.
fn come_to(all: &[Ts]) -> usize
    ensures { result ≡ come_to_in all.now }
{
    for (place, statement) in all.iter().enumerate() {
        if leaves(statement) {
            return place + 1;
        }
    }
    all.len()
}

/// Whether what follows a statement is never come to.
fn leaves(statement: &Ts) -> bool
    ensures { result ≡ cutting.leaves (plain_ts statement.now) }
{
    matches!(statement, Ts::Break(_) | Ts::Fault(_) | Ts::Return(_))
}

/// Where a break leads, of the marks after the loops around it.
fn exit_of(exits: &[u32], loops: u32) -> u32
    ensures { result ≡ cutting.exit_of exits.now loops }
{
    let behind = loops as usize + 1;
    let place = exits.len().saturating_sub(behind);
    if place < exits.len() { exits[place] } else { 0 }
}

/// What comes in front leaves so many loops and one more.
#[inline(never)]
fn leave_loops(before: &mut Cut, loops: u32)
    ensures { Cuts before.old before.new
        (cutting.cut before.old.exits.items (tree.Break loops)) }
{
    let exit = exit_of(&before.exits, loops);
    open_at(before, End::Jump(exit));
}

/// What comes in front ends in a fault.
#[inline(never)]
fn end_in_fault(before: &mut Cut, code: u32)
    ensures { Cuts before.old before.new
        (cutting.cut before.old.exits.items (tree.Fault code)) }
{
    open_at(before, End::Fault(code));
}

/// What comes in front returns a value.
#[inline(never)]
fn end_in_return(before: &mut Cut, value: Tx)
    ensures { Cuts before.old before.new
        (cutting.cut before.old.exits.items (tree.Return (plain_tx value))) }
{
    open_at(before, End::Return(value));
}

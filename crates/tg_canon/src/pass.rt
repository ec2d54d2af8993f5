ghost use Rattle.std.specs.Prelude.{◌≡◌, ◌<◌, true, false, IfOk};
ghost use Rattle.tg_tree.specs.Tree as tree;
ghost use Rattle.tg_tree.specs.glue.Plain.{plain_tx, plain_cond, plain_ts};
ghost use Rattle.tg_tree.specs.glue.Lists.{txs_of, stms_of};
ghost use Rattle.tg_canon.specs.mirror.Canon as canon;
ghost use Rattle.tg_canon.specs.glue.Breaking.{leads};
ghost use Rattle.tg_canon.specs.mirror.Drawing.{DrawsFrom};
ghost use Rattle.tg_canon.specs.glue.Views.{
  plain_part,
  plain_parts,
  plain_hoisted,
  plain_two,
  plain_arguments,
  plain_tested,
};

use crate::breaks::{Breaks, more_loops, target};
use crate::hoisted::{
    Arguments, Hoisted, Two, address, argument, behind_part, call_of, constant, frame_address,
    load_byte_from, load_from, no_arguments, operate, serve, side_by_side, temporary, word,
};
use crate::opened::{Opened, beside, parts_of};
use crate::parts::{Part, Parts, block, both_parts, faults, in_turn, leaves, repeated};
use crate::statements::{drop_value, move_to, return_of, store, store_byte};
use crate::supply::Supply;
use crate::tested::{
    Tested, and, choose, choose_by_parts, compare_both, exit_where, is_whole, opposite, or,
};
use tg_base::Memory;
use tg_tree::{Cond, Stms, Ts, Tx, Txs};

// Trees are as deep as their source, and each level of a walk stays on the process's stack while
// its parts are walked. So what the walks hand on is in boxes, and what is done behind a part is
// never inlined: a level holds some hundred bytes.

/// So deep trees may be nested, counting each walk into a part as one.
const MOST_NESTED: u32 = 100_000;

// How much deeper a part may be nested.
fn descend(height: u32) -> Result<u32, Memory>
    ensures { IfOk result (λ lower. lower < height) }
{
    if height > 0 {
        Ok(height - 1)
    } else {
        Err(Memory)
    }
}

// What is hoisted out of an expression, and what is left of it.
#[cycle(canon)]
#[inline(never)]
fn hoist(
    x: Box<Tx>,
    supply: &mut Supply,
    breaks: &Breaks,
    height: u32,
) -> Result<Box<Hoisted>, Memory>
    ensures { IfOk result (λ a. DrawsFrom (canon.hoist (leads breaks.now) (plain_tx x.value))
        supply.old.next (plain_hoisted a.value) supply.new.next) }
{
    let lower = descend(height)?;
    match Box::into_inner(x) {
        Tx::Const(n) => constant(supply.alloc, n),
        Tx::Address(label) => address(supply.alloc, label),
        Tx::Temp(temp) => temporary(supply.alloc, temp),
        Tx::FrameAddress => frame_address(supply.alloc),
        Tx::Binary(op, x, y) => {
            let both = hoist_both(x, y, supply, breaks, lower)?;
            operate(supply.alloc, op, both)
        }
        Tx::Load(x) => {
            let a = hoist_word(x, supply, breaks, lower)?;
            load_from(supply.alloc, a)
        }
        Tx::LoadByte(x) => {
            let a = hoist_word(x, supply, breaks, lower)?;
            load_byte_from(supply.alloc, a)
        }
        Tx::Call(label, xs) => {
            let all = hoist_all(xs, supply, breaks, lower)?;
            call_of(supply.alloc, label, all)
        }
        Tx::Service(number, x) => {
            let a = hoist_word(x, supply, breaks, lower)?;
            serve(supply.alloc, number, a)
        }
        Tx::After(s, x) => hoist_after(s, x, supply, breaks, lower),
    }
}

#[cycle(canon)]
#[inline(never)]
fn hoist_after(
    s: Box<Ts>,
    x: Box<Tx>,
    supply: &mut Supply,
    breaks: &Breaks,
    height: u32,
) -> Result<Box<Hoisted>, Memory>
    ensures { IfOk result (λ a. DrawsFrom
        (canon.hoist (leads breaks.now) (tree.After (plain_ts s.value) (plain_tx x.value)))
        supply.old.next (plain_hoisted a.value) supply.new.next) }
{
    let a = hoist(x, supply, breaks, height);
    let first = beside(s, a)?;
    let p = linear(first.0, supply, breaks, height);
    let both = beside(first.1, p)?;
    behind_part(supply.alloc, both.1, both.0)
}

// The same, as a word.
#[cycle(canon)]
#[inline(never)]
fn hoist_word(
    x: Box<Tx>,
    supply: &mut Supply,
    breaks: &Breaks,
    height: u32,
) -> Result<Box<Hoisted>, Memory>
    ensures { IfOk result (λ a. DrawsFrom
        (canon.word (canon.hoist (leads breaks.now) (plain_tx x.value)))
        supply.old.next (plain_hoisted a.value) supply.new.next) }
{
    let lower = descend(height)?;
    let a = hoist(x, supply, breaks, lower)?;
    word(supply, a)
}

// Two words side by side, the right one hoisted first: this is no walk of its own into a part.
#[cycle(canon)]
#[inline(never)]
fn hoist_both(
    left: Box<Tx>,
    right: Box<Tx>,
    supply: &mut Supply,
    breaks: &Breaks,
    height: u32,
) -> Result<Box<Two>, Memory>
    ensures { IfOk result (λ both. DrawsFrom
        (canon.operands (leads breaks.now) (plain_tx left.value) (plain_tx right.value))
        supply.old.next (plain_two both.value) supply.new.next) }
{
    let b = hoist_word(right, supply, breaks, height)?;
    let a = hoist_word(left, supply, breaks, height);
    let both = beside(b, a)?;
    side_by_side(supply, both.1, both.0)
}

// A call's arguments, from the last to the first.
#[cycle(canon)]
#[inline(never)]
fn hoist_all(
    mut xs: Txs,
    supply: &mut Supply,
    breaks: &Breaks,
    height: u32,
) -> Result<Box<Arguments>, Memory>
    ensures { IfOk result (λ all. DrawsFrom (canon.hoist_all (leads breaks.now)
        (txs_of xs.items.items))
        supply.old.next (plain_arguments all.value) supply.new.next) }
{
    let lower = descend(height)?;
    let none = no_arguments(supply.alloc)?;
    let mut all = none;
    while let Some(x) = xs.items.pop() {
        let x = Box::new(supply.alloc, x)?;
        let a = hoist_word(x, supply, breaks, lower)?;
        all = argument(supply, a, all)?;
    }
    Ok(all)
}

// A condition that stays whole.
#[cycle(canon)]
#[inline(never)]
fn condition(
    test: Box<Cond>,
    supply: &mut Supply,
    breaks: &Breaks,
    height: u32,
) -> Result<Box<Tested>, Memory>
    ensures { IfOk result (λ t. DrawsFrom
        (canon.condition (leads breaks.now) (plain_cond test.value))
        supply.old.next (plain_tested t.value) supply.new.next) }
{
    let lower = descend(height)?;
    match Box::into_inner(test) {
        Cond::Compare(rel, x, y) => {
            let both = hoist_both(x, y, supply, breaks, lower)?;
            compare_both(supply.alloc, rel, both)
        }
        Cond::Not(c) => {
            let t = condition(c, supply, breaks, lower)?;
            opposite(supply.alloc, t)
        }
        Cond::Both(c, d) => {
            let u = condition(d, supply, breaks, lower)?;
            let t = condition(c, supply, breaks, lower);
            let both = beside(u, t)?;
            and(supply.alloc, both.1, both.0)
        }
        Cond::Either(c, d) => {
            let u = condition(d, supply, breaks, lower)?;
            let t = condition(c, supply, breaks, lower);
            let both = beside(u, t)?;
            or(supply.alloc, both.1, both.0)
        }
    }
}

// Leaves so many loops and one more where a condition comes out so, tested part by part.
#[cycle(canon)]
#[inline(never)]
fn leave(
    test: Box<Cond>,
    supply: &mut Supply,
    breaks: &Breaks,
    when: bool,
    loops: u32,
    height: u32,
) -> Result<Box<Part>, Memory>
    ensures { IfOk result (λ p. DrawsFrom
        (canon.leave (leads breaks.now) when loops (plain_cond test.value))
        supply.old.next (plain_part p.value) supply.new.next) }
{
    let lower = descend(height)?;
    match Box::into_inner(test) {
        Cond::Compare(rel, x, y) => {
            let both = hoist_both(x, y, supply, breaks, lower)?;
            let t = compare_both(supply.alloc, rel, both)?;
            exit_where(supply.alloc, t, when, loops)
        }
        Cond::Not(c) => leave(c, supply, breaks, !when, loops, lower),
        Cond::Both(c, d) => {
            if when {
                let inner = Breaks::Deeper(1, &*breaks);
                let further = more_loops(loops, 1)?;
                let q = leave(d, supply, &inner, true, further, lower)?;
                let p = leave(c, supply, &inner, false, 0, lower)?;
                block(supply.alloc, both_parts(supply.alloc, p, q)?)
            } else {
                let q = leave(d, supply, breaks, false, loops, lower)?;
                let p = leave(c, supply, breaks, false, loops, lower)?;
                both_parts(supply.alloc, p, q)
            }
        }
        Cond::Either(c, d) => {
            if when {
                let q = leave(d, supply, breaks, true, loops, lower)?;
                let p = leave(c, supply, breaks, true, loops, lower)?;
                both_parts(supply.alloc, p, q)
            } else {
                let inner = Breaks::Deeper(1, &*breaks);
                let further = more_loops(loops, 1)?;
                let q = leave(d, supply, &inner, false, further, lower)?;
                let p = leave(c, supply, &inner, true, 0, lower)?;
                block(supply.alloc, both_parts(supply.alloc, p, q)?)
            }
        }
    }
}

// A statement in canonical form.
#[cycle(canon)]
#[inline(never)]
fn linear(
    s: Box<Ts>,
    supply: &mut Supply,
    breaks: &Breaks,
    height: u32,
) -> Result<Box<Part>, Memory>
    ensures { IfOk result (λ p. DrawsFrom (canon.linear (leads breaks.now) (plain_ts s.value))
        supply.old.next (plain_part p.value) supply.new.next) }
{
    let opened = parts_of(supply.alloc, s, height)?;
    let lower = height - 1;
    match opened {
        Opened::Move(temp, x) => {
            let a = hoist(x, supply, breaks, lower)?;
            move_to(supply.alloc, temp, a)
        }
        Opened::Store(x, y) => {
            let both = hoist_both(x, y, supply, breaks, lower)?;
            store(supply.alloc, both)
        }
        Opened::StoreByte(x, y) => {
            let both = hoist_both(x, y, supply, breaks, lower)?;
            store_byte(supply.alloc, both)
        }
        Opened::Do(x) => {
            let a = hoist(x, supply, breaks, lower)?;
            drop_value(supply.alloc, a)
        }
        Opened::If(test, this, other) => {
            if is_whole(&test) {
                choose_whole(test, this, other, supply, breaks, lower)
            } else {
                choose_in_parts(test, this, other, supply, breaks, lower)
            }
        }
        Opened::Loop(s) => {
            let inner = Breaks::Inside(&*breaks);
            let p = linear(s, supply, &inner, lower)?;
            repeated(supply.alloc, p)
        }
        Opened::Break(loops) => {
            let further = target(breaks, loops)?;
            leaves(supply.alloc, further)
        }
        Opened::Fault(number) => faults(supply.alloc, number),
        Opened::Seq(ss) => {
            let all = linear_all(ss, supply, breaks, lower)?;
            in_turn(supply.alloc, all)
        }
        Opened::Return(x) => {
            let a = hoist_word(x, supply, breaks, lower)?;
            return_of(supply.alloc, a)
        }
    }
}

#[cycle(canon)]
#[inline(never)]
fn choose_whole(
    test: Box<Cond>,
    this: Box<Ts>,
    other: Box<Ts>,
    supply: &mut Supply,
    breaks: &Breaks,
    height: u32,
) -> Result<Box<Part>, Memory>
    ensures { IfOk result (λ p. canon.is_whole (plain_cond test.value) ≡ true → DrawsFrom
        (canon.linear (leads breaks.now)
        (tree.If (plain_cond test.value) (plain_ts this.value) (plain_ts other.value)))
        supply.old.next (plain_part p.value) supply.new.next) }
{
    let q = linear(other, supply, breaks, height)?;
    let p = linear(this, supply, breaks, height)?;
    let t = condition(test, supply, breaks, height)?;
    choose(supply.alloc, t, p, q)
}

#[cycle(canon)]
#[inline(never)]
fn choose_in_parts(
    test: Box<Cond>,
    this: Box<Ts>,
    other: Box<Ts>,
    supply: &mut Supply,
    breaks: &Breaks,
    height: u32,
) -> Result<Box<Part>, Memory>
    ensures { IfOk result (λ p. canon.is_whole (plain_cond test.value) ≡ false → DrawsFrom
        (canon.linear (leads breaks.now)
        (tree.If (plain_cond test.value) (plain_ts this.value) (plain_ts other.value)))
        supply.old.next (plain_part p.value) supply.new.next) }
{
    let once = Breaks::Deeper(1, &*breaks);
    let twice = Breaks::Deeper(2, &*breaks);
    let q = linear(other, supply, &once, height)?;
    let p = linear(this, supply, &twice, height)?;
    let t = leave(test, supply, &twice, false, 0, height)?;
    choose_by_parts(supply.alloc, t, p, q)
}

// Statements, from the last to the first.
#[cycle(canon)]
#[inline(never)]
fn linear_all(
    mut ss: Stms,
    supply: &mut Supply,
    breaks: &Breaks,
    height: u32,
) -> Result<Box<Parts>, Memory>
    ensures { IfOk result (λ all.
        DrawsFrom (canon.linear_all (leads breaks.now) (stms_of ss.items.items))
        supply.old.next (plain_parts all.value) supply.new.next) }
{
    let lower = descend(height)?;
    let mut all = Parts::new(supply.alloc)?;
    while let Some(s) = ss.items.pop() {
        let s = Box::new(supply.alloc, s)?;
        let p = linear(s, supply, breaks, lower)?;
        all.put_in_front(p)?;
    }
    Ok(all)
}

/// A body in canonical form: the statement that the pass makes of it.
pub(crate) fn linear_body(body: Ts, supply: &mut Supply) -> Result<Part, Memory>
    ensures { IfOk result (λ p. DrawsFrom (canon.linear (λ k. k) (plain_ts body))
        supply.old.next (plain_part p) supply.new.next) }
{
    let breaks = Breaks::Body;
    let body = Box::new(supply.alloc, body)?;
    let p = linear(body, supply, &breaks, MOST_NESTED)?;
    Ok(Box::into_inner(p))
}

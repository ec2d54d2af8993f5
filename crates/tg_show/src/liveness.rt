ghost use Rattle.std.specs.Prelude.{◌≡◌, ◌<◌, ◌^◌, [], length, ◌++◌, IfOk, OnOk};
ghost use Rattle.tg_live.specs.Live.{number_of};
ghost use Rattle.tg_show.specs.Live as live;

use crate::instructions::{instruction_margin, put_instruction, put_told};
use crate::layouts::put_blanks;
use crate::runs::put_operand;
use crate::words::{put, put_byte, put_count};
use std::alloc::Global;
use tg_base::{Bytes, Memory};
use tg_instr::{Instr, Opnd};
use tg_live::LiveSets;

/// The most members of a set that is told by them: of what is live out of a label, or where nothing
/// was live before.
const MOST_TOLD_FRESH: usize = 24;

/// The most members of another set that is told by them.
const MOST_TOLD: usize = 12;

/// Puts the lines of instructions at the end, each with what is live out of it.
pub fn put_live_lines(
    alloc: Global,
    text: &mut Vec<u8>,
    names: &[Bytes],
    list: &[Instr],
    sets: &LiveSets,
) -> Result<(), Memory>
    requires { length sets.now ≡ length list.now }
    ensures { OnOk result (text.new.items
        ≡ text.old.items ++ live.live_lines names.now sets.now [] 0 list.now) }
{
    if list.len() > u32::MAX as usize {
        return Err(Memory);
    }
    let mut set = Vec::new(alloc);
    for at in 0..list.len() {
        let before = Vec::from_slice(alloc, &set)?;
        sets.advance(at as u32, &mut set)?;
        put_live_line(alloc, text, names, &before, &set, &list[at])?;
    }
    Ok(())
}

fn put_live_line(
    alloc: Global,
    text: &mut Vec<u8>,
    names: &[Bytes],
    before: &[Opnd],
    now: &[Opnd],
    one: &Instr,
) -> Result<(), Memory>
    ensures { OnOk result (text.new.items
        ≡ text.old.items ++ live.live_line names.now before.now now.now one.now) }
{
    put_blanks(text, instruction_margin(one))?;
    put_instruction(text, names, one)?;
    put_live(alloc, text, names, before, now, one)?;
    let over = across(alloc, one, now)?;
    put_crossing(text, over.len())?;
    put_byte(text, b'\n')
}

/// Puts what is live out of an instruction at the end, given what was before.
fn put_live(
    alloc: Global,
    text: &mut Vec<u8>,
    names: &[Bytes],
    before: &[Opnd],
    now: &[Opnd],
    one: &Instr,
) -> Result<(), Memory>
    ensures { OnOk result (text.new.items
        ≡ text.old.items ++ live.live_text names.now before.now now.now one.now) }
{
    if now.len() > most_told(before, one) {
        return put_changes(alloc, text, names, before, now);
    }
    put_told(text, names, b"  # live", now)
}

fn most_told(before: &[Opnd], one: &Instr) -> usize
    ensures { result ≡ live.most_told before.now one.now }
{
    if is_fresh(before, one) {
        MOST_TOLD_FRESH
    } else {
        MOST_TOLD
    }
}

fn is_fresh(before: &[Opnd], one: &Instr) -> bool
    ensures { result ≡ live.is_fresh before.now one.now }
{
    match one {
        Instr::Mark(_) => true,
        _ => before.is_empty(),
    }
}

/// Puts how many live across a call at the end, where any do.
fn put_crossing(text: &mut Vec<u8>, count: usize) -> Result<(), Memory>
    ensures { OnOk result (text.new.items ≡ text.old.items ++ live.crossing count) }
{
    if count == 0 {
        return Ok(());
    }
    put(text, b"  # crosses ")?;
    put_count(text, count)
}

/// Puts how many are live at the end, what came since the instruction before, and what went.
fn put_changes(
    alloc: Global,
    text: &mut Vec<u8>,
    names: &[Bytes],
    before: &[Opnd],
    now: &[Opnd],
) -> Result<(), Memory>
    ensures { OnOk result (text.new.items
        ≡ text.old.items ++ live.changes_text names.now before.now now.now) }
{
    put(text, b"  # live ")?;
    put_count(text, now.len())?;
    let come = beyond(alloc, now, before)?;
    put_signed(text, names, b" +", &come)?;
    let gone = beyond(alloc, before, now)?;
    put_signed(text, names, b" -", &gone)
}

fn put_signed(text: &mut Vec<u8>, names: &[Bytes], sign: &[u8], list: &[Opnd]) -> Result<(), Memory>
    ensures { OnOk result (text.new.items
        ≡ text.old.items ++ live.signed names.now sign.now list.now) }
{
    for &one in list.iter() {
        put(text, sign)?;
        put_operand(text, names, one)?;
    }
    Ok(())
}

/// What lives across a call.
fn across(alloc: Global, one: &Instr, now: &[Opnd]) -> Result<Vec<Opnd>, Memory>
    ensures { IfOk result (λ over. over.items ≡ live.across one.now now.now) }
{
    match one {
        Instr::Call(_) => {
            let defs = one.defs(alloc);
            beyond(alloc, now, defs.as_slice())
        }
        _ => Ok(Vec::new(alloc)),
    }
}

/// What a set has that another hasn't, in time linear in both. Both rise.
fn beyond(alloc: Global, list: &[Opnd], other: &[Opnd]) -> Result<Vec<Opnd>, Memory>
    ensures { IfOk result (λ left. left.items ≡ live.beyond list.now other.now) }
{
    let mut left = Vec::new(alloc);
    let mut rest = other;
    for one in list {
        rest = not_below(one, rest);
        if !begins_with(one, rest) {
            left.push(*one)?;
        }
    }
    Ok(left)
}

/// A rising list without the operands at its front that are below one.
fn not_below<'a>(one: &Opnd, list: &'a [Opnd]) -> &'a [Opnd]
    ensures { result.now ≡ live.not_below one.now list.now }
{
    let least = number_of(one);
    for at in 0..list.len() {
        if number_of(&list[at]) >= least {
            return &list[at..];
        }
    }
    &list[list.len()..]
}

fn begins_with(one: &Opnd, list: &[Opnd]) -> bool
    ensures { result ≡ live.begins_with one.now list.now }
{
    match list {
        [first, ..] => number_of(one) == number_of(first),
        [] => false,
    }
}

/// The place of an operand in the order of operands.
fn number_of(one: &Opnd) -> u64
    ensures { result ≡ number_of one.now }
{
    match one {
        Opnd::Reg(reg) => u64::from(reg.number()),
        Opnd::Temp(temp) => 32 + u64::from(temp.0),
    }
}

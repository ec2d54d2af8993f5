ghost use Rattle.std.specs.Prelude.{◌≡◌, ◌≤◌, length, ◌++◌, OnOk, slice_index_or};
ghost use Rattle.tg_show.specs.Runs as runs;

use crate::words::{put, put_byte, put_temp};
use tg_base::{Bytes, Memory, Temp};
use tg_instr::Opnd;
use tg_isa::{Reg, name};

/// Puts operands at the end, each behind a blank. Three or more that follow each other are a run,
/// of which the first and the last are written.
pub fn put_operands(text: &mut Vec<u8>, names: &[Bytes], operands: &[Opnd]) -> Result<(), Memory>
    ensures { OnOk result (text.new.items
        ≡ text.old.items ++ runs.operands_text names.now operands.now) }
{
    let mut left: usize = 0;
    for at in 0..operands.len() {
        let operand = &operands[at];
        put_listed(text, names, left, operand)?;
        left = next_left(names, left, operand, &operands[at + 1..]);
    }
    Ok(())
}

/// Puts an operand of a list at the end, of which so many are left in the run that it is in.
fn put_listed(
    text: &mut Vec<u8>,
    names: &[Bytes],
    left: usize,
    operand: &Opnd,
) -> Result<(), Memory>
    ensures { OnOk result (text.new.items
        ≡ text.old.items ++ runs.listed names.now left operand.now) }
{
    match left {
        0 => {
            put_byte(text, b' ')?;
            put_operand(text, names, *operand)
        }
        1 => {
            put(text, b"..")?;
            put_operand(text, names, *operand)
        }
        _ => Ok(()),
    }
}

fn next_left(names: &[Bytes], left: usize, operand: &Opnd, rest: &[Opnd]) -> usize
    ensures { result ≡ runs.next_left names.now left operand.now rest.now }
{
    if left == 0 {
        run_behind(names, operand, rest)
    } else {
        left - 1
    }
}

/// How many of a run are left behind its first operand. One that follows alone makes no run.
fn run_behind(names: &[Bytes], operand: &Opnd, rest: &[Opnd]) -> usize
    ensures { result ≡ runs.run_behind names.now operand.now rest.now }
{
    let count = following(names, operand, rest);
    if count < 2 { 0 } else { count }
}

/// How many operands at the front of a list follow each other, of which the first follows one.
fn following(names: &[Bytes], operand: &Opnd, rest: &[Opnd]) -> usize
    ensures { result ≡ runs.following names.now operand.now rest.now }
{
    let mut last = operand;
    for at in 0..rest.len() {
        let next = &rest[at];
        if !follows(names, last, next) {
            return at;
        }
        last = next;
    }
    rest.len()
}

fn follows(names: &[Bytes], first: &Opnd, second: &Opnd) -> bool
    ensures { result ≡ runs.follows names.now first.now second.now }
{
    match (first, second) {
        (Opnd::Temp(first), Opnd::Temp(second)) => is_next_temp(names, *first, *second),
        (Opnd::Reg(first), Opnd::Reg(second)) => is_next_register(*first, *second),
        _ => false,
    }
}

fn is_next_temp(names: &[Bytes], first: Temp, second: Temp) -> bool
    ensures { result ≡ runs.is_next_temp names.now first.0 second.0 }
{
    is_next(first.0, second.0) && is_nameless(names, first) && is_nameless(names, second)
}

fn is_next_register(first: Reg, second: Reg) -> bool
    ensures { result ≡ runs.is_next_register first second }
{
    letter(second) == letter(first) && is_next(u32::from(digit(first)), u32::from(digit(second)))
}

fn is_next(first: u32, second: u32) -> bool
    ensures { result ≡ runs.is_next first second }
{
    u64::from(second) == u64::from(first) + 1
}

fn is_nameless(names: &[Bytes], temp: Temp) -> bool
    ensures { result ≡ runs.is_nameless names.now temp.0 }
{
    match names.get(temp.0 as usize) {
        Some(name) => name.as_slice().is_empty(),
        None => true,
    }
}

/// The letter of a register's name.
fn letter(register: Reg) -> u8
    ensures { result ≡ runs.letter register }
{
    byte_at(name(register).as_bytes(), 1)
}

/// The digit behind the letter of a register's name.
fn digit(register: Reg) -> u8
    ensures { result ≡ runs.digit register }
{
    byte_at(name(register).as_bytes(), 2)
}

fn byte_at(bytes: &[u8], place: usize) -> u8
    ensures { result ≡ slice_index_or bytes.now place 0 }
{
    match bytes.get(place) {
        Some(byte) => *byte,
        None => 0,
    }
}

/// Puts an operand at the end: a temporary, or a register's name.
pub fn put_operand(text: &mut Vec<u8>, names: &[Bytes], operand: Opnd) -> Result<(), Memory>
    ensures { OnOk result (text.new.items
        ≡ text.old.items ++ runs.operand_text names.now operand) }
{
    match operand {
        Opnd::Temp(temp) => put_temp(text, names, temp),
        Opnd::Reg(reg) => put(text, name(reg).as_bytes()),
    }
}

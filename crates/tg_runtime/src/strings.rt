// A new string asks service 9 for its length and 4 bytes more, since the service rounds up to
// words. No function of the runtime uses a literal or calls another.
//
// `concat` copies its first string word by word, since strings begin at multiples of 4. What the
// last word brings along is replaced by the second string, or stands after the end of the new
// one, where nothing looks.

ghost use Rattle.std.specs.Prelude.{◌≡◌, IfOk};
ghost use Rattle.tg_tree.specs.glue.Plain.{plain_tx, plain_cond, plain_ts};
ghost use Rattle.tg_runtime.specs.mirror.Routines as routines;

use crate::forms::{
    MINUS_ONE, advance, assign, byte_at, bytes_of, compare_temps, copy_bytes, copy_words,
    is_negative, load_at, sum, take_string, temp, walk, whole_words,
};
use std::alloc::Global;
use tg_base::Memory;
use tg_tree::{Bin, Cond, Rel, Ts, Tx, binary, compare, either, if_else, sequence, when};

/// The fault of a part that a string doesn't have.
const SUBSTRING_FAULT: u32 = 5;

/// The order of two strings: below 0, 0 or above 0.
pub(crate) fn compare_strings(alloc: Global) -> Result<Ts, Memory>
    ensures { IfOk result (λ s. plain_ts s ≡ routines.compare 0 1 2 3 4 5 6) }
{
    let (left, right, at, other, end, one, two) = (0, 1, 2, 3, 4, 5, 6);
    let turn = vec![in alloc;
        assign(one, byte_at(alloc, at)?),
        assign(two, byte_at(alloc, other)?),
        compare_bytes(alloc, one, two)?,
        advance(alloc, at, 1)?,
        advance(alloc, other, 1)?,
    ]?;
    Ok(sequence(vec![in alloc;
        assign(at, bytes_of(alloc, left)?),
        assign(other, bytes_of(alloc, right)?),
        common_end(alloc, left, right, at, end)?,
        walk(alloc, at, end, turn)?,
        when(
            alloc,
            lengths(alloc, Rel::Equal, left, right)?,
            Ts::Return(Tx::Const(0))
        )?,
        when(
            alloc,
            lengths(alloc, Rel::Less, left, right)?,
            Ts::Return(Tx::Const(MINUS_ONE))
        )?,
        Ts::Return(Tx::Const(1)),
    ]?))
}

// The order of two bytes, where they differ.
fn compare_bytes(alloc: Global, one: u32, two: u32) -> Result<Ts, Memory>
    ensures { IfOk result (λ s. plain_ts s ≡ routines.compare_bytes one two) }
{
    let differ = compare_temps(alloc, Rel::NotEqual, one, two)?;
    let less = compare_temps(alloc, Rel::Less, one, two)?;
    let order = if_else(
        alloc,
        less,
        Ts::Return(Tx::Const(MINUS_ONE)),
        Ts::Return(Tx::Const(1)),
    )?;
    when(alloc, differ, order)
}

// The end of the bytes of the first string for which the second one has bytes too.
fn common_end(alloc: Global, left: u32, right: u32, at: u32, end: u32) -> Result<Ts, Memory>
    ensures { IfOk result (λ s. plain_ts s ≡ routines.common_end left right at end) }
{
    let this = sum(alloc, at, load_at(alloc, left)?)?;
    let other = sum(alloc, at, load_at(alloc, right)?)?;
    let shorter = lengths(alloc, Rel::Less, left, right)?;
    if_else(alloc, shorter, assign(end, this), assign(end, other))
}

// A comparison of two strings' lengths.
fn lengths(alloc: Global, rel: Rel, left: u32, right: u32) -> Result<Cond, Memory>
    ensures { IfOk result (λ c. plain_cond c ≡ routines.lengths rel left right) }
{
    compare(alloc, rel, load_at(alloc, left)?, load_at(alloc, right)?)
}

/// Some bytes of a string from one of them on.
pub(crate) fn substring(alloc: Global) -> Result<Ts, Memory>
    ensures { IfOk result (λ s. plain_ts s ≡ routines.substring 0 1 2 3 4 5 6) }
{
    let (string, first, count, made, from, end, to) = (0, 1, 2, 3, 4, 5, 6);
    let bytes = sum(alloc, count, Tx::Const(4))?;
    let begin = binary(alloc, Bin::Add, bytes_of(alloc, string)?, temp(first))?;
    Ok(sequence(vec![in alloc;
        when(
            alloc,
            is_outside(alloc, string, first, count)?,
            Ts::Fault(SUBSTRING_FAULT)
        )?,
        take_string(alloc, made, bytes, temp(count))?,
        assign(from, begin),
        assign(end, sum(alloc, from, temp(count))?),
        assign(to, bytes_of(alloc, made)?),
        copy_bytes(alloc, from, end, to)?,
        Ts::Return(temp(made)),
    ]?))
}

// Whether a string has no such bytes.
fn is_outside(alloc: Global, string: u32, first: u32, count: u32) -> Result<Cond, Memory>
    ensures { IfOk result (λ c. plain_cond c ≡ routines.is_outside string first count) }
{
    let last = binary(alloc, Bin::Sub, load_at(alloc, string)?, temp(count))?;
    let behind = compare(alloc, Rel::Greater, temp(first), last)?;
    let count_or_behind = either(alloc, is_negative(alloc, count)?, behind)?;
    either(alloc, is_negative(alloc, first)?, count_or_behind)
}

/// The bytes of one string, and after them those of another one.
pub(crate) fn concat(alloc: Global) -> Result<Ts, Memory>
    ensures { IfOk result (λ s. plain_ts s ≡ routines.concat 0 1 2 3 4 5) }
{
    let (left, right, made, from, end, to) = (0, 1, 2, 3, 4, 5);
    let both = binary(
        alloc,
        Bin::Add,
        load_at(alloc, left)?,
        load_at(alloc, right)?,
    )?;
    let bytes = sum(alloc, end, Tx::Const(4))?;
    let behind = binary(
        alloc,
        Bin::Add,
        bytes_of(alloc, made)?,
        load_at(alloc, left)?,
    )?;
    Ok(sequence(vec![in alloc;
        assign(end, both),
        take_string(alloc, made, bytes, temp(end))?,
        begin_with(alloc, left, made, from, end, to)?,
        assign(to, behind),
        append(alloc, right, from, end, to)?,
        Ts::Return(temp(made)),
    ]?))
}

// The words that hold a string's bytes are put where those of another string begin.
fn begin_with(
    alloc: Global,
    string: u32,
    made: u32,
    from: u32,
    end: u32,
    to: u32,
) -> Result<Ts, Memory>
    ensures { IfOk result (λ s. plain_ts s ≡ routines.begin_with string made from end to) }
{
    let behind = sum(alloc, from, load_at(alloc, string)?)?;
    let last = whole_words(alloc, behind)?;
    let begin = bytes_of(alloc, string)?;
    let place = bytes_of(alloc, made)?;
    let copied = copy_words(alloc, from, end, to)?;
    Ok(sequence(vec![in alloc;
        assign(from, begin),
        assign(end, last),
        assign(to, place),
        copied,
    ]?))
}

// All bytes of a string are put from an address on.
fn append(alloc: Global, string: u32, from: u32, end: u32, to: u32) -> Result<Ts, Memory>
    ensures { IfOk result (λ s. plain_ts s ≡ routines.append string from end to) }
{
    let last = sum(alloc, from, load_at(alloc, string)?)?;
    let begin = bytes_of(alloc, string)?;
    let copied = copy_bytes(alloc, from, end, to)?;
    Ok(sequence(vec![in alloc; assign(from, begin), assign(end, last), copied]?))
}

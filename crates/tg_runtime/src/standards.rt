ghost use Rattle.std.specs.Prelude.{◌≡◌, IfOk};
ghost use Rattle.tg_tree.specs.glue.Plain.{plain_tx, plain_cond, plain_ts};
ghost use Rattle.tg_runtime.specs.mirror.Routines as routines;

use crate::forms::{
    EXIT, MINUS_ONE, READ, WRITE, advance, assign, byte_at, bytes_of, is_negative, load_at, sum,
    take_string, temp, walk,
};
use std::alloc::Global;
use tg_base::Memory;
use tg_tree::{Rel, Ts, Tx, compare, if_else, load_byte, sequence, service, when};

/// The fault of a number that is no byte.
const CHR_FAULT: u32 = 4;

pub(crate) fn print(alloc: Global) -> Result<Ts, Memory>
    ensures { IfOk result (λ s. plain_ts s ≡ routines.print 0 1 2) }
{
    let (string, at, end) = (0, 1, 2);
    let written = service(alloc, WRITE, byte_at(alloc, at)?)?;
    let next = advance(alloc, at, 1)?;
    let turn = vec![in alloc; Ts::Do(written), next]?;
    let last = sum(alloc, at, load_at(alloc, string)?)?;
    let begin = bytes_of(alloc, string)?;
    let turns = walk(alloc, at, end, turn)?;
    Ok(sequence(vec![in alloc;
        assign(at, begin),
        assign(end, last),
        turns,
        Ts::Return(Tx::Const(0)),
    ]?))
}

pub(crate) fn flush() -> Ts
    ensures { plain_ts result ≡ routines.flush }
{
    Ts::Return(Tx::Const(0))
}

/// The byte is read before memory is taken.
pub(crate) fn getchar(alloc: Global) -> Result<Ts, Memory>
    ensures { IfOk result (λ s. plain_ts s ≡ routines.getchar 0 1) }
{
    let (byte, string) = (0, 1);
    let read = service(alloc, READ, Tx::Const(0))?;
    let at_end = is_negative(alloc, byte)?;
    let none = take_string(alloc, string, Tx::Const(4), Tx::Const(0))?;
    let one = string_of_byte(alloc, string, byte)?;
    let taken = if_else(alloc, at_end, none, one)?;
    Ok(sequence(vec![in alloc; assign(byte, read), taken, Ts::Return(temp(string))]?))
}

// A new string of one byte.
fn string_of_byte(alloc: Global, string: u32, byte: u32) -> Result<Ts, Memory>
    ensures { IfOk result (λ s. plain_ts s ≡ routines.string_of_byte string byte) }
{
    let begin = bytes_of(alloc, string)?;
    let taken = take_string(alloc, string, Tx::Const(8), Tx::Const(1))?;
    Ok(sequence(vec![in alloc; taken, Ts::StoreByte(begin, temp(byte))]?))
}

pub(crate) fn ord(alloc: Global) -> Result<Ts, Memory>
    ensures { IfOk result (λ s. plain_ts s ≡ routines.ord 0) }
{
    let string = 0;
    let is_empty = compare(alloc, Rel::Equal, load_at(alloc, string)?, Tx::Const(0))?;
    let first = load_byte(alloc, bytes_of(alloc, string)?)?;
    let none = when(alloc, is_empty, Ts::Return(Tx::Const(MINUS_ONE)))?;
    Ok(sequence(vec![in alloc; none, Ts::Return(first)]?))
}

pub(crate) fn chr(alloc: Global) -> Result<Ts, Memory>
    ensures { IfOk result (λ s. plain_ts s ≡ routines.chr 0 1) }
{
    let (byte, string) = (0, 1);
    let is_no_byte = compare(alloc, Rel::NotBelow, temp(byte), Tx::Const(256))?;
    Ok(sequence(vec![in alloc;
        when(alloc, is_no_byte, Ts::Fault(CHR_FAULT))?,
        string_of_byte(alloc, string, byte)?,
        Ts::Return(temp(string)),
    ]?))
}

pub(crate) fn size(alloc: Global) -> Result<Ts, Memory>
    ensures { IfOk result (λ s. plain_ts s ≡ routines.size 0) }
{
    Ok(Ts::Return(load_at(alloc, 0)?))
}

pub(crate) fn negation(alloc: Global) -> Result<Ts, Memory>
    ensures { IfOk result (λ s. plain_ts s ≡ routines.negation 0) }
{
    let is_zero = compare(alloc, Rel::Equal, temp(0), Tx::Const(0))?;
    let one = when(alloc, is_zero, Ts::Return(Tx::Const(1)))?;
    Ok(sequence(vec![in alloc; one, Ts::Return(Tx::Const(0))]?))
}

pub(crate) fn exit(alloc: Global) -> Result<Ts, Memory>
    ensures { IfOk result (λ s. plain_ts s ≡ routines.exit 0) }
{
    let ended = Ts::Do(service(alloc, EXIT, temp(0))?);
    Ok(sequence(vec![in alloc; ended, Ts::Return(Tx::Const(0))]?))
}

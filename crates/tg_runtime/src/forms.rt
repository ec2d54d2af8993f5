ghost use Rattle.std.specs.Prelude.{◌≡◌, IfOk, map};
ghost use Rattle.tg_tree.specs.Tree as tree;
ghost use Rattle.tg_tree.specs.declared.operators.Bin.TheVariants.{Add as PlainAdd};
ghost use Rattle.tg_tree.specs.declared.operators.Rel.TheVariants.{Equal as PlainEqual};
ghost use Rattle.tg_tree.specs.glue.Plain.{plain_tx, plain_cond, plain_ts};
ghost use Rattle.tg_runtime.specs.mirror.Routines as routines;

use std::alloc::Global;
use tg_base::{Memory, Temp};
use tg_tree::{
    Bin, Cond, Rel, Ts, Tx, binary, compare, load, load_byte, repeat_until, sequence, service, when,
};

/// The service that takes memory.
pub(crate) const TAKE: u32 = 9;

/// The services that write a byte, read one, and end the program.
pub(crate) const WRITE: u32 = 11;

pub(crate) const READ: u32 = 12;

pub(crate) const EXIT: u32 = 17;

/// -1 as a word.
pub(crate) const MINUS_ONE: u32 = u32::MAX;

/// A temporary's value.
pub(crate) fn temp(number: u32) -> Tx
    ensures { plain_tx result ≡ tree.Temp number }
{
    Tx::Temp(Temp(number))
}

/// A temporary becomes a value.
pub(crate) fn assign(number: u32, value: Tx) -> Ts
    ensures { plain_ts result ≡ tree.Move number (plain_tx value) }
{
    Ts::Move(Temp(number), value)
}

/// The word at the address in a temporary.
pub(crate) fn load_at(alloc: Global, address: u32) -> Result<Tx, Memory>
    ensures { IfOk result (λ x. plain_tx x ≡ tree.Load (tree.Temp address)) }
{
    load(alloc, temp(address))
}

/// The byte at the address in a temporary.
pub(crate) fn byte_at(alloc: Global, address: u32) -> Result<Tx, Memory>
    ensures { IfOk result (λ x. plain_tx x ≡ tree.LoadByte (tree.Temp address)) }
{
    load_byte(alloc, temp(address))
}

/// The wrapping sum of a temporary and another value.
pub(crate) fn sum(alloc: Global, left: u32, right: Tx) -> Result<Tx, Memory>
    ensures { IfOk result (λ x. plain_tx x ≡
        tree.Binary PlainAdd (tree.Temp left) (plain_tx right)) }
{
    binary(alloc, Bin::Add, temp(left), right)
}

/// Where a string's bytes begin.
pub(crate) fn bytes_of(alloc: Global, string: u32) -> Result<Tx, Memory>
    ensures { IfOk result (λ x. plain_tx x ≡ routines.bytes_of string) }
{
    sum(alloc, string, Tx::Const(4))
}

/// A temporary goes on by some bytes.
pub(crate) fn advance(alloc: Global, at: u32, bytes: u32) -> Result<Ts, Memory>
    ensures { IfOk result (λ s. plain_ts s ≡ routines.advance at bytes) }
{
    Ok(assign(at, sum(alloc, at, Tx::Const(bytes))?))
}

/// A comparison of two temporaries.
pub(crate) fn compare_temps(alloc: Global, rel: Rel, left: u32, right: u32) -> Result<Cond, Memory>
    ensures { IfOk result (λ c. plain_cond c ≡
        tree.Compare rel (tree.Temp left) (tree.Temp right)) }
{
    compare(alloc, rel, temp(left), temp(right))
}

/// Whether a temporary's int is below 0.
pub(crate) fn is_negative(alloc: Global, number: u32) -> Result<Cond, Memory>
    ensures { IfOk result (λ c. plain_cond c ≡ routines.is_negative (tree.Temp number)) }
{
    compare(alloc, Rel::Less, temp(number), Tx::Const(0))
}

/// A turn for each part from an address up to an end; each turn advances.
pub(crate) fn walk(alloc: Global, at: u32, end: u32, turn: Vec<Ts>) -> Result<Ts, Memory>
    ensures { IfOk result (λ s. plain_ts s ≡ routines.walk at end (map plain_ts turn.items)) }
{
    let done = compare_temps(alloc, Rel::Equal, at, end)?;
    let more = compare_temps(alloc, Rel::NotEqual, at, end)?;
    let turns = repeat_until(alloc, done, turn)?;
    when(alloc, more, turns)
}

/// A new string of some length, which takes so many bytes with the word of its length.
pub(crate) fn take_string(alloc: Global, string: u32, bytes: Tx, length: Tx) -> Result<Ts, Memory>
    ensures { IfOk result (λ s. plain_ts s ≡
        routines.take_string string (plain_tx bytes) (plain_tx length)) }
{
    let taken = assign(string, service(alloc, TAKE, bytes)?);
    Ok(sequence(vec![in alloc; taken, Ts::Store(temp(string), length)]?))
}

/// The bytes from one address on, up to an end, are put from another address on.
pub(crate) fn copy_bytes(alloc: Global, from: u32, end: u32, to: u32) -> Result<Ts, Memory>
    ensures { IfOk result (λ s. plain_ts s ≡ routines.copy_bytes from end to) }
{
    let part = Ts::StoreByte(temp(to), byte_at(alloc, from)?);
    copy_parts(alloc, part, 1, from, end, to)
}

/// The words from one address on, up to an end, are put from another address on.
pub(crate) fn copy_words(alloc: Global, from: u32, end: u32, to: u32) -> Result<Ts, Memory>
    ensures { IfOk result (λ s. plain_ts s ≡ routines.copy_words from end to) }
{
    let part = Ts::Store(temp(to), load_at(alloc, from)?);
    copy_parts(alloc, part, 4, from, end, to)
}

// What lies from one address on, up to an end, is put from another one on, in parts.
fn copy_parts(
    alloc: Global,
    part: Ts,
    bytes: u32,
    from: u32,
    end: u32,
    to: u32,
) -> Result<Ts, Memory>
    ensures { IfOk result (λ s. plain_ts s ≡
        routines.copy_parts (plain_ts part) bytes from end to) }
{
    let next = sum(alloc, from, Tx::Const(bytes))?;
    let place = sum(alloc, to, Tx::Const(bytes))?;
    let turn = vec![in alloc; part, assign(from, next), assign(to, place)]?;
    walk(alloc, from, end, turn)
}

/// The first multiple of 4 from a number on.
pub(crate) fn whole_words(alloc: Global, number: Tx) -> Result<Tx, Memory>
    ensures { IfOk result (λ x. plain_tx x ≡ routines.whole_words (plain_tx number)) }
{
    let past = binary(alloc, Bin::Add, number, Tx::Const(3))?;
    let words = binary(alloc, Bin::ShiftRight, past, Tx::Const(2))?;
    binary(alloc, Bin::ShiftLeft, words, Tx::Const(2))
}

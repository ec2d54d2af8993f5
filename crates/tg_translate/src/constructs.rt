ghost use Rattle.std.specs.Prelude.{◌≡◌, ◌*◌, IfOk};
ghost use Rattle.tg_tree.specs.glue.Plain.{plain_tx, plain_cond, plain_ts};
ghost use Rattle.tg_translate.specs.mirror.Constructs as constructs;

use std::alloc::Global;
use tg_base::{Memory, Temp};
use tg_runtime::Routine;
use tg_tree::{Bin, Cond, Rel, Ts, Tx, binary, both, call, compare, load, when};

/// The faults that end a program: an access of nil, an index outside its array, and a zero divisor.
const NIL: u32 = 2;

const INDEX: u32 = 3;

const DIVISION: u32 = 7;

/// -1 and -2147483648 as words.
pub(crate) const MINUS_ONE: u32 = u32::MAX;

pub(crate) const LEAST_INT: u32 = 2147483648;

/// The greatest number whose fourfold is a word.
const MOST_WORDS: u32 = 1073741823;

/// Four times a number, which is a number of bytes.
pub(crate) fn bytes_of(words: u32) -> Result<u32, Memory>
    ensures { IfOk result (λ n. n ≡ 4 * words) }
{
    if words > MOST_WORDS {
        return Err(Memory);
    }
    Ok(4 * words)
}

/// So many bytes after an address.
pub(crate) fn plus(alloc: Global, address: Tx, bytes: u32) -> Result<Tx, Memory>
    ensures { IfOk result (λ x. plain_tx x ≡ constructs.plus (plain_tx address) bytes) }
{
    if bytes == 0 {
        return Ok(address);
    }
    Ok(binary(alloc, Bin::Add, address, Tx::Const(bytes))?)
}

/// The address of a slot: the word 4·(slot + 1) bytes below the frame address.
pub(crate) fn slot_address(alloc: Global, frame: Tx, slot: u32) -> Result<Tx, Memory>
    ensures { IfOk result (λ x. plain_tx x ≡ constructs.slot_address (plain_tx frame) slot) }
{
    if slot >= MOST_WORDS {
        return Err(Memory);
    }
    Ok(binary(alloc, Bin::Sub, frame, Tx::Const(4 * (slot + 1)))?)
}

/// The static link of the activation with this frame address, which stands in its first slot.
fn link_of(alloc: Global, frame: Tx) -> Result<Tx, Memory>
    ensures { IfOk result (λ x. plain_tx x ≡ constructs.link_of (plain_tx frame)) }
{
    Ok(load(alloc, slot_address(alloc, frame, 0)?)?)
}

/// The static link of the activation at work, in its first slot or its first temporary.
fn own_link(alloc: Global, link_in_slot: bool) -> Result<Tx, Memory>
    ensures { IfOk result (λ x. plain_tx x ≡ constructs.own_link link_in_slot) }
{
    if link_in_slot {
        Ok(link_of(alloc, Tx::FrameAddress)?)
    } else {
        Ok(Tx::Temp(Temp(0)))
    }
}

/// The frame address of the activation so many functions outwards.
pub(crate) fn frame_out(alloc: Global, link_in_slot: bool, hops: u32) -> Result<Tx, Memory>
    ensures { IfOk result (λ x. plain_tx x ≡ constructs.frame_out link_in_slot hops) }
{
    if hops == 0 {
        return Ok(Tx::FrameAddress);
    }
    if hops == 1 {
        return Ok(own_link(alloc, link_in_slot)?);
    }
    Ok(link_of(alloc, frame_out(alloc, link_in_slot, hops - 1)?)?)
}

/// Ends the program where a record is nil.
pub(crate) fn nil_check(alloc: Global, record_: Tx) -> Result<Ts, Memory>
    ensures { IfOk result (λ s. plain_ts s ≡ constructs.nil_check (plain_tx record_)) }
{
    let is_nil = compare(alloc, Rel::Equal, record_, Tx::Const(0))?;
    Ok(when(alloc, is_nil, Ts::Fault(NIL))?)
}

/// Ends the program where an index isn't below an array's length: one comparison without sign.
pub(crate) fn index_check(alloc: Global, array: Tx, index: Tx) -> Result<Ts, Memory>
    ensures { IfOk result (λ s. plain_ts s ≡
        constructs.index_check (plain_tx array) (plain_tx index)) }
{
    let is_outside = compare(alloc, Rel::NotBelow, index, load(alloc, array)?)?;
    Ok(when(alloc, is_outside, Ts::Fault(INDEX))?)
}

/// Ends the program where a divisor is 0.
pub(crate) fn zero_check(alloc: Global, divisor: Tx) -> Result<Ts, Memory>
    ensures { IfOk result (λ s. plain_ts s ≡ constructs.zero_check (plain_tx divisor)) }
{
    let is_zero = compare(alloc, Rel::Equal, divisor, Tx::Const(0))?;
    Ok(when(alloc, is_zero, Ts::Fault(DIVISION))?)
}

/// Ends the program by overflow.
fn overflow(alloc: Global) -> Result<Ts, Memory>
    ensures { IfOk result (λ s. plain_ts s ≡ constructs.overflow) }
{
    let least = Tx::Const(LEAST_INT);
    let twice = binary(alloc, Bin::AddTrap, least, Tx::Const(LEAST_INT))?;
    Ok(Ts::Do(twice))
}

/// Ends the program where the product of two factors overflows: its upper word isn't all its lower
/// word's sign.
pub(crate) fn product_check(alloc: Global, left: Tx, right: Tx, product: Tx) -> Result<Ts, Memory>
    ensures { IfOk result (λ s. plain_ts s ≡
        constructs.product_check (plain_tx left) (plain_tx right) (plain_tx product)) }
{
    let high = binary(alloc, Bin::MulHigh, left, right)?;
    let sign = binary(alloc, Bin::ShiftSigned, product, Tx::Const(31))?;
    let overflows = compare(alloc, Rel::NotEqual, high, sign)?;
    Ok(when(alloc, overflows, overflow(alloc)?)?)
}

/// Ends the program where a quotient overflows: that of -2147483648 and -1.
pub(crate) fn quotient_check(alloc: Global, left: Tx, right: Tx) -> Result<Ts, Memory>
    ensures { IfOk result (λ s. plain_ts s ≡
        constructs.quotient_check (plain_tx left) (plain_tx right)) }
{
    let by_minus_one = compare(alloc, Rel::Equal, right, Tx::Const(MINUS_ONE))?;
    let of_least = compare(alloc, Rel::Equal, left, Tx::Const(LEAST_INT))?;
    let overflows = both(alloc, by_minus_one, of_least)?;
    Ok(when(alloc, overflows, overflow(alloc)?)?)
}

/// The address of an array's element: the length comes first.
pub(crate) fn element(alloc: Global, array: Tx, index: Tx) -> Result<Tx, Memory>
    ensures { IfOk result (λ x. plain_tx x ≡
        constructs.element (plain_tx array) (plain_tx index)) }
{
    let offset = binary(alloc, Bin::ShiftLeft, index, Tx::Const(2))?;
    let before = binary(alloc, Bin::Add, offset, array)?;
    Ok(binary(alloc, Bin::Add, before, Tx::Const(4))?)
}

/// A call of the runtime with two arguments.
pub(crate) fn call_with_two(
    alloc: Global,
    one: Routine,
    first: Tx,
    second: Tx,
) -> Result<Tx, Memory>
    ensures { IfOk result (λ x. plain_tx x ≡
        constructs.call_routine one (constructs.two_txs (plain_tx first) (plain_tx second))) }
{
    Ok(call(one.label(), vec![in alloc; first, second]?))
}

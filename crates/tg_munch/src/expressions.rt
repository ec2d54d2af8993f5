ghost use Rattle.std.specs.Prelude.{◌≡◌, ◌<◌, ◌*◌, ◌-◌, OnOk, IfOk, nat_lt, if◌then◌else◌};
ghost use Rattle.tg_tree.specs.Tree as tree;
ghost use Rattle.tg_tree.specs.glue.Lists.{txs_of};
ghost use Rattle.tg_tree.specs.glue.Plain.{plain_tx};
ghost use Rattle.tg_munch.specs.glue.Drafts.{Writes};
ghost use Rattle.tg_munch.specs.mirror.Arguments.{one_may_end, ordered};
ghost use Rattle.tg_munch.specs.mirror.Choosing.{give};
ghost use Rattle.tg_munch.specs.mirror.Munching as munching;
ghost use Rattle.tg_munch.specs.mirror.Tiles as tiles;

use crate::arguments::one_may_end;
use crate::drafts::Draft;
use crate::operators::{operate, shift_into};
use crate::tiles::{Base, Immediate, Tile};
use crate::tiling::{offset, slot, tile};
use tg_base::{Label, Memory};
use tg_instr::{Instr, Opnd};
use tg_isa::{Bits, Reg};
use tg_tree::{Tx, Txs};

/// The most arguments of a call.
pub(crate) const MOST_ARGUMENTS: usize = 4000000;

/// An expression in the operand that is asked for, or in one of its own.
#[cycle(munching)]
pub(crate) fn expression(
    draft: &mut Draft,
    slots: u32,
    x: &Tx,
    asked: Option<Opnd>,
) -> Result<Opnd, Memory>
    ensures { IfOk result
        (λ v. Writes (munching.expression slots (plain_tx x.now) asked) draft.old draft.new v) }
{
    match x {
        Tx::Const(n) => constant(draft, *n, asked),
        Tx::Address(label) => address(draft, *label, asked),
        Tx::Temp(temp) => draft.move_into(asked, Opnd::Temp(*temp)),
        Tx::FrameAddress => frame_address(draft, asked),
        Tx::Binary(op, left, right) => {
            match tile(*op, left, right) {
                Tile::Right(one) => with_constant(draft, slots, one, left, asked),
                Tile::Left(one) => with_constant(draft, slots, one, right, asked),
                Tile::ByWord => {
                    let word = expression(draft, slots, left, None)?;
                    let amount = expression(draft, slots, right, None)?;
                    let value = shift_into(draft, *op, word, amount, asked)?;
                    Ok(value)
                }
                Tile::Operands => {
                    let to = draft.choose(asked)?;
                    let first = expression(draft, slots, left, None)?;
                    let second = expression(draft, slots, right, None)?;
                    let value = operate(draft, *op, to, first, second)?;
                    Ok(value)
                }
            }
        }
        Tx::Load(address) => load(draft, slots, address, asked),
        Tx::LoadByte(address) => load_byte(draft, slots, address, asked),
        Tx::Call(label, items) => {
            call(draft, slots, *label, items)?;
            let value = answer_in(draft, asked)?;
            Ok(value)
        }
        Tx::Service(number, argument) => {
            service(draft, slots, *number, argument)?;
            let value = answer_in(draft, asked)?;
            Ok(value)
        }
        Tx::After(_, value) => expression(draft, slots, value, asked),
    }
}

/// An operand and a number in the instruction's field.
#[cycle(munching)]
fn with_constant(
    draft: &mut Draft,
    slots: u32,
    one: Immediate,
    side: &Tx,
    asked: Option<Opnd>,
) -> Result<Opnd, Memory>
    ensures { IfOk result
        (λ v. Writes
        (tiles.with_field one asked (munching.expression slots (plain_tx side.now) None))
        draft.old draft.new v) }
{
    let to = draft.choose(asked)?;
    let target = to;
    let from = expression(draft, slots, side, None)?;
    let value = draft.define(one.instruction(target, from), to)?;
    Ok(value)
}

/// The word at an address.
#[cycle(munching)]
fn load(draft: &mut Draft, slots: u32, address: &Tx, asked: Option<Opnd>) -> Result<Opnd, Memory>
    ensures { IfOk result
        (λ v. Writes (munching.loaded_at slots (plain_tx address.now) asked)
        draft.old draft.new v) }
{
    let to = draft.choose(asked)?;
    let value = load_to(draft, slots, address, to)?;
    Ok(value)
}

#[cycle(munching)]
fn load_to(draft: &mut Draft, slots: u32, address: &Tx, to: Opnd) -> Result<Opnd, Memory>
    ensures { IfOk result
        (λ v. Writes (munching.loaded_to slots (plain_tx address.now) to) draft.old draft.new v) }
{
    let target = to;
    match slot(slots, address) {
        Some(slot) => draft.define(Instr::FrameLoad(target, slot), to),
        None => {
            let place = base(draft, slots, address)?;
            let value = draft.define(Instr::Lw(target, place.bytes, place.operand), to)?;
            Ok(value)
        }
    }
}

/// The byte at an address.
#[cycle(munching)]
fn load_byte(
    draft: &mut Draft,
    slots: u32,
    address: &Tx,
    asked: Option<Opnd>,
) -> Result<Opnd, Memory>
    ensures { IfOk result
        (λ v. Writes (munching.byte_at slots (plain_tx address.now) asked)
        draft.old draft.new v) }
{
    let to = draft.choose(asked)?;
    let target = to;
    let place = base(draft, slots, address)?;
    let value = draft.define(Instr::Lbu(target, place.bytes, place.operand), to)?;
    Ok(value)
}

/// An address, as an operand and a number of bytes after it.
#[cycle(munching)]
pub(crate) fn base(draft: &mut Draft, slots: u32, address: &Tx) -> Result<Base, Memory>
    ensures { IfOk result
        (λ b. Writes (munching.based_at slots (plain_tx address.now)) draft.old draft.new b) }
{
    match offset(address) {
        Some(bytes) => {
            let operand = left_side(draft, slots, address)?;
            Ok(Base { bytes, operand })
        }
        None => {
            let operand = expression(draft, slots, address, None)?;
            Ok(Base {
                bytes: Bits::new(0),
                operand,
            })
        }
    }
}

#[cycle(munching)]
fn left_side(draft: &mut Draft, slots: u32, address: &Tx) -> Result<Opnd, Memory>
    ensures { IfOk result
        (λ v. Writes (munching.left_side slots (plain_tx address.now)) draft.old draft.new v) }
{
    match address {
        Tx::Binary(_, left, _) => expression(draft, slots, left, None),
        Tx::Const(_) => expression(draft, slots, address, None),
        Tx::Address(_) => expression(draft, slots, address, None),
        Tx::Temp(_) => expression(draft, slots, address, None),
        Tx::FrameAddress => expression(draft, slots, address, None),
        Tx::Load(_) => expression(draft, slots, address, None),
        Tx::LoadByte(_) => expression(draft, slots, address, None),
        Tx::Call(_, _) => expression(draft, slots, address, None),
        Tx::Service(_, _) => expression(draft, slots, address, None),
        Tx::After(_, _) => expression(draft, slots, address, None),
    }
}

/// A call, after its arguments.
#[cycle(munching)]
pub(crate) fn call(draft: &mut Draft, slots: u32, label: Label, items: &Txs) -> Result<(), Memory>
    ensures { OnOk result
        (Writes (munching.effect slots (tree.Call label.0 (txs_of items.now.items.items)))
        draft.old draft.new tt) }
{
    arguments(draft, slots, items)?;
    draft.put(Instr::Call(label))?;
    Ok(())
}

/// The arguments of a call: those past the fourth first, so that `$a0` to `$a3` are free meanwhile.
/// Where one of the first four may end the run, all stand in their order.
#[cycle(munching)]
fn arguments(draft: &mut Draft, slots: u32, items: &Txs) -> Result<(), Memory>
    ensures { OnOk result
        (Writes (ordered (one_may_end 0 (txs_of items.now.items.items))
        (λ picks. munching.arguments slots picks 0 (txs_of items.now.items.items)))
        draft.old draft.new tt) }
{
    if one_may_end(&items.items) {
        pass_those(draft, slots, items, true, true)?;
        return Ok(());
    }
    pass_those(draft, slots, items, false, true)?;
    pass_those(draft, slots, items, true, false)?;
    Ok(())
}

/// The arguments that go to registers, or to the frame, where these are wanted.
#[cycle(munching)]
fn pass_those(
    draft: &mut Draft,
    slots: u32,
    items: &Txs,
    registers: bool,
    frame: bool,
) -> Result<(), Memory>
    ensures { OnOk result
        (Writes (munching.arguments slots (λ i. if nat_lt i 4 then registers else frame) 0
        (txs_of items.now.items.items))
        draft.old draft.new tt) }
{
    for (i, x) in items.items.iter().enumerate() {
        let wanted = is_wanted(i, registers, frame);
        pass_where(draft, slots, wanted, i, x)?;
    }
    Ok(())
}

/// Argument i, where it is wanted.
#[cycle(munching)]
fn pass_where(draft: &mut Draft, slots: u32, wanted: bool, i: usize, x: &Tx) -> Result<(), Memory>
    ensures { OnOk result
        (Writes
        (if wanted then munching.passed i (munching.expression slots (plain_tx x.now)) else give tt)
        draft.old draft.new tt) }
{
    if wanted {
        pass(draft, slots, i, x)?;
        return Ok(());
    }
    Ok(())
}

/// An argument of a call: the first four in `$a0` to `$a3`, further ones in the low words of the
/// frame.
#[cycle(munching)]
fn pass(draft: &mut Draft, slots: u32, i: usize, x: &Tx) -> Result<(), Memory>
    ensures { OnOk result
        (Writes (munching.passed i (munching.expression slots (plain_tx x.now)))
        draft.old draft.new tt) }
{
    if i < 4 {
        let to = Opnd::Reg(Reg::new(4 + i as u8));
        expression(draft, slots, x, Some(to))?;
        return Ok(());
    }
    let bytes = low_bytes(i)?;
    let value = expression(draft, slots, x, None)?;
    store_low(draft, bytes, value)?;
    Ok(())
}

/// Whether an argument goes where it is wanted: the first four to registers, others to the frame.
fn is_wanted(i: usize, registers: bool, frame: bool) -> bool
    ensures { result ≡ (if nat_lt i 4 then registers else frame) }
{
    if i < 4 { registers } else { frame }
}

/// Where argument i stands at the low end of the frame of its caller, in bytes.
pub(crate) fn low_bytes(i: usize) -> Result<u32, Memory>
    requires { 3 < i }
    ensures { IfOk result (λ n. n ≡ 4 * (i - 4)) }
{
    if i > MOST_ARGUMENTS {
        return Err(Memory);
    }
    Ok(4 * (i as u32 - 4))
}

/// A service of the machine, with its argument in `$a0`.
#[cycle(munching)]
pub(crate) fn service(
    draft: &mut Draft,
    slots: u32,
    number: u32,
    argument: &Tx,
) -> Result<(), Memory>
    ensures { OnOk result
        (Writes (munching.effect slots (tree.Service number (plain_tx argument.now)))
        draft.old draft.new tt) }
{
    expression(draft, slots, argument, Some(Opnd::Reg(Reg::A0)))?;
    draft.constant(Opnd::Reg(Reg::V0), number)?;
    draft.put(Instr::Service)?;
    Ok(())
}

fn constant(draft: &mut Draft, n: u32, asked: Option<Opnd>) -> Result<Opnd, Memory>
    ensures { IfOk result
        (λ v. Writes (munching.constant_in n asked) draft.old draft.new v) }
{
    match asked {
        Some(to) => draft.constant(to, n),
        None => if n == 0 {
            Ok(Opnd::Reg(Reg::ZERO))
        } else {
            fresh_constant(draft, n)
        },
    }
}

fn fresh_constant(draft: &mut Draft, n: u32) -> Result<Opnd, Memory>
    ensures { IfOk result
        (λ v. Writes (munching.fresh_constant n) draft.old draft.new v) }
{
    let to = draft.fresh()?;
    let value = draft.constant(to, n)?;
    Ok(value)
}

/// The address of a literal.
fn address(draft: &mut Draft, label: Label, asked: Option<Opnd>) -> Result<Opnd, Memory>
    ensures { IfOk result
        (λ v. Writes (munching.address_in label asked) draft.old draft.new v) }
{
    let to = draft.choose(asked)?;
    let target = to;
    let value = draft.define(Instr::Address(target, label), to)?;
    Ok(value)
}

fn frame_address(draft: &mut Draft, asked: Option<Opnd>) -> Result<Opnd, Memory>
    ensures { IfOk result
        (λ v. Writes (munching.frame_address_in asked) draft.old draft.new v) }
{
    let to = draft.choose(asked)?;
    let target = to;
    let value = draft.define(Instr::FrameAddress(target), to)?;
    Ok(value)
}

/// The operand that is asked for gets what a call or a service answers, from `$v0`.
fn answer_in(draft: &mut Draft, asked: Option<Opnd>) -> Result<Opnd, Memory>
    ensures { IfOk result (λ v. Writes (munching.answer_in asked) draft.old draft.new v) }
{
    let to = draft.choose(asked)?;
    let target = to;
    let value = draft.define(Instr::Move(target, Opnd::Reg(Reg::V0)), to)?;
    Ok(value)
}

/// The word at so many bytes of the frame's low end gets an operand.
fn store_low(draft: &mut Draft, bytes: u32, value: Opnd) -> Result<(), Memory>
    ensures { OnOk result (Writes (munching.store_low bytes value) draft.old draft.new tt) }
{
    if bytes < 32768 {
        let stack = Opnd::Reg(Reg::SP);
        return draft.put(Instr::Sw(value, Bits::new(bytes), stack));
    }
    store_far(draft, bytes, value)
}

fn store_far(draft: &mut Draft, bytes: u32, value: Opnd) -> Result<(), Memory>
    ensures { OnOk result (Writes (munching.store_far bytes value) draft.old draft.new tt) }
{
    let place = draft.fresh()?;
    let target = place;
    draft.constant(target, bytes)?;
    let target = place;
    let source = place;
    draft.put(Instr::Addu(target, source, Opnd::Reg(Reg::SP)))?;
    draft.put(Instr::Sw(value, Bits::new(0), place))?;
    Ok(())
}

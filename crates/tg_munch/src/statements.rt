ghost use Rattle.std.specs.Prelude.{◌≡◌, OnOk, option_map};
ghost use Rattle.tg_tree.specs.Tree as tree;
ghost use Rattle.tg_tree.specs.glue.Plain.{plain_linear, plain_tx, plain_ts};
ghost use Rattle.tg_munch.specs.glue.Drafts.{Writes};
ghost use Rattle.tg_munch.specs.mirror.Munching as munching;

use crate::comparing::{branch_on, branch_short, is_turned, short_side, turned};
use crate::drafts::Draft;
use crate::expressions::{base, call, expression, service};
use crate::products::is_in_hi;
use crate::tiling::slot;
use tg_base::{Memory, Temp};
use tg_instr::{Instr, Opnd};
use tg_tree::{Linear, Rel, Ts, Tx};

/// A statement of flat code. For any other nothing is written.
pub(crate) fn statement(draft: &mut Draft, slots: u32, s: &Ts) -> Result<(), Memory>
    ensures { OnOk result
        (Writes (munching.statement slots (plain_ts s.now)) draft.old draft.new tt) }
{
    match s {
        Ts::Move(temp, x) => move_to(draft, slots, *temp, x),
        Ts::Store(address, value) => store(draft, slots, address, value),
        Ts::StoreByte(address, value) => store_byte(draft, slots, address, value),
        Ts::Do(x) => effect(draft, slots, x),
        Ts::If(_, _, _) | Ts::Loop(_) | Ts::Break(_) => Ok(()),
        Ts::Fault(_) | Ts::Seq(_) | Ts::Return(_) => Ok(()),
    }
}

/// A temporary gets an expression.
fn move_to(draft: &mut Draft, slots: u32, temp: Temp, x: &Tx) -> Result<(), Memory>
    ensures { OnOk result
        (Writes (munching.statement slots (tree.Move temp.0 (plain_tx x.now)))
        draft.old draft.new tt) }
{
    expression(draft, slots, x, Some(Opnd::Temp(temp)))?;
    Ok(())
}

/// A word is stored at an address.
fn store(draft: &mut Draft, slots: u32, address: &Tx, value: &Tx) -> Result<(), Memory>
    ensures { OnOk result
        (Writes (munching.statement slots (tree.Store (plain_tx address.now) (plain_tx value.now)))
        draft.old draft.new tt) }
{
    match slot(slots, address) {
        Some(slot) => store_slot(draft, slots, slot, value),
        None => store_word(draft, slots, address, value),
    }
}

fn store_slot(draft: &mut Draft, slots: u32, slot: u32, value: &Tx) -> Result<(), Memory>
    ensures { OnOk result
        (Writes (munching.stored_slot slots slot (plain_tx value.now)) draft.old draft.new tt) }
{
    let value = expression(draft, slots, value, None)?;
    draft.put(Instr::FrameStore(value, slot))?;
    Ok(())
}

fn store_word(draft: &mut Draft, slots: u32, address: &Tx, value: &Tx) -> Result<(), Memory>
    ensures { OnOk result
        (Writes (munching.stored_word slots (plain_tx address.now) (plain_tx value.now))
        draft.old draft.new tt) }
{
    let place = base(draft, slots, address)?;
    let value = expression(draft, slots, value, None)?;
    draft.put(Instr::Sw(value, place.bytes, place.operand))?;
    Ok(())
}

/// The low byte of a word is stored at an address.
fn store_byte(draft: &mut Draft, slots: u32, address: &Tx, value: &Tx) -> Result<(), Memory>
    ensures { OnOk result
        (Writes (munching.stored_byte slots (plain_tx address.now) (plain_tx value.now))
        draft.old draft.new tt) }
{
    let place = base(draft, slots, address)?;
    let value = expression(draft, slots, value, None)?;
    draft.put(Instr::Sb(value, place.bytes, place.operand))?;
    Ok(())
}

/// An expression for what it does: what a call or a service answers is let go.
fn effect(draft: &mut Draft, slots: u32, x: &Tx) -> Result<(), Memory>
    ensures { OnOk result
        (Writes (munching.effect slots (plain_tx x.now)) draft.old draft.new tt) }
{
    match x {
        Tx::Call(label, items) => call(draft, slots, *label, items),
        Tx::Service(number, argument) => service(draft, slots, *number, argument),
        Tx::Const(_) | Tx::Address(_) | Tx::Temp(_) | Tx::FrameAddress => value(draft, slots, x),
        Tx::Binary(_, _, _) | Tx::Load(_) | Tx::LoadByte(_) => value(draft, slots, x),
        Tx::After(_, _) => value(draft, slots, x),
    }
}

/// An expression that is neither.
fn value(draft: &mut Draft, slots: u32, x: &Tx) -> Result<(), Memory>
    requires { munching.effect slots (plain_tx x.now) ≡ munching.valued slots (plain_tx x.now) }
    ensures { OnOk result
        (Writes (munching.effect slots (plain_tx x.now)) draft.old draft.new tt) }
{
    expression(draft, slots, x, None)?;
    Ok(())
}

/// A branch on a comparison, after an element or at the start of the code.
pub(crate) fn branch_behind(
    draft: &mut Draft,
    slots: u32,
    before: Option<&Linear>,
    rel: Rel,
    left: &Tx,
    right: &Tx,
    mark: u32,
) -> Result<(), Memory>
    ensures { OnOk result
        (Writes (munching.branch_behind slots (option_map (λ e. plain_linear e.now) before.entry)
        rel (plain_tx left.now) (plain_tx right.now) mark) draft.old draft.new tt) }
{
    if is_in_hi(before, left) {
        compare_in_hi(draft, slots, rel, right, mark)
    } else if is_turned(rel, left, right) {
        compare(draft, slots, turned(rel), right, left, mark)
    } else {
        compare(draft, slots, rel, left, right, mark)
    }
}

fn compare(
    draft: &mut Draft,
    slots: u32,
    rel: Rel,
    left: &Tx,
    right: &Tx,
    mark: u32,
) -> Result<(), Memory>
    ensures { OnOk result
        (Writes (munching.compared slots rel (plain_tx left.now) (plain_tx right.now) mark)
        draft.old draft.new tt) }
{
    let first = expression(draft, slots, left, None)?;
    compare_with(draft, slots, rel, first, right, mark)?;
    Ok(())
}

/// A branch on a comparison whose left side is in HI.
fn compare_in_hi(
    draft: &mut Draft,
    slots: u32,
    rel: Rel,
    right: &Tx,
    mark: u32,
) -> Result<(), Memory>
    ensures { OnOk result
        (Writes (munching.compared_in_hi slots rel (plain_tx right.now) mark)
        draft.old draft.new tt) }
{
    let first = draft.fresh()?;
    let target = first;
    draft.put(Instr::Mfhi(target))?;
    compare_with(draft, slots, rel, first, right, mark)?;
    Ok(())
}

fn compare_with(
    draft: &mut Draft,
    slots: u32,
    rel: Rel,
    first: Opnd,
    right: &Tx,
    mark: u32,
) -> Result<(), Memory>
    ensures { OnOk result
        (Writes (munching.compared_with slots rel first (plain_tx right.now) mark)
        draft.old draft.new tt) }
{
    match short_side(rel, right) {
        Some(short) => branch_short(draft, rel, short, first, mark),
        None => {
            let second = expression(draft, slots, right, None)?;
            branch_on(draft, rel, first, second, mark)?;
            Ok(())
        }
    }
}

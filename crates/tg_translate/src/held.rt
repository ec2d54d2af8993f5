// A value that is used several times stands in a temporary: an array and its index, a record, a
// product's factors. A variable's own temporary serves where nothing assigns it until its last
// use.

ghost use Rattle.std.specs.Prelude.{◌≡◌, IfOk};
ghost use Rattle.tg_tree.specs.glue.Plain.{plain_tx};
ghost use Rattle.tg_tree.specs.glue.Lists.{stms_of};
ghost use Rattle.tg_tree.specs.Tree as tree;
ghost use Rattle.tg_translate.specs.mirror.States.{drawn, state_of};
ghost use Rattle.tg_translate.specs.mirror.Constructs as constructs;
ghost use Rattle.tg_translate.specs.mirror.Constructs.{plain_storage, plain_held};

use crate::operands::{Operand, hold};
use crate::places::Storage;
use crate::states::TranslationState;
use std::alloc::Global;
use tg_base::{Memory, Temp};
use tg_tree::{Bin, Ts, Tx, binary, load};

/// An address that is used twice, each time as a tree of its own: so many bytes after or before
/// the frame address or an operand, or an operand.
#[derive(Clone, Copy)]
pub enum HeldAddress {
    InOwnFrame(Bin, u32),
    Beside(Operand, Bin, u32),
    At(Operand),
}

/// A place that is read first and then assigned.
#[derive(Drop)]
pub(crate) enum HeldPlace {
    InTemp(Temp),
    AtAddress(Vec<Ts>, HeldAddress),
}

/// The address as a tree.
fn held_address(alloc: Global, address: HeldAddress) -> Result<Tx, Memory>
    ensures { IfOk result (λ x. plain_tx x ≡ constructs.held_address address) }
{
    match address {
        HeldAddress::InOwnFrame(op, bytes) => {
            Ok(binary(alloc, op, Tx::FrameAddress, Tx::Const(bytes))?)
        }
        HeldAddress::Beside(base, op, bytes) => {
            Ok(binary(alloc, op, base.tree(), Tx::Const(bytes))?)
        }
        HeldAddress::At(base) => Ok(base.tree()),
    }
}

/// What an address is made of is kept.
fn hold_address(
    state: &mut TranslationState,
    before: &mut Vec<Ts>,
    address: Tx,
) -> Result<HeldAddress, Memory>
    ensures { IfOk result (λ a.
        constructs.hold_address (stms_of before.old.items) (plain_tx address)
        (state_of state.old) ≡
        drawn (record { before = stms_of before.new.items; address = a })
        (state_of state.new)) }
{
    match address {
        Tx::Binary(op, left, right) => {
            let left = Box::into_inner(left);
            let right = Box::into_inner(right);
            Ok(hold_sides(state, before, op, left, right)?)
        }
        address => Ok(HeldAddress::At(hold(state, true, before, address)?)),
    }
}

fn hold_sides(
    state: &mut TranslationState,
    before: &mut Vec<Ts>,
    op: Bin,
    left: Tx,
    right: Tx,
) -> Result<HeldAddress, Memory>
    ensures { IfOk result (λ a.
        constructs.hold_address (stms_of before.old.items)
        (tree.Binary op (plain_tx left) (plain_tx right)) (state_of state.old) ≡
        drawn (record { before = stms_of before.new.items; address = a })
        (state_of state.new)) }
{
    match (left, right) {
        (Tx::FrameAddress, Tx::Const(bytes)) => Ok(HeldAddress::InOwnFrame(op, bytes)),
        (left, Tx::Const(bytes)) => {
            Ok(HeldAddress::Beside(hold(state, true, before, left)?, op, bytes))
        }
        (left, right) => {
            let whole = binary(state.alloc, op, left, right)?;
            Ok(HeldAddress::At(hold(state, true, before, whole)?))
        }
    }
}

/// A place is kept, to be read first and then assigned.
pub(crate) fn hold_place(state: &mut TranslationState, place: Storage) -> Result<HeldPlace, Memory>
    ensures { IfOk result (λ h.
        constructs.hold_place (plain_storage place) (state_of state.old) ≡
        drawn (plain_held h) (state_of state.new)) }
{
    match place {
        Storage::InTemp(temp) => Ok(HeldPlace::InTemp(temp)),
        Storage::AtAddress(before, address) => {
            let mut done = before;
            let address = hold_address(state, &mut done, address)?;
            Ok(HeldPlace::AtAddress(done, address))
        }
    }
}

/// The value of a place that is kept, after the checks that were made.
pub(crate) fn read_held(alloc: Global, place: &HeldPlace) -> Result<Tx, Memory>
    ensures { IfOk result (λ x. plain_tx x ≡ constructs.read_held (plain_held place.now)) }
{
    match place {
        HeldPlace::InTemp(temp) => Ok(Tx::Temp(*temp)),
        HeldPlace::AtAddress(_, address) => Ok(load(alloc, held_address(alloc, *address)?)?),
    }
}

/// The place that is kept, to be assigned.
pub(crate) fn place_held(alloc: Global, place: HeldPlace) -> Result<Storage, Memory>
    ensures { IfOk result (λ p. plain_storage p ≡ constructs.place_held (plain_held place)) }
{
    match place {
        HeldPlace::InTemp(temp) => Ok(Storage::InTemp(temp)),
        HeldPlace::AtAddress(before, address) => {
            Ok(Storage::AtAddress(before, held_address(alloc, address)?))
        }
    }
}

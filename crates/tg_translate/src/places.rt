// Names are known by the bytes of their declarations, so homes and labels are never taken back.
// What isn't declared, of which an accepted program has nothing, reads 0.

ghost use Rattle.std.specs.Prelude.{◌≡◌, IfOk};
ghost use Rattle.std.specs.FinSet as set;
ghost use Rattle.tg_tree.specs.glue.Plain.{plain_tx, plain_ts};
ghost use Rattle.tg_tree.specs.glue.Lists.{stms_of};
ghost use Rattle.tg_translate.specs.mirror.States.{drawn, state_of};
ghost use Rattle.tg_translate.specs.mirror.Wants.{plain_made};
ghost use Rattle.tg_translate.specs.mirror.Constructs as constructs;
ghost use Rattle.tg_translate.specs.mirror.Constructs.{plain_storage};
ghost use Rattle.tg_translate.specs.mirror.Scopes as scopes;
ghost use Rattle.tg_translate.specs.mirror.Scopes.{findings_of};

use crate::constructs::{bytes_of, element, frame_out, index_check, nil_check, plus, slot_address};
use crate::findings::Findings;
use crate::homes::{Home, Within};
use crate::operands::{Operand, hold};
use crate::states::TranslationState;
use crate::wants::{Made, Want, is_none, push, put_in, value_of};
use std::alloc::Global;
use tg_base::{Memory, Temp};
use tg_frame::{Access, link_path};
use tg_tree::{Ts, Tx, after, load, sequence};
use tg_typecheck::Means;

/// Where an l-value's value stands: in a temporary, or at an address after statements that check
/// it.
#[derive(Drop)]
pub(crate) enum Storage {
    InTemp(Temp),
    AtAddress(Vec<Ts>, Tx),
}

/// A home in the activation with this frame address.
fn place_in(alloc: Global, frame: Tx, access: Access) -> Result<Storage, Memory>
    ensures { IfOk result (λ p. plain_storage p ≡ constructs.place_in (plain_tx frame) access) }
{
    match access {
        Access::InTemp(temp) => Ok(Storage::InTemp(temp)),
        Access::InFrame(slot) => {
            let address = slot_address(alloc, frame, slot)?;
            Ok(Storage::AtAddress(Vec::new(alloc), address))
        }
    }
}

/// The frame address of the activation of a level that is current here.
pub(crate) fn frame_at(alloc: Global, within: Within, level: u32) -> Result<Tx, Memory>
    ensures { IfOk result (λ x. plain_tx x ≡ scopes.frame_at within level) }
{
    let hops = if level <= within.level {
        link_path(within.level, level)
    } else {
        0
    };
    Ok(frame_out(alloc, within.link_in_slot, hops)?)
}

fn home_place(alloc: Global, within: Within, home: Option<Home>) -> Result<Storage, Memory>
    ensures { IfOk result (λ p. plain_storage p ≡ scopes.home_place within home) }
{
    match home {
        Some(home) => {
            let frame = frame_at(alloc, within, home.level)?;
            Ok(place_in(alloc, frame, home.access)?)
        }
        None => Ok(nowhere(alloc)),
    }
}

/// The place of what isn't declared, of which an accepted program has nothing.
fn nowhere(alloc: Global) -> Storage
    ensures { plain_storage result ≡ scopes.nowhere }
{
    Storage::AtAddress(Vec::new(alloc), Tx::Const(0))
}

/// The place of a variable, by what its use means.
pub(crate) fn variable_place(
    state: &TranslationState,
    within: Within,
    meaning: Option<Means>,
) -> Result<Storage, Memory>
    ensures { IfOk result (λ p. scopes.variable_place within meaning (state_of state.now) ≡
        drawn (plain_storage p) (state_of state.now)) }
{
    match meaning {
        Some(Means::Variable(at)) => {
            let home = state.homes.get(at).copied();
            Ok(home_place(state.alloc, within, home)?)
        }
        _ => Ok(nowhere(state.alloc)),
    }
}

/// A new variable of the function at work.
#[inline(never)]
pub(crate) fn declare_variable(
    findings: &Findings,
    state: &mut TranslationState,
    level: u32,
    at: u32,
) -> Result<Access, Memory>
    ensures { IfOk result (λ a.
        scopes.declare_variable ((findings_of findings.now).escapes at) level at
        (state_of state.old) ≡ drawn a (state_of state.new)) }
{
    let access = state.local(findings.escapes(at))?;
    state.homes.push(at, Home { level, access })?;
    Ok(access)
}

/// A home in the activation at work.
pub(crate) fn own_place(alloc: Global, access: Access) -> Result<Storage, Memory>
    ensures { IfOk result (λ p. plain_storage p ≡ constructs.own_place access) }
{
    Ok(place_in(alloc, Tx::FrameAddress, access)?)
}

/// The value that stands in a place.
pub(crate) fn read(alloc: Global, place: Storage) -> Result<Tx, Memory>
    ensures { IfOk result (λ x. plain_tx x ≡ constructs.read (plain_storage place)) }
{
    match place {
        Storage::InTemp(temp) => Ok(Tx::Temp(temp)),
        Storage::AtAddress(before, address) => Ok(after_all(alloc, before, load(alloc, address)?)?),
    }
}

fn after_all(alloc: Global, before: Vec<Ts>, value: Tx) -> Result<Tx, Memory>
    ensures { IfOk result (λ x. plain_tx x ≡
        constructs.after_all (stms_of before.items) (plain_tx value)) }
{
    if is_none(&before) {
        return Ok(value);
    }
    Ok(after(alloc, sequence(before), value)?)
}

fn store_at(before: Vec<Ts>, address: Tx, value: Tx) -> Result<Ts, Memory>
    ensures { IfOk result (λ s. plain_ts s ≡
        constructs.store_at (stms_of before.items) (plain_tx address) (plain_tx value)) }
{
    let store = Ts::Store(address, value);
    if is_none(&before) {
        return Ok(store);
    }
    let mut done = before;
    push(&mut done, store)?;
    Ok(sequence(done))
}

/// A value is put into a place.
pub(crate) fn assign_value(place: Storage, value: Tx) -> Result<Ts, Memory>
    ensures { IfOk result (λ s. plain_ts s ≡
        constructs.assign_value (plain_storage place) (plain_tx value)) }
{
    match place {
        Storage::InTemp(temp) => Ok(Ts::Move(temp, value)),
        Storage::AtAddress(before, address) => Ok(store_at(before, address, value)?),
    }
}

/// What was made is put into a place; a statement has put it there already where the place is a
/// temporary.
pub(crate) fn assign(state: &mut TranslationState, place: Storage, made: Made) -> Result<Ts, Memory>
    ensures { IfOk result (λ s.
        constructs.assign (plain_storage place) (plain_made made) (state_of state.old) ≡
        drawn (plain_ts s) (state_of state.new)) }
{
    match place {
        Storage::InTemp(temp) => Ok(put_in(state.alloc, temp, made)?),
        Storage::AtAddress(before, address) => {
            let value = value_of(state, made)?;
            Ok(store_at(before, address, value)?)
        }
    }
}

/// What a place wants of the value that is put into it.
pub(crate) fn want_for(place: &Storage) -> Want
    ensures { result ≡ constructs.want_for (plain_storage place.now) }
{
    match place {
        Storage::InTemp(temp) => Want::Into(*temp),
        Storage::AtAddress(_, _) => Want::Value,
    }
}

/// What a variable of the function at work wants of the value that it becomes.
pub(crate) fn home_want(home: Access) -> Want
    ensures { result ≡ constructs.want_for (constructs.own_place home) }
{
    match home {
        Access::InTemp(temp) => Want::Into(temp),
        Access::InFrame(_) => Want::Value,
    }
}

/// The number of a field, by what its selection means.
pub(crate) fn field_number(meaning: Option<Means>) -> u32
    ensures { result ≡ scopes.field_number meaning }
{
    match meaning {
        Some(Means::Field(number)) => number,
        _ => 0,
    }
}

/// The place of a field of a record: field k is the word 4·k bytes after its address.
pub(crate) fn field_place(
    state: &mut TranslationState,
    field: u32,
    record_: Tx,
) -> Result<Storage, Memory>
    ensures { IfOk result (λ p.
        constructs.field_place field (plain_tx record_) (state_of state.old) ≡
        drawn (plain_storage p) (state_of state.new)) }
{
    let mut before = Vec::new(state.alloc);
    let held = hold(state, true, &mut before, record_)?;
    Ok(field_of(state.alloc, field, before, held)?)
}

fn field_of(
    alloc: Global,
    field: u32,
    mut before: Vec<Ts>,
    held: Operand,
) -> Result<Storage, Memory>
    ensures { IfOk result (λ p. plain_storage p ≡
        constructs.field_of field (stms_of before.items) (constructs.operand held)) }
{
    push(&mut before, nil_check(alloc, held.tree())?)?;
    let address = plus(alloc, held.tree(), bytes_of(field)?)?;
    Ok(Storage::AtAddress(before, address))
}

/// The place of an element of an array. The array's temporary may be used itself where the index
/// assigns nothing, which `direct` says.
pub(crate) fn element_place(
    state: &mut TranslationState,
    direct: bool,
    array: Tx,
    index: Tx,
) -> Result<Storage, Memory>
    ensures { IfOk result (λ p.
        constructs.element_place direct (plain_tx array) (plain_tx index) (state_of state.old) ≡
        drawn (plain_storage p) (state_of state.new)) }
{
    let mut before = Vec::new(state.alloc);
    let array = hold(state, direct, &mut before, array)?;
    let index = hold(state, true, &mut before, index)?;
    Ok(element_of(state.alloc, before, array, index)?)
}

fn element_of(
    alloc: Global,
    mut before: Vec<Ts>,
    array: Operand,
    index: Operand,
) -> Result<Storage, Memory>
    ensures { IfOk result (λ p. plain_storage p ≡
        constructs.element_of (stms_of before.items) (constructs.operand array)
        (constructs.operand index)) }
{
    push(&mut before, index_check(alloc, array.tree(), index.tree())?)?;
    let address = element(alloc, array.tree(), index.tree())?;
    Ok(Storage::AtAddress(before, address))
}

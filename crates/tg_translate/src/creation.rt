ghost use Rattle.std.specs.Prelude.{◌≡◌, IfOk, OnOk, length};
ghost use Rattle.tg_tree.specs.glue.Plain.{plain_tx, plain_ts};
ghost use Rattle.tg_tree.specs.glue.Lists.{stms_of};
ghost use Rattle.tg_translate.specs.mirror.States.{drawn, state_of};
ghost use Rattle.tg_translate.specs.mirror.Wants.{plain_made};
ghost use Rattle.tg_translate.specs.mirror.Constructs as constructs;

use crate::constructs::{bytes_of, plus};
use crate::operands::Operand;
use crate::states::{TranslationState, next};
use crate::wants::{Made, push, value_behind};
use std::alloc::Global;
use tg_base::{Memory, Temp};
use tg_tree::{Ts, Tx, service};

/// The service of the machine that hands out bytes of the heap.
const TAKE: u32 = 9;

/// The bytes of a record of so many fields: 4 for each, and 4 at least.
fn record_bytes(fields: usize) -> Result<u32, Memory>
    ensures { IfOk result (λ n. n ≡ constructs.record_bytes fields) }
{
    let fields = u32::try_from(fields).map_err(|_| Memory)?;
    Ok(bytes_of(fields)?.max(4))
}

/// A record whose fields' values are kept.
pub(crate) fn make_record(
    state: &mut TranslationState,
    before: Vec<Ts>,
    operands: &[Operand],
) -> Result<Made, Memory>
    ensures { IfOk result (λ m.
        constructs.make_record (record { before = stms_of before.items; operands = operands.now })
        (state_of state.old) ≡ drawn (plain_made m) (state_of state.new)) }
{
    let to = state.fresh()?;
    Ok(record_of(state.alloc, to, before, operands)?)
}

fn record_of(
    alloc: Global,
    to: Temp,
    mut done: Vec<Ts>,
    operands: &[Operand],
) -> Result<Made, Memory>
    ensures { IfOk result (λ m. plain_made m ≡
        constructs.record_of to.0
        (record { before = stms_of done.items; operands = operands.now })) }
{
    let made = space_for_record(alloc, operands.len())?;
    push(&mut done, Ts::Move(to, made))?;
    store_fields(alloc, &mut done, to, operands)?;
    Ok(value_behind(alloc, done, Tx::Temp(to))?)
}

/// The heap's service is asked for the bytes of a record.
fn space_for_record(alloc: Global, fields: usize) -> Result<Tx, Memory>
    ensures { IfOk result (λ x. plain_tx x ≡ constructs.space_for_record fields) }
{
    let bytes = Tx::Const(record_bytes(fields)?);
    Ok(service(alloc, TAKE, bytes)?)
}

/// The fields are stored, one after another.
fn store_fields(
    alloc: Global,
    done: &mut Vec<Ts>,
    to: Temp,
    operands: &[Operand],
) -> Result<(), Memory>
    ensures { OnOk result (stms_of done.new.items ≡
        constructs.store_fields (stms_of done.old.items) to.0 0 operands.now) }
{
    let mut field = 0;
    for operand in operands {
        push(done, store_field(alloc, to, field, *operand)?)?;
        field = next(field)?;
    }
    Ok(())
}

fn store_field(alloc: Global, to: Temp, field: u32, operand: Operand) -> Result<Ts, Memory>
    ensures { IfOk result (λ s. plain_ts s ≡
        constructs.store_field to.0 field operand) }
{
    let address = plus(alloc, Tx::Temp(to), bytes_of(field)?)?;
    Ok(Ts::Store(address, operand.tree()))
}

ghost use Rattle.std.specs.Prelude.{◌≡◌, ◌<◌, IfOk, OnOk};
ghost use Rattle.tg_tree.specs.glue.Plain.{plain_tx, plain_cond, plain_ts};
ghost use Rattle.tg_tree.specs.glue.Lists.{txs_of, stms_of};
ghost use Rattle.tg_fold.specs.Copies as copies;

use crate::reading::CopyOf;
use std::alloc::Global;
use std::mem::replace;
use tg_base::{Memory, Temp};
use tg_tree::{Cond, Stms, Ts, Tx, Txs};

/// How much deeper a part may be nested.
pub(crate) fn descend(height: u32) -> Result<u32, Memory>
    ensures { IfOk result (λ lower. lower < height) }
{
    if height > 0 {
        Ok(height - 1)
    } else {
        Err(Memory)
    }
}

fn instead(copy: CopyOf, temp: Temp) -> Temp
    ensures { result.0 ≡ copies.instead copy.to.0 copy.from.0 temp.0 }
{
    if temp.0 == copy.to.0 { copy.from } else { temp }
}

/// No arguments: what stands in a call while its own are changed.
pub(crate) fn no_values(alloc: Global) -> Txs {
    Txs {
        items: Vec::new(alloc),
    }
}

/// No statements: what stands in a sequence while its own are changed.
pub(crate) fn no_statements(alloc: Global) -> Stms {
    Stms {
        items: Vec::new(alloc),
    }
}

#[cycle(renaming)]
fn rename_value(alloc: Global, copy: CopyOf, value: &mut Tx, height: u32) -> Result<(), Memory>
    ensures { OnOk result (plain_tx value.new
        ≡ copies.renamed_tx copy.to.0 copy.from.0 (plain_tx value.old)) }
{
    let lower = descend(height)?;
    match value {
        Tx::Const(_) | Tx::Address(_) | Tx::FrameAddress => Ok(()),
        Tx::Temp(temp) => {
            *temp = instead(copy, *temp);
            Ok(())
        }
        Tx::Binary(_, x, y) => {
            rename_value(alloc, copy, x, lower)?;
            Ok(rename_value(alloc, copy, y, lower)?)
        }
        Tx::Load(x) => Ok(rename_value(alloc, copy, x, lower)?),
        Tx::LoadByte(x) => Ok(rename_value(alloc, copy, x, lower)?),
        Tx::Service(_, x) => Ok(rename_value(alloc, copy, x, lower)?),
        Tx::Call(label, xs) => {
            let label = *label;
            let mut renamed = replace(xs, no_values(alloc));
            rename_values(alloc, copy, &mut renamed, lower)?;
            *value = Tx::Call(label, renamed);
            Ok(())
        }
        Tx::After(first, x) => {
            rename(alloc, copy, first, lower)?;
            Ok(rename_value(alloc, copy, x, lower)?)
        }
    }
}

#[cycle(renaming)]
fn rename_values(alloc: Global, copy: CopyOf, values: &mut Txs, height: u32) -> Result<(), Memory>
    ensures { OnOk result (txs_of values.new.items.items
        ≡ copies.renamed_txs copy.to.0 copy.from.0 (txs_of values.old.items.items)) }
{
    let lower = descend(height)?;
    for at in 0..values.items.len() {
        rename_value(alloc, copy, &mut values.items[at], lower)?;
    }
    Ok(())
}

#[cycle(renaming)]
fn rename_test(alloc: Global, copy: CopyOf, test: &mut Cond, height: u32) -> Result<(), Memory>
    ensures { OnOk result (plain_cond test.new
        ≡ copies.renamed_cond copy.to.0 copy.from.0 (plain_cond test.old)) }
{
    let lower = descend(height)?;
    match test {
        Cond::Compare(_, x, y) => {
            rename_value(alloc, copy, x, lower)?;
            Ok(rename_value(alloc, copy, y, lower)?)
        }
        Cond::Not(inner) => Ok(rename_test(alloc, copy, inner, lower)?),
        Cond::Both(left, right) => {
            rename_test(alloc, copy, left, lower)?;
            Ok(rename_test(alloc, copy, right, lower)?)
        }
        Cond::Either(left, right) => {
            rename_test(alloc, copy, left, lower)?;
            Ok(rename_test(alloc, copy, right, lower)?)
        }
    }
}

/// Makes a statement read the temporary which was copied from wherever it read the other one.
#[cycle(renaming)]
pub(crate) fn rename(
    alloc: Global,
    copy: CopyOf,
    statement: &mut Ts,
    height: u32,
) -> Result<(), Memory>
    ensures { OnOk result (plain_ts statement.new
        ≡ copies.renamed copy.to.0 copy.from.0 (plain_ts statement.old)) }
{
    let lower = descend(height)?;
    match statement {
        Ts::Move(_, x) => Ok(rename_value(alloc, copy, x, lower)?),
        Ts::Do(x) => Ok(rename_value(alloc, copy, x, lower)?),
        Ts::Store(x, y) => {
            rename_value(alloc, copy, x, lower)?;
            Ok(rename_value(alloc, copy, y, lower)?)
        }
        Ts::StoreByte(x, y) => {
            rename_value(alloc, copy, x, lower)?;
            Ok(rename_value(alloc, copy, y, lower)?)
        }
        Ts::If(test, this, other) => {
            rename_test(alloc, copy, test, lower)?;
            rename(alloc, copy, this, lower)?;
            Ok(rename(alloc, copy, other, lower)?)
        }
        Ts::Loop(turn) => Ok(rename(alloc, copy, turn, lower)?),
        Ts::Break(_) | Ts::Fault(_) => Ok(()),
        Ts::Seq(all) => {
            let mut renamed = replace(all, no_statements(alloc));
            rename_all(alloc, copy, &mut renamed, lower)?;
            *statement = Ts::Seq(renamed);
            Ok(())
        }
        Ts::Return(x) => Ok(rename_value(alloc, copy, x, lower)?),
    }
}

#[cycle(renaming)]
fn rename_all(alloc: Global, copy: CopyOf, statements: &mut Stms, height: u32) -> Result<(), Memory>
    ensures { OnOk result (stms_of statements.new.items.items
        ≡ copies.renamed_stms copy.to.0 copy.from.0 (stms_of statements.old.items.items)) }
{
    let lower = descend(height)?;
    for at in 0..statements.items.len() {
        rename(alloc, copy, &mut statements.items[at], lower)?;
    }
    Ok(())
}

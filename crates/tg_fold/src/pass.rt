// An empty sequence and an expression after one stay: making statements canonical drops them.
//
// Trees are folded in place, by a `&mut`, since a function clears its locals when it is entered:
// by value a node took some 550 instructions. A list is taken out of its node while it is
// folded, and the node is then put back whole.

ghost use Rattle.std.specs.Prelude.{◌≡◌, None, IfOk, OnOk};
ghost use Rattle.tg_tree.specs.glue.Plain.{plain_tx, plain_cond, plain_ts};
ghost use Rattle.tg_tree.specs.glue.Lists.{txs_of, stms_of};
ghost use Rattle.tg_fold.specs.glue.Views.{plain_tested};
ghost use Rattle.tg_fold.specs.mirror.Folding as folding;

use crate::constants::operated;
use crate::passing::pass_on;
use crate::reading::copy;
use crate::renaming::{descend, no_statements, no_values};
use crate::tests::{both_of, chosen, compared, either_of, opposite_of, settle};
use std::alloc::Global;
use std::mem::replace;
use tg_base::Memory;
use tg_tree::{Cond, Stms, Ts, Tx, Txs};

/// So deep trees may be nested, counting each walk into a part as one.
const MOST_NESTED: u32 = 100_000;

#[cycle(folding)]
fn fold_value(alloc: Global, value: &mut Tx, height: u32) -> Result<(), Memory>
    ensures { OnOk result (plain_tx value.new ≡ folding.folded_tx (plain_tx value.old)) }
{
    let lower = descend(height)?;
    match value {
        Tx::Const(_) | Tx::Address(_) | Tx::Temp(_) | Tx::FrameAddress => Ok(()),
        Tx::Binary(op, x, y) => {
            fold_value(alloc, x, lower)?;
            fold_value(alloc, y, lower)?;
            match operated(*op, x, y) {
                Some(word) => {
                    *value = Tx::Const(word);
                    Ok(())
                }
                None => Ok(()),
            }
        }
        Tx::Load(x) => Ok(fold_value(alloc, x, lower)?),
        Tx::LoadByte(x) => Ok(fold_value(alloc, x, lower)?),
        Tx::Service(_, x) => Ok(fold_value(alloc, x, lower)?),
        Tx::Call(label, xs) => {
            let label = *label;
            let mut folded = replace(xs, no_values(alloc));
            fold_values(alloc, &mut folded, lower)?;
            *value = Tx::Call(label, folded);
            Ok(())
        }
        Tx::After(first, x) => {
            fold_statement(alloc, first, lower)?;
            Ok(fold_value(alloc, x, lower)?)
        }
    }
}

#[cycle(folding)]
fn fold_values(alloc: Global, values: &mut Txs, height: u32) -> Result<(), Memory>
    ensures { OnOk result (txs_of values.new.items.items
        ≡ folding.folded_txs (txs_of values.old.items.items)) }
{
    let lower = descend(height)?;
    for at in 0..values.items.len() {
        fold_value(alloc, &mut values.items[at], lower)?;
    }
    Ok(())
}

// Folds a condition, and tells what is known of it then.
#[cycle(folding)]
fn fold_test(alloc: Global, test: &mut Cond, height: u32) -> Result<Option<bool>, Memory>
    ensures { IfOk result (λ known.
        plain_tested known test.new ≡ folding.tested (plain_cond test.old)) }
{
    let lower = descend(height)?;
    match test {
        Cond::Compare(rel, x, y) => {
            fold_value(alloc, x, lower)?;
            fold_value(alloc, y, lower)?;
            Ok(compared(*rel, x, y))
        }
        Cond::Not(inner) => {
            let known = fold_test(alloc, inner, lower)?;
            Ok(opposite_of(known))
        }
        Cond::Both(left, right) => {
            let known_left = fold_test(alloc, left, lower)?;
            let known_right = fold_test(alloc, right, lower)?;
            let joined = both_of(alloc, left, known_left, right, known_right)?;
            Ok(settle(test, joined))
        }
        Cond::Either(left, right) => {
            let known_left = fold_test(alloc, left, lower)?;
            let known_right = fold_test(alloc, right, lower)?;
            let joined = either_of(alloc, left, known_left, right, known_right)?;
            Ok(settle(test, joined))
        }
    }
}

#[cycle(folding)]
fn fold_statement(alloc: Global, statement: &mut Ts, height: u32) -> Result<(), Memory>
    ensures { OnOk result (plain_ts statement.new ≡ folding.folded (plain_ts statement.old)) }
{
    let lower = descend(height)?;
    match statement {
        Ts::Move(_, x) => Ok(fold_value(alloc, x, lower)?),
        Ts::Do(x) => Ok(fold_value(alloc, x, lower)?),
        Ts::Store(x, y) => {
            fold_value(alloc, x, lower)?;
            Ok(fold_value(alloc, y, lower)?)
        }
        Ts::StoreByte(x, y) => {
            fold_value(alloc, x, lower)?;
            Ok(fold_value(alloc, y, lower)?)
        }
        Ts::If(test, this, other) => {
            let known = fold_test(alloc, test, lower)?;
            fold_statement(alloc, this, lower)?;
            fold_statement(alloc, other, lower)?;
            match chosen(known, this, other) {
                Some(one) => {
                    *statement = one;
                    Ok(())
                }
                None => Ok(()),
            }
        }
        Ts::Loop(turn) => Ok(fold_statement(alloc, turn, lower)?),
        Ts::Break(_) | Ts::Fault(_) => Ok(()),
        Ts::Seq(all) => {
            let mut folded = replace(all, no_statements(alloc));
            fold_each(alloc, &mut folded, lower)?;
            *statement = Ts::Seq(folded);
            Ok(())
        }
        Ts::Return(x) => Ok(fold_value(alloc, x, lower)?),
    }
}

// Each statement takes the copy before it when it is folded.
#[cycle(folding)]
fn fold_each(alloc: Global, statements: &mut Stms, height: u32) -> Result<(), Memory>
    ensures { OnOk result (stms_of statements.new.items.items
        ≡ folding.passed_on None (folding.each_folded (stms_of statements.old.items.items))) }
{
    let lower = descend(height)?;
    let mut before = None;
    for at in 0..statements.items.len() {
        let statement = &mut statements.items[at];
        fold_statement(alloc, statement, lower)?;
        pass_on(alloc, before, statement, lower)?;
        before = copy(statement);
    }
    Ok(())
}

/// A function's body, folded: operators on constants are constants, conditions that are known
/// choose, and copies go on to the next statement. It is out of memory also where trees are nested
/// too deep.
pub fn fold(alloc: Global, mut body: Ts) -> Result<Ts, Memory>
    ensures { IfOk result (λ s. plain_ts s ≡ folding.folded (plain_ts body)) }
{
    fold_statement(alloc, &mut body, MOST_NESTED)?;
    Ok(body)
}

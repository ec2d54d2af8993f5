// A function whose made tree has no loop returns from the arms of its choices. With a loop it
// returns once, at its end: else the copies of the saved registers would gain uses, and others
// be spilled first.

ghost use Rattle.std.specs.Prelude.{◌≡◌, ◌||◌, IfOk};
ghost use Rattle.tg_tree.specs.glue.Plain.{plain_tx, plain_cond, plain_ts};
ghost use Rattle.tg_tree.specs.glue.Lists.{txs_of, stms_of};
ghost use Rattle.tg_translate.specs.mirror.Returning as returning;

use std::alloc::Global;
use tg_base::{Memory, Temp};
use tg_tree::{Cond, Stms, Ts, Tx, Txs, sequence, when};

/// Whether a loop stands anywhere in a statement.
#[cycle(loops)]
fn has_loop(statement: &Ts) -> bool
    ensures { result ≡ returning.has_loop (plain_ts statement.now) }
{
    match statement {
        Ts::Move(_, x) | Ts::Do(x) | Ts::Return(x) => value_has_loop(x),
        Ts::Store(x, y) | Ts::StoreByte(x, y) => value_has_loop(x) || value_has_loop(y),
        Ts::If(test, this, other) => test_has_loop(test) || (has_loop(this) || has_loop(other)),
        Ts::Loop(_) => true,
        Ts::Break(_) | Ts::Fault(_) => false,
        Ts::Seq(all) => any_has_loop(all),
    }
}

#[cycle(loops)]
fn any_has_loop(statements: &Stms) -> bool
    ensures { result ≡ returning.any_has_loop (stms_of statements.now.items.items) }
{
    let mut any = false;
    for statement in &statements.items {
        let one = has_loop(statement);
        any = one_of(any, one);
    }
    any
}

#[cycle(loops)]
fn value_has_loop(value: &Tx) -> bool
    ensures { result ≡ returning.value_has_loop (plain_tx value.now) }
{
    match value {
        Tx::Const(_) | Tx::Address(_) | Tx::Temp(_) | Tx::FrameAddress => false,
        Tx::Binary(_, x, y) => value_has_loop(x) || value_has_loop(y),
        Tx::Load(x) | Tx::LoadByte(x) | Tx::Service(_, x) => value_has_loop(x),
        Tx::Call(_, all) => any_value_has_loop(all),
        Tx::After(first, x) => has_loop(first) || value_has_loop(x),
    }
}

#[cycle(loops)]
fn any_value_has_loop(values: &Txs) -> bool
    ensures { result ≡ returning.any_value_has_loop (txs_of values.now.items.items) }
{
    let mut any = false;
    for value in &values.items {
        let one = value_has_loop(value);
        any = one_of(any, one);
    }
    any
}

#[cycle(loops)]
fn test_has_loop(test: &Cond) -> bool
    ensures { result ≡ returning.test_has_loop (plain_cond test.now) }
{
    match test {
        Cond::Compare(_, x, y) => value_has_loop(x) || value_has_loop(y),
        Cond::Not(inner) => test_has_loop(inner),
        Cond::Both(left, right) | Cond::Either(left, right) => {
            test_has_loop(left) || test_has_loop(right)
        }
    }
}

fn one_of(one: bool, other: bool) -> bool
    ensures { result ≡ (one || other) }
{
    one || other
}

/// One statement after another.
pub(crate) fn in_turn(alloc: Global, first: Ts, second: Ts) -> Result<Ts, Memory>
    ensures { IfOk result (λ s. plain_ts s ≡
        returning.in_turn (plain_ts first) (plain_ts second)) }
{
    Ok(sequence(vec![in alloc; first, second]?))
}

/// An arm that returns, and what is done otherwise.
fn returning(alloc: Global, test: Cond, this: Ts, other: Ts) -> Result<Ts, Memory>
    ensures { IfOk result (λ s. plain_ts s ≡
        returning.returning (plain_cond test) (plain_ts this) (plain_ts other)) }
{
    let first = when(alloc, test, this)?;
    Ok(in_turn(alloc, first, other)?)
}

/// The statement that returns a value, from the arms of its choices.
#[cycle(returns)]
fn returned(alloc: Global, value: Tx) -> Result<Ts, Memory>
    ensures { IfOk result (λ s. plain_ts s ≡ returning.returned (plain_tx value)) }
{
    match value {
        Tx::After(first, last) => {
            let first = Box::into_inner(first);
            match Box::into_inner(last) {
                Tx::Temp(from) => Ok(returned_from(alloc, from, first)?),
                last => {
                    let last = returned(alloc, last)?;
                    Ok(in_turn(alloc, first, last)?)
                }
            }
        }
        value => Ok(Ts::Return(value)),
    }
}

/// The statement that returns what a temporary holds after a statement.
#[cycle(returns)]
fn returned_from(alloc: Global, from: Temp, done: Ts) -> Result<Ts, Memory>
    ensures { IfOk result (λ s. plain_ts s ≡
        returning.returned_from from.0 (plain_ts done)) }
{
    match done {
        Ts::Move(to, value) => {
            if from.0 == to.0 {
                Ok(returned(alloc, value)?)
            } else {
                Ok(in_turn(alloc, Ts::Move(to, value), Ts::Return(Tx::Temp(from)))?)
            }
        }
        Ts::If(test, this, other) => {
            let this = returned_from(alloc, from, Box::into_inner(this))?;
            let other = returned_from(alloc, from, Box::into_inner(other))?;
            Ok(returning(alloc, test, this, other)?)
        }
        Ts::Seq(all) => Ok(sequence(all_returned_from(alloc, from, all.items)?)),
        done => Ok(in_turn(alloc, done, Ts::Return(Tx::Temp(from)))?),
    }
}

#[cycle(returns)]
fn all_returned_from(alloc: Global, from: Temp, mut all: Vec<Ts>) -> Result<Vec<Ts>, Memory>
    ensures { IfOk result (λ ss. stms_of ss.items ≡
        returning.all_returned_from from.0 (stms_of all.items)) }
{
    let last = match all.pop() {
        Some(last) => returned_from(alloc, from, last)?,
        None => Ts::Return(Tx::Temp(from)),
    };
    all.push(last)?;
    Ok(all)
}

/// A function gives a value back: from the arms of its choices, where nothing in them is repeated.
pub(crate) fn give_back(alloc: Global, value: Tx) -> Result<Ts, Memory>
    ensures { IfOk result (λ s. plain_ts s ≡ returning.given_back (plain_tx value)) }
{
    if value_has_loop(&value) {
        return Ok(Ts::Return(value));
    }
    Ok(returned(alloc, value)?)
}

// An expression becomes a value, a statement or a condition (the book's Ex, Nx and Cx), for what
// its place wants: a value, a value put into a temporary, nothing, or a condition. So the arms
// of an `if`, the last of a sequence and a `let`'s body write where their value goes, and a test
// is never made a number first.
//
// `if a then b else 0` is `a & b` where a condition is wanted: the language has no other
// difference between the two.

ghost use Rattle.std.specs.Prelude.{◌≡◌, IfOk, OnOk};
ghost use Rattle.tg_tree.specs.glue.Plain.{plain_tx, plain_cond, plain_ts};
ghost use Rattle.tg_tree.specs.glue.Lists.{stms_of};
ghost use Rattle.tg_tree.specs.Forms as forms;
ghost use Rattle.tg_translate.specs.mirror.States.{drawn, state_of};
ghost use Rattle.tg_translate.specs.mirror.Wants as wants;
ghost use Rattle.tg_translate.specs.mirror.Wants.{plain_made};

use crate::states::TranslationState;
use std::alloc::Global;
use tg_base::{Memory, Temp};
use tg_tree::{Cond, Rel, Ts, Tx, after, compare, if_else, sequence};

/// What the place of an expression wants of it.
#[derive(Clone, Copy)]
pub enum Want {
    Value,
    /// Its value is put into a temporary.
    Into(Temp),
    Dropped,
    Test,
}

/// What an expression becomes: a value, a statement or a condition. A statement has no value, or it
/// has put it where it was wanted.
#[derive(Drop)]
pub(crate) enum Made {
    Value(Tx),
    Done(Ts),
    Test(Cond),
}

/// 1 where a condition holds, and else 0.
fn truth_into(alloc: Global, to: Temp, test: Cond) -> Result<Ts, Memory>
    ensures { IfOk result (λ s. plain_ts s ≡ wants.truth_into to.0 (plain_cond test)) }
{
    let one = Ts::Move(to, Tx::Const(1));
    Ok(if_else(alloc, test, one, Ts::Move(to, Tx::Const(0)))?)
}

/// No statement.
pub(crate) fn nothing(alloc: Global) -> Ts
    ensures { plain_ts result ≡ forms.nothing }
{
    sequence(Vec::new(alloc))
}

/// The value of what was made.
pub(crate) fn value_of(state: &mut TranslationState, made: Made) -> Result<Tx, Memory>
    ensures { IfOk result (λ x. wants.value_of (plain_made made) (state_of state.old) ≡
        drawn (plain_tx x) (state_of state.new)) }
{
    match made {
        Made::Value(value) => Ok(value),
        Made::Done(done) => Ok(after(state.alloc, done, Tx::Const(0))?),
        Made::Test(test) => {
            let to = state.fresh()?;
            let truth = truth_into(state.alloc, to, test)?;
            Ok(after(state.alloc, truth, Tx::Temp(to))?)
        }
    }
}

/// The statement that puts the value of what was made into a temporary.
pub(crate) fn put_in(alloc: Global, to: Temp, made: Made) -> Result<Ts, Memory>
    ensures { IfOk result (λ s. plain_ts s ≡ wants.put_in to.0 (plain_made made)) }
{
    match made {
        Made::Value(value) => Ok(Ts::Move(to, value)),
        Made::Done(done) => Ok(done),
        Made::Test(test) => Ok(truth_into(alloc, to, test)?),
    }
}

/// The statement that does what was made, without its value.
pub(crate) fn dropped(alloc: Global, made: Made) -> Result<Ts, Memory>
    ensures { IfOk result (λ s. plain_ts s ≡ wants.dropped (plain_made made)) }
{
    match made {
        Made::Value(value) => Ok(Ts::Do(value)),
        Made::Done(done) => Ok(done),
        Made::Test(test) => Ok(if_else(alloc, test, nothing(alloc), nothing(alloc))?),
    }
}

/// The condition that a value isn't 0.
fn is_true(alloc: Global, value: Tx) -> Result<Cond, Memory>
    ensures { IfOk result (λ c. plain_cond c ≡ wants.is_true (plain_tx value)) }
{
    Ok(compare(alloc, Rel::NotEqual, value, Tx::Const(0))?)
}

/// The condition that what was made is true.
pub(crate) fn test_of(alloc: Global, made: Made) -> Result<Cond, Memory>
    ensures { IfOk result (λ c. plain_cond c ≡ wants.test_of (plain_made made)) }
{
    match made {
        Made::Value(value) => Ok(is_true(alloc, value)?),
        Made::Done(done) => Ok(is_true(alloc, after(alloc, done, Tx::Const(0))?)?),
        Made::Test(test) => Ok(test),
    }
}

/// Where the values of arms go of which one is taken: into a temporary, or nowhere.
#[inline(never)]
pub(crate) fn arms(state: &mut TranslationState, want: Want) -> Result<Want, Memory>
    ensures { IfOk result
        (λ w. wants.arms want (state_of state.old) ≡ drawn w (state_of state.new)) }
{
    match want {
        Want::Into(_) | Want::Dropped => Ok(want),
        Want::Value | Want::Test => Ok(Want::Into(state.fresh()?)),
    }
}

/// The statement of an arm.
pub(crate) fn as_statement(alloc: Global, arms: Want, made: Made) -> Result<Ts, Memory>
    ensures { IfOk result (λ s. plain_ts s ≡ wants.as_statement arms (plain_made made)) }
{
    match arms {
        Want::Into(to) => Ok(put_in(alloc, to, made)?),
        _ => Ok(dropped(alloc, made)?),
    }
}

/// What is made of the statement of the arms.
pub(crate) fn deliver(alloc: Global, want: Want, arms: Want, done: Ts) -> Result<Made, Memory>
    ensures { IfOk result (λ m. plain_made m ≡ wants.deliver want arms (plain_ts done)) }
{
    match want {
        Want::Into(_) | Want::Dropped => Ok(Made::Done(done)),
        Want::Value | Want::Test => Ok(taken_from(alloc, arms, done)?),
    }
}

fn taken_from(alloc: Global, arms: Want, done: Ts) -> Result<Made, Memory>
    ensures { IfOk result (λ m. plain_made m ≡ wants.taken_from arms (plain_ts done)) }
{
    match arms {
        Want::Into(to) => Ok(Made::Value(after(alloc, done, Tx::Temp(to))?)),
        _ => Ok(Made::Done(done)),
    }
}

/// A value after statements.
pub(crate) fn value_behind(alloc: Global, before: Vec<Ts>, value: Tx) -> Result<Made, Memory>
    ensures { IfOk result (λ m. plain_made m ≡
        wants.value_behind (stms_of before.items) (plain_tx value)) }
{
    Ok(Made::Value(after(alloc, sequence(before), value)?))
}

/// Whether there is no statement.
#[tactic(auto, using(crate::proofs::Lists::length_is_none))]
pub(crate) fn is_none(statements: &[Ts]) -> bool
    ensures { result ≡ wants.is_none (stms_of statements.now) }
{
    statements.is_empty()
}

/// A statement after others.
#[tactic(auto, using(crate::proofs::Lists::pushed))]
pub(crate) fn push(statements: &mut Vec<Ts>, last: Ts) -> Result<(), Memory>
    ensures { OnOk result (stms_of statements.new.items ≡
        wants.followed (stms_of statements.old.items) (plain_ts last)) }
{
    statements.push(last)?;
    Ok(())
}

/// What was made, after statements.
pub(crate) fn behind(
    state: &mut TranslationState,
    want: Want,
    before: Vec<Ts>,
    made: Made,
) -> Result<Made, Memory>
    ensures { IfOk result (λ m.
        wants.behind want (stms_of before.items) (plain_made made) (state_of state.old) ≡
        drawn (plain_made m) (state_of state.new)) }
{
    if is_none(&before) {
        return Ok(made);
    }
    Ok(behind_some(state, want, before, made)?)
}

fn behind_some(
    state: &mut TranslationState,
    want: Want,
    before: Vec<Ts>,
    made: Made,
) -> Result<Made, Memory>
    ensures { IfOk result (λ m.
        wants.behind_some want (stms_of before.items) (plain_made made) (state_of state.old) ≡
        drawn (plain_made m) (state_of state.new)) }
{
    match want {
        Want::Into(_) | Want::Dropped => Ok(done_behind(state.alloc, want, before, made)?),
        Want::Value | Want::Test => {
            let value = value_of(state, made)?;
            Ok(value_behind(state.alloc, before, value)?)
        }
    }
}

fn done_behind(alloc: Global, want: Want, mut before: Vec<Ts>, made: Made) -> Result<Made, Memory>
    ensures { IfOk result (λ m. plain_made m ≡
        wants.done_behind want (stms_of before.items) (plain_made made)) }
{
    push(&mut before, as_statement(alloc, want, made)?)?;
    Ok(Made::Done(sequence(before)))
}

ghost use Rattle.std.specs.Prelude.{◌≡◌, ◌||◌};
ghost use Rattle.tg_tree.specs.glue.Plain.{plain_tx, plain_cond, plain_ts};
ghost use Rattle.tg_tree.specs.glue.Lists.{txs_of, stms_of};
ghost use Rattle.tg_fold.specs.Copies as copies;
ghost use Rattle.tg_fold.specs.glue.Views.{plain_copy};

use tg_base::Temp;
use tg_tree::{Cond, Stms, Ts, Tx, Txs};

/// What a statement copies: the temporary that it assigns, and the one that it reads.
#[derive(Clone, Copy)]
pub(crate) struct CopyOf {
    pub(crate) to: Temp,
    pub(crate) from: Temp,
}

/// The copy that a statement is.
pub(crate) fn copy(statement: &Ts) -> Option<CopyOf>
    ensures { plain_copy result ≡ copies.copy (plain_ts statement.now) }
{
    match statement {
        Ts::Move(to, Tx::Temp(from)) => Some(CopyOf {
            to: *to,
            from: *from,
        }),
        _ => None,
    }
}

// Whether a temporary is assigned anywhere in a statement.
#[cycle(assigns)]
fn assigns(temp: Temp, statement: &Ts) -> bool
    ensures { result ≡ copies.assigns temp.0 (plain_ts statement.now) }
{
    match statement {
        Ts::Move(to, x) => temp.0 == to.0 || value_assigns(temp, x),
        Ts::Store(x, y) | Ts::StoreByte(x, y) => value_assigns(temp, x) || value_assigns(temp, y),
        Ts::Do(x) | Ts::Return(x) => value_assigns(temp, x),
        Ts::If(test, this, other) => {
            test_assigns(temp, test) || (assigns(temp, this) || assigns(temp, other))
        }
        Ts::Loop(turn) => assigns(temp, turn),
        Ts::Break(_) | Ts::Fault(_) => false,
        Ts::Seq(all) => any_assigns(temp, all),
    }
}

#[cycle(assigns)]
fn any_assigns(temp: Temp, statements: &Stms) -> bool
    ensures { result ≡ copies.assigns_stms temp.0 (stms_of statements.now.items.items) }
{
    let mut any = false;
    for statement in &statements.items {
        let one = assigns(temp, statement);
        any = one_of(any, one);
    }
    any
}

#[cycle(assigns)]
fn value_assigns(temp: Temp, value: &Tx) -> bool
    ensures { result ≡ copies.assigns_tx temp.0 (plain_tx value.now) }
{
    match value {
        Tx::Const(_) | Tx::Address(_) | Tx::Temp(_) | Tx::FrameAddress => false,
        Tx::Binary(_, x, y) => value_assigns(temp, x) || value_assigns(temp, y),
        Tx::Load(x) | Tx::LoadByte(x) | Tx::Service(_, x) => value_assigns(temp, x),
        Tx::Call(_, all) => any_value_assigns(temp, all),
        Tx::After(first, x) => assigns(temp, first) || value_assigns(temp, x),
    }
}

#[cycle(assigns)]
fn any_value_assigns(temp: Temp, values: &Txs) -> bool
    ensures { result ≡ copies.assigns_txs temp.0 (txs_of values.now.items.items) }
{
    let mut any = false;
    for value in &values.items {
        let one = value_assigns(temp, value);
        any = one_of(any, one);
    }
    any
}

#[cycle(assigns)]
fn test_assigns(temp: Temp, test: &Cond) -> bool
    ensures { result ≡ copies.assigns_cond temp.0 (plain_cond test.now) }
{
    match test {
        Cond::Compare(_, x, y) => value_assigns(temp, x) || value_assigns(temp, y),
        Cond::Not(inner) => test_assigns(temp, inner),
        Cond::Both(left, right) | Cond::Either(left, right) => {
            test_assigns(temp, left) || test_assigns(temp, right)
        }
    }
}

// Whether a temporary is read anywhere in a statement.
#[cycle(reads)]
fn reads(temp: Temp, statement: &Ts) -> bool
    ensures { result ≡ copies.reads temp.0 (plain_ts statement.now) }
{
    match statement {
        Ts::Store(x, y) | Ts::StoreByte(x, y) => value_reads(temp, x) || value_reads(temp, y),
        Ts::Move(_, x) | Ts::Do(x) | Ts::Return(x) => value_reads(temp, x),
        Ts::If(test, this, other) => {
            test_reads(temp, test) || (reads(temp, this) || reads(temp, other))
        }
        Ts::Loop(turn) => reads(temp, turn),
        Ts::Break(_) | Ts::Fault(_) => false,
        Ts::Seq(all) => any_reads(temp, all),
    }
}

#[cycle(reads)]
fn any_reads(temp: Temp, statements: &Stms) -> bool
    ensures { result ≡ copies.reads_stms temp.0 (stms_of statements.now.items.items) }
{
    let mut any = false;
    for statement in &statements.items {
        let one = reads(temp, statement);
        any = one_of(any, one);
    }
    any
}

#[cycle(reads)]
fn value_reads(temp: Temp, value: &Tx) -> bool
    ensures { result ≡ copies.reads_tx temp.0 (plain_tx value.now) }
{
    match value {
        Tx::Temp(other) => temp.0 == other.0,
        Tx::Const(_) | Tx::Address(_) | Tx::FrameAddress => false,
        Tx::Binary(_, x, y) => value_reads(temp, x) || value_reads(temp, y),
        Tx::Load(x) | Tx::LoadByte(x) | Tx::Service(_, x) => value_reads(temp, x),
        Tx::Call(_, all) => any_value_reads(temp, all),
        Tx::After(first, x) => reads(temp, first) || value_reads(temp, x),
    }
}

#[cycle(reads)]
fn any_value_reads(temp: Temp, values: &Txs) -> bool
    ensures { result ≡ copies.reads_txs temp.0 (txs_of values.now.items.items) }
{
    let mut any = false;
    for value in &values.items {
        let one = value_reads(temp, value);
        any = one_of(any, one);
    }
    any
}

#[cycle(reads)]
fn test_reads(temp: Temp, test: &Cond) -> bool
    ensures { result ≡ copies.reads_cond temp.0 (plain_cond test.now) }
{
    match test {
        Cond::Compare(_, x, y) => value_reads(temp, x) || value_reads(temp, y),
        Cond::Not(inner) => test_reads(temp, inner),
        Cond::Both(left, right) | Cond::Either(left, right) => {
            test_reads(temp, left) || test_reads(temp, right)
        }
    }
}

fn one_of(one: bool, other: bool) -> bool
    ensures { result ≡ (one || other) }
{
    one || other
}

/// Whether a statement takes a copy that stands before it: it assigns neither temporary anywhere,
/// and reads the one that was assigned.
pub(crate) fn takes_copy(before: CopyOf, statement: &Ts) -> bool
    ensures { result ≡ copies.takes_copy before.to.0 before.from.0 (plain_ts statement.now) }
{
    before.to.0 != before.from.0
        && (!assigns(before.to, statement)
            && (!assigns(before.from, statement) && reads(before.to, statement)))
}

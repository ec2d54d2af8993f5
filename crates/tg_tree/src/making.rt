ghost use Rattle.std.specs.Prelude.{◌≡◌, IfOk, map};
ghost use Rattle.tg_tree.specs.glue.Plain.{plain_tx, plain_cond, plain_ts};
ghost use Rattle.tg_tree.specs.glue.Lists.{txs_of, stms_of};
ghost use Rattle.tg_tree.specs.Tree as tree;
ghost use Rattle.tg_tree.specs.Forms as forms;

use crate::operators::{Bin, Rel};
use crate::trees::{Cond, Stms, Ts, Tx, Txs};
use std::alloc::Global;
use tg_base::{Label, Memory};

/// Two operands and an operator between them.
pub fn binary(alloc: Global, op: Bin, left: Tx, right: Tx) -> Result<Tx, Memory>
    ensures { IfOk result (λ x. plain_tx x ≡ tree.Binary op (plain_tx left) (plain_tx right)) }
{
    let left = Box::new(alloc, left)?;
    let right = Box::new(alloc, right)?;
    Ok(Tx::Binary(op, left, right))
}

/// The word at an address.
pub fn load(alloc: Global, address: Tx) -> Result<Tx, Memory>
    ensures { IfOk result (λ x. plain_tx x ≡ tree.Load (plain_tx address)) }
{
    let address = Box::new(alloc, address)?;
    Ok(Tx::Load(address))
}

/// The byte at an address.
pub fn load_byte(alloc: Global, address: Tx) -> Result<Tx, Memory>
    ensures { IfOk result (λ x. plain_tx x ≡ tree.LoadByte (plain_tx address)) }
{
    let address = Box::new(alloc, address)?;
    Ok(Tx::LoadByte(address))
}

/// A call of a function by its label.
pub fn call(label: Label, arguments: Vec<Tx>) -> Tx
    ensures { plain_tx result ≡ tree.Call label.0 (txs_of arguments.items) }
{
    Tx::Call(label, Txs { items: arguments })
}

/// A service of the machine by its number.
pub fn service(alloc: Global, number: u32, argument: Tx) -> Result<Tx, Memory>
    ensures { IfOk result (λ x. plain_tx x ≡ tree.Service number (plain_tx argument)) }
{
    let argument = Box::new(alloc, argument)?;
    Ok(Tx::Service(number, argument))
}

/// An expression after a statement.
pub fn after(alloc: Global, first: Ts, value: Tx) -> Result<Tx, Memory>
    ensures { IfOk result (λ x. plain_tx x ≡ tree.After (plain_ts first) (plain_tx value)) }
{
    let first = Box::new(alloc, first)?;
    let value = Box::new(alloc, value)?;
    Ok(Tx::After(first, value))
}

/// A comparison of two values.
pub fn compare(alloc: Global, rel: Rel, left: Tx, right: Tx) -> Result<Cond, Memory>
    ensures { IfOk result (λ c. plain_cond c ≡ tree.Compare rel (plain_tx left) (plain_tx right)) }
{
    let left = Box::new(alloc, left)?;
    let right = Box::new(alloc, right)?;
    Ok(Cond::Compare(rel, left, right))
}

/// The condition that holds where this one doesn't.
pub fn negate(alloc: Global, test: Cond) -> Result<Cond, Memory>
    ensures { IfOk result (λ c. plain_cond c ≡ tree.Not (plain_cond test)) }
{
    let test = Box::new(alloc, test)?;
    Ok(Cond::Not(test))
}

/// Two conditions of which both hold; the second one is looked at only where the first one holds.
pub fn both(alloc: Global, left: Cond, right: Cond) -> Result<Cond, Memory>
    ensures { IfOk result (λ c. plain_cond c ≡ tree.Both (plain_cond left) (plain_cond right)) }
{
    let left = Box::new(alloc, left)?;
    let right = Box::new(alloc, right)?;
    Ok(Cond::Both(left, right))
}

/// Two conditions of which one holds; the second one is looked at only where the first one doesn't
/// hold.
pub fn either(alloc: Global, left: Cond, right: Cond) -> Result<Cond, Memory>
    ensures { IfOk result (λ c. plain_cond c ≡ tree.Either (plain_cond left) (plain_cond right)) }
{
    let left = Box::new(alloc, left)?;
    let right = Box::new(alloc, right)?;
    Ok(Cond::Either(left, right))
}

/// One of two statements, by a condition.
pub fn if_else(alloc: Global, test: Cond, this: Ts, other: Ts) -> Result<Ts, Memory>
    ensures { IfOk result (λ s. plain_ts s ≡
        tree.If (plain_cond test) (plain_ts this) (plain_ts other)) }
{
    let this = Box::new(alloc, this)?;
    let other = Box::new(alloc, other)?;
    Ok(Ts::If(test, this, other))
}

/// A statement where a condition holds.
pub fn when(alloc: Global, test: Cond, this: Ts) -> Result<Ts, Memory>
    ensures { IfOk result (λ s. plain_ts s ≡ forms.when (plain_cond test) (plain_ts this)) }
{
    let none = sequence(Vec::new(alloc));
    if_else(alloc, test, this, none)
}

/// A statement again and again.
pub fn repeat(alloc: Global, turn: Ts) -> Result<Ts, Memory>
    ensures { IfOk result (λ s. plain_ts s ≡ tree.Loop (plain_ts turn)) }
{
    let turn = Box::new(alloc, turn)?;
    Ok(Ts::Loop(turn))
}

/// Statements again and again, until a condition holds after a turn.
pub fn repeat_until(alloc: Global, done: Cond, mut turn: Vec<Ts>) -> Result<Ts, Memory>
    ensures { IfOk result (λ s. plain_ts s ≡
        forms.repeat_until (plain_cond done) (map plain_ts turn.items)) }
{
    turn.push(when(alloc, done, Ts::Break(0))?)?;
    repeat(alloc, sequence(turn))
}

/// One statement after another.
pub fn sequence(items: Vec<Ts>) -> Ts
    ensures { plain_ts result ≡ tree.Seq (stms_of items.items) }
{
    Ts::Seq(Stms { items })
}

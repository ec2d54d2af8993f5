ghost use Rattle.std.specs.Prelude.{◌≡◌, IfOk};
ghost use Rattle.tg_tree.specs.Tree as tree;
ghost use Rattle.tg_tree.specs.glue.Plain.{plain_tx};
ghost use Rattle.tg_canon.specs.glue.Views.{plain_part, plain_hoisted, plain_two};
ghost use Rattle.tg_canon.specs.mirror.Canon as canon;

use crate::hoisted::{Hoisted, Two};
use crate::parts::{Part, nothing};
use std::alloc::Global;
use tg_base::{Memory, Temp};
use tg_tree::{Bin, Ts, Tx};

/// A temporary becomes the value of a hoisted expression.
#[inline(never)]
pub(crate) fn move_to(alloc: Global, temp: Temp, a: Box<Hoisted>) -> Result<Box<Part>, Memory>
    ensures { IfOk result (λ p. plain_part p.value ≡
        canon.with_one (λ v. canon.assigning temp.0 (tree.Move temp.0 v)) (plain_hoisted a.value)) }
{
    let a = Box::into_inner(a);
    let assigned = Part::assigning(temp, Ts::Move(temp, a.rest));
    Ok(Box::new(alloc, a.front.before(alloc, assigned)?)?)
}

/// The value of a hoisted expression is returned.
#[inline(never)]
pub(crate) fn return_of(alloc: Global, a: Box<Hoisted>) -> Result<Box<Part>, Memory>
    ensures { IfOk result (λ p. plain_part p.value ≡
        canon.with_one (λ v. canon.still (tree.Return v)) (plain_hoisted a.value)) }
{
    let a = Box::into_inner(a);
    let returned = Part::still(Ts::Return(a.rest));
    Ok(Box::new(alloc, a.front.before(alloc, returned)?)?)
}

/// A hoisted word is stored at a hoisted address.
#[inline(never)]
pub(crate) fn store(alloc: Global, both: Box<Two>) -> Result<Box<Part>, Memory>
    ensures { IfOk result (λ p.
        plain_part p.value ≡ canon.with_two tree.Store (plain_two both.value)) }
{
    let both = Box::into_inner(both);
    let stored = Part::still(Ts::Store(both.left, both.right));
    Ok(Box::new(alloc, both.front.before(alloc, stored)?)?)
}

/// The low byte of a hoisted word is stored at a hoisted address.
#[inline(never)]
pub(crate) fn store_byte(alloc: Global, both: Box<Two>) -> Result<Box<Part>, Memory>
    ensures { IfOk result (λ p.
        plain_part p.value ≡ canon.with_two tree.StoreByte (plain_two both.value)) }
{
    let both = Box::into_inner(both);
    let stored = Part::still(Ts::StoreByte(both.left, both.right));
    Ok(Box::new(alloc, both.front.before(alloc, stored)?)?)
}

fn is_trapping(op: Bin) -> bool
    ensures { result ≡ canon.is_trapping op }
{
    matches!(op, Bin::AddTrap | Bin::SubTrap)
}

// Whether an expression does anything but give a word.
fn acts(x: &Tx) -> bool
    ensures { result ≡ canon.acts (plain_tx x.now) }
{
    match x {
        Tx::Binary(op, left, right) => is_trapping(*op) || acts(left) || acts(right),
        Tx::Load(address) | Tx::LoadByte(address) => acts(address),
        Tx::Call(_, _) | Tx::Service(_, _) => true,
        _ => false,
    }
}

fn dropped(alloc: Global, x: Tx) -> Part
    ensures { plain_part result ≡ canon.dropped (plain_tx x) }
{
    if acts(&x) {
        Part::still(Ts::Do(x))
    } else {
        Part::still(nothing(alloc))
    }
}

/// The value of a hoisted expression isn't wanted.
#[inline(never)]
pub(crate) fn drop_value(alloc: Global, a: Box<Hoisted>) -> Result<Box<Part>, Memory>
    ensures { IfOk result (λ p.
        plain_part p.value ≡ canon.with_one canon.dropped (plain_hoisted a.value)) }
{
    let a = Box::into_inner(a);
    let done = dropped(alloc, a.rest);
    Ok(Box::new(alloc, a.front.before(alloc, done)?)?)
}

// Whatever reads memory or may trap is held before any statement that follows, a plain `Move`
// too: a run must not write, read or take heap before a trap on the left.

ghost use Rattle.std.specs.Prelude.{◌≡◌, ◌∷◌, ◌++◌, [], IfOk};
ghost use Rattle.tg_tree.specs.Tree as tree;
ghost use Rattle.tg_tree.specs.glue.Plain.{plain_tx};
ghost use Rattle.tg_canon.specs.glue.Views.{plain_part, plain_hoisted, plain_two, plain_arguments};
ghost use Rattle.tg_canon.specs.mirror.Canon as canon;
ghost use Rattle.tg_canon.specs.mirror.Drawing.{DrawsFrom};

use crate::parts::{Part, is_nothing, nothing};
use crate::supply::Supply;
use std::alloc::Global;
use tg_base::{Label, Memory, Temp, keep_with};
use tg_tree::{Bin, Ts, Tx, Txs, binary, call, load, load_byte, service};

/// What is left of an expression, a flat one or a call or service of flat ones, after what is
/// hoisted out of it.
#[derive(Drop)]
pub(crate) struct Hoisted {
    pub(crate) front: Part,
    pub(crate) rest: Tx,
}

/// The same of two expressions.
#[derive(Drop)]
pub(crate) struct Two {
    pub(crate) front: Part,
    pub(crate) left: Tx,
    pub(crate) right: Tx,
}

/// The same of a call's arguments, the first one last, as they are found from the right.
#[derive(Drop)]
pub(crate) struct Arguments {
    pub(crate) front: Part,
    pub(crate) reversed: Vec<Tx>,
}

/// An expression that nothing is hoisted out of.
pub(crate) fn whole(alloc: Global, x: Tx) -> Hoisted
    ensures { plain_hoisted result ≡ canon.whole (plain_tx x) }
{
    Hoisted {
        front: Part::still(nothing(alloc)),
        rest: x,
    }
}

/// A constant, as what is left.
#[inline(never)]
pub(crate) fn constant(alloc: Global, n: u32) -> Result<Box<Hoisted>, Memory>
    ensures { IfOk result (λ a. plain_hoisted a.value ≡ canon.whole (tree.Const n)) }
{
    Ok(Box::new(alloc, whole(alloc, Tx::Const(n)))?)
}

/// A literal's address, as what is left.
#[inline(never)]
pub(crate) fn address(alloc: Global, label: Label) -> Result<Box<Hoisted>, Memory>
    ensures { IfOk result (λ a. plain_hoisted a.value ≡ canon.whole (tree.Address label.0)) }
{
    Ok(Box::new(alloc, whole(alloc, Tx::Address(label)))?)
}

/// A temporary, as what is left.
#[inline(never)]
pub(crate) fn temporary(alloc: Global, temp: Temp) -> Result<Box<Hoisted>, Memory>
    ensures { IfOk result (λ a. plain_hoisted a.value ≡ canon.whole (tree.Temp temp.0)) }
{
    Ok(Box::new(alloc, whole(alloc, Tx::Temp(temp)))?)
}

/// The frame address, as what is left.
#[inline(never)]
pub(crate) fn frame_address(alloc: Global) -> Result<Box<Hoisted>, Memory>
    ensures { IfOk result (λ a. plain_hoisted a.value ≡ canon.whole tree.FrameAddress) }
{
    Ok(Box::new(alloc, whole(alloc, Tx::FrameAddress))?)
}

/// No argument.
#[inline(never)]
pub(crate) fn no_arguments(alloc: Global) -> Result<Box<Arguments>, Memory>
    ensures { IfOk result (λ all. plain_arguments all.value ≡ canon.no_arguments) }
{
    let none = Arguments {
        front: Part::still(nothing(alloc)),
        reversed: Vec::new(alloc),
    };
    Ok(Box::new(alloc, none)?)
}

// An expression after one more part.
fn behind(alloc: Global, first: Part, a: Hoisted) -> Result<Box<Hoisted>, Memory>
    ensures { IfOk result (λ b.
        plain_hoisted b.value ≡ canon.behind (plain_part first) (plain_hoisted a)) }
{
    let (rest, front) = keep_with(a.rest, first.before(alloc, a.front))?;
    Ok(Box::new(alloc, Hoisted { front, rest })?)
}

/// An expression after one more part.
#[inline(never)]
pub(crate) fn behind_part(
    alloc: Global,
    first: Box<Part>,
    a: Box<Hoisted>,
) -> Result<Box<Hoisted>, Memory>
    ensures { IfOk result (λ b.
        plain_hoisted b.value ≡ canon.behind (plain_part first.value) (plain_hoisted a.value)) }
{
    behind(alloc, Box::into_inner(first), Box::into_inner(a))
}

// An expression is held in a fresh temporary.
fn hold(supply: &mut Supply, x: Tx) -> Result<Hoisted, Memory>
    ensures { IfOk result (λ a.
        DrawsFrom (canon.hold (plain_tx x)) supply.old.next (plain_hoisted a) supply.new.next) }
{
    let temp = supply.fresh()?;
    Ok(Hoisted {
        front: Part::still(Ts::Move(temp, x)),
        rest: Tx::Temp(temp),
    })
}

fn is_effect(x: &Tx) -> bool
    ensures { result ≡ canon.is_effect (plain_tx x.now) }
{
    matches!(x, Tx::Call(_, _) | Tx::Service(_, _))
}

/// The word of a call or service is held.
#[inline(never)]
pub(crate) fn word(supply: &mut Supply, a: Box<Hoisted>) -> Result<Box<Hoisted>, Memory>
    ensures { IfOk result (λ b. DrawsFrom
        (canon.hold_effect (canon.is_effect (plain_tx a.value.rest)) (plain_hoisted a.value))
        supply.old.next (plain_hoisted b.value) supply.new.next) }
{
    if is_effect(&a.rest) {
        let Hoisted { front, rest } = Box::into_inner(a);
        let (front, held) = keep_with(front, hold(supply, rest))?;
        behind(supply.alloc, front, held)
    } else {
        Ok(a)
    }
}

// Whether an expression gives the same word after a part: it reads no memory, and no temporary
// that the part assigns.
fn commutes(part: &Part, x: &Tx) -> bool
    ensures { result ≡ canon.commutes (plain_part part.now) (plain_tx x.now) }
{
    match x {
        Tx::Const(_) | Tx::Address(_) | Tx::FrameAddress => true,
        Tx::Temp(temp) => !part.may_assign(*temp),
        _ => false,
    }
}

fn hold_unless_it_commutes(supply: &mut Supply, part: &Part, x: Tx) -> Result<Hoisted, Memory>
    ensures { IfOk result (λ a. DrawsFrom
        (canon.hold_unless (canon.commutes (plain_part part.now) (plain_tx x)) (plain_tx x))
        supply.old.next (plain_hoisted a) supply.new.next) }
{
    if commutes(part, &x) {
        Ok(whole(supply.alloc, x))
    } else {
        Ok(hold(supply, x)?)
    }
}

fn is_constant(x: &Tx) -> bool
    ensures { result ≡ canon.is_constant (plain_tx x.now) }
{
    matches!(x, Tx::Const(_))
}

fn is_sum(op: Bin) -> bool
    ensures { result ≡ canon.is_sum op }
{
    matches!(op, Bin::Add | Bin::Sub)
}

// A constant offset stays where it is, and what it is added to is held.
fn hold_for_sum(
    supply: &mut Supply,
    part: &Part,
    op: Bin,
    left: Tx,
    right: Tx,
) -> Result<Hoisted, Memory>
    ensures { IfOk result (λ a. DrawsFrom
        (canon.hold_for (plain_part part.now) (tree.Binary op (plain_tx left) (plain_tx right)))
        supply.old.next (plain_hoisted a) supply.new.next) }
{
    if is_sum(op) && is_constant(&right) {
        let (right, held) = keep_with(right, hold_unless_it_commutes(supply, part, left))?;
        let sum = binary(supply.alloc, op, held.rest, right);
        let (front, rest) = keep_with(held.front, sum)?;
        Ok(Hoisted { front, rest })
    } else {
        let sum = binary(supply.alloc, op, left, right)?;
        Ok(hold(supply, sum)?)
    }
}

fn hold_for(supply: &mut Supply, part: &Part, x: Tx) -> Result<Hoisted, Memory>
    ensures { IfOk result (λ a. DrawsFrom (canon.hold_for (plain_part part.now) (plain_tx x))
        supply.old.next (plain_hoisted a) supply.new.next) }
{
    match x {
        Tx::Binary(op, left, right) => {
            let left = Box::into_inner(left);
            let right = Box::into_inner(right);
            Ok(hold_for_sum(supply, part, op, left, right)?)
        }
        other => Ok(hold_unless_it_commutes(supply, part, other)?),
    }
}

// An expression in front of a part.
fn in_front_of(supply: &mut Supply, part: &Part, a: Box<Hoisted>) -> Result<Box<Hoisted>, Memory>
    ensures { IfOk result (λ b.
        DrawsFrom (canon.in_front_of (plain_part part.now) (plain_hoisted a.value))
        supply.old.next (plain_hoisted b.value) supply.new.next) }
{
    if is_nothing(&part.statement) {
        Ok(a)
    } else {
        let Hoisted { front, rest } = Box::into_inner(a);
        let (front, held) = keep_with(front, hold_for(supply, part, rest))?;
        behind(supply.alloc, front, held)
    }
}

/// Two expressions, of which the right one is hoisted before the left one.
#[inline(never)]
pub(crate) fn side_by_side(
    supply: &mut Supply,
    left: Box<Hoisted>,
    right: Box<Hoisted>,
) -> Result<Box<Two>, Memory>
    ensures { IfOk result (λ both. DrawsFrom
        (canon.side_by_side (plain_hoisted left.value) (plain_hoisted right.value))
        supply.old.next (plain_two both.value) supply.new.next) }
{
    let left = in_front_of(supply, &right.front, left)?;
    let (left, right) = (Box::into_inner(left), Box::into_inner(right));
    let words = (left.rest, right.rest);
    let (words, front) = keep_with(words, left.front.before(supply.alloc, right.front))?;
    let (left, right) = words;
    Ok(Box::new(supply.alloc, Two { front, left, right })?)
}

fn one_more(mut xs: Vec<Tx>, x: Tx) -> Result<Vec<Tx>, Memory>
    ensures { IfOk result (λ ys. ys.items ≡ xs.items ++ x ∷ []) }
{
    xs.push(x)?;
    Ok(xs)
}

/// One more argument in front of the others.
#[inline(never)]
pub(crate) fn argument(
    supply: &mut Supply,
    first: Box<Hoisted>,
    others: Box<Arguments>,
) -> Result<Box<Arguments>, Memory>
    ensures { IfOk result (λ all. DrawsFrom
        (canon.argument (plain_hoisted first.value) (plain_arguments others.value))
        supply.old.next (plain_arguments all.value) supply.new.next) }
{
    let first = in_front_of(supply, &others.front, first)?;
    let (first, others) = (Box::into_inner(first), Box::into_inner(others));
    let (rest, front) = keep_with(first.rest, first.front.before(supply.alloc, others.front))?;
    let (front, reversed) = keep_with(front, one_more(others.reversed, rest))?;
    Ok(Box::new(supply.alloc, Arguments { front, reversed })?)
}

/// An operator over two hoisted expressions.
#[inline(never)]
pub(crate) fn operate(alloc: Global, op: Bin, both: Box<Two>) -> Result<Box<Hoisted>, Memory>
    ensures { IfOk result (λ a.
        plain_hoisted a.value ≡ canon.over_two (tree.Binary op) (plain_two both.value)) }
{
    let both = Box::into_inner(both);
    let (front, rest) = keep_with(both.front, binary(alloc, op, both.left, both.right))?;
    Ok(Box::new(alloc, Hoisted { front, rest })?)
}

/// The word at a hoisted address.
#[inline(never)]
pub(crate) fn load_from(alloc: Global, a: Box<Hoisted>) -> Result<Box<Hoisted>, Memory>
    ensures { IfOk result (λ b.
        plain_hoisted b.value ≡ canon.over tree.Load (plain_hoisted a.value)) }
{
    let a = Box::into_inner(a);
    let (front, rest) = keep_with(a.front, load(alloc, a.rest))?;
    Ok(Box::new(alloc, Hoisted { front, rest })?)
}

/// The byte at a hoisted address.
#[inline(never)]
pub(crate) fn load_byte_from(alloc: Global, a: Box<Hoisted>) -> Result<Box<Hoisted>, Memory>
    ensures { IfOk result (λ b.
        plain_hoisted b.value ≡ canon.over tree.LoadByte (plain_hoisted a.value)) }
{
    let a = Box::into_inner(a);
    let (front, rest) = keep_with(a.front, load_byte(alloc, a.rest))?;
    Ok(Box::new(alloc, Hoisted { front, rest })?)
}

/// A service with a hoisted argument.
#[inline(never)]
pub(crate) fn serve(alloc: Global, number: u32, a: Box<Hoisted>) -> Result<Box<Hoisted>, Memory>
    ensures { IfOk result (λ b.
        plain_hoisted b.value ≡ canon.over (tree.Service number) (plain_hoisted a.value)) }
{
    let a = Box::into_inner(a);
    let (front, rest) = keep_with(a.front, service(alloc, number, a.rest))?;
    Ok(Box::new(alloc, Hoisted { front, rest })?)
}

/// A call with hoisted arguments.
#[inline(never)]
pub(crate) fn call_of(
    alloc: Global,
    label: Label,
    all: Box<Arguments>,
) -> Result<Box<Hoisted>, Memory>
    ensures { IfOk result (λ a.
        plain_hoisted a.value ≡ canon.over_all (tree.Call label.0) (plain_arguments all.value)) }
{
    let Arguments {
        front,
        mut reversed,
    } = Box::into_inner(all);
    reversed.reverse();
    let rest = call(label, reversed);
    Ok(Box::new(alloc, Hoisted { front, rest })?)
}

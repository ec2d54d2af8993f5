ghost use Rattle.std.specs.Prelude.{◌≡◌, IfOk, OnOk, reverse, if◌then◌else◌};
ghost use Rattle.tg_tree.specs.glue.Plain.{plain_ts};
ghost use Rattle.tg_tree.specs.glue.Lists.{stms_of};
ghost use Rattle.tg_tree.specs.Tree as tree;
ghost use Rattle.tg_canon.specs.glue.Views.{plain_part, plain_parts};
ghost use Rattle.tg_canon.specs.mirror.Canon as canon;
ghost use Rattle.tg_canon.specs.mirror.Canon.{◌before◌};

use std::alloc::Global;
use tg_base::{Memory, Temp};
use tg_tree::{Ts, repeat, sequence};

/// A statement, and the range of the body's own temporaries that it assigns, from the least to the
/// greatest. It assigns none where the least is above the greatest.
#[derive(Drop)]
pub(crate) struct Part {
    pub(crate) statement: Ts,
    pub(crate) least: u32,
    pub(crate) greatest: u32,
}

/// The statement that does nothing.
pub(crate) fn nothing(alloc: Global) -> Ts
    ensures { plain_ts result ≡ canon.nothing }
{
    sequence(Vec::new(alloc))
}

/// Whether a statement is the one that does nothing.
pub(crate) fn is_nothing(statement: &Ts) -> bool
    ensures { result ≡ canon.is_nothing (plain_ts statement.now) }
{
    match statement {
        Ts::Seq(inner) => inner.items.is_empty(),
        _ => false,
    }
}

// One statement, and then another.
fn pair(alloc: Global, first: Ts, second: Ts) -> Result<Ts, Memory>
    ensures { IfOk result (λ s. plain_ts s ≡ canon.pair (plain_ts first) (plain_ts second)) }
{
    Ok(sequence(vec![in alloc; first, second]?))
}

// The same, with nothing for what does nothing.
fn first_then(alloc: Global, first: Ts, second: Ts) -> Result<Ts, Memory>
    ensures { IfOk result (λ s. plain_ts s ≡ canon.first_then (plain_ts first) (plain_ts second)) }
{
    if is_nothing(&first) {
        Ok(second)
    } else if is_nothing(&second) {
        Ok(first)
    } else {
        Ok(pair(alloc, first, second)?)
    }
}

impl Part {
    /// One that assigns no temporary.
    pub(crate) fn still(statement: Ts) -> Part
        ensures { plain_part result ≡ canon.still (plain_ts statement) }
    {
        Part {
            statement,
            least: u32::MAX,
            greatest: 0,
        }
    }

    /// One that assigns one temporary.
    pub(crate) fn assigning(temp: Temp, statement: Ts) -> Part
        ensures { plain_part result ≡ canon.assigning temp.0 (plain_ts statement) }
    {
        Part {
            statement,
            least: temp.0,
            greatest: temp.0,
        }
    }

    /// Whether it may assign a temporary.
    pub(crate) fn may_assign(&self, temp: Temp) -> bool
        ensures { result ≡ canon.may_assign (plain_part self.now) temp.0 }
    {
        self.least <= temp.0 && temp.0 <= self.greatest
    }

    /// This one, and then another.
    pub(crate) fn before(self, alloc: Global, next: Part) -> Result<Part, Memory>
        ensures { IfOk result (λ p. plain_part p ≡ plain_part self before plain_part next) }
    {
        Ok(Part {
            least: self.least.min(next.least),
            greatest: self.greatest.max(next.greatest),
            statement: first_then(alloc, self.statement, next.statement)?,
        })
    }
}

/// A statement that leaves so many loops and one more.
#[inline(never)]
pub(crate) fn leaves(alloc: Global, loops: u32) -> Result<Box<Part>, Memory>
    ensures { IfOk result (λ p. plain_part p.value ≡ canon.still (tree.Break loops)) }
{
    Ok(Box::new(alloc, Part::still(Ts::Break(loops)))?)
}

/// A fault.
#[inline(never)]
pub(crate) fn faults(alloc: Global, number: u32) -> Result<Box<Part>, Memory>
    ensures { IfOk result (λ p. plain_part p.value ≡ canon.still (tree.Fault number)) }
{
    Ok(Box::new(alloc, Part::still(Ts::Fault(number)))?)
}

/// A part, and then another.
#[inline(never)]
pub(crate) fn both_parts(
    alloc: Global,
    first: Box<Part>,
    next: Box<Part>,
) -> Result<Box<Part>, Memory>
    ensures { IfOk result (λ p.
        plain_part p.value ≡ plain_part first.value before plain_part next.value) }
{
    let first = Box::into_inner(first);
    Ok(Box::new(alloc, first.before(alloc, Box::into_inner(next))?)?)
}

/// A part again and again.
#[inline(never)]
pub(crate) fn repeated(alloc: Global, part: Box<Part>) -> Result<Box<Part>, Memory>
    ensures { IfOk result (λ p. plain_part p.value ≡ canon.loop_of (plain_part part.value)) }
{
    let Part {
        statement,
        least,
        greatest,
    } = Box::into_inner(part);
    let statement = repeat(alloc, statement)?;
    Ok(Box::new(
        alloc,
        Part {
            statement,
            least,
            greatest,
        },
    )?)
}

/// A part in a loop that is left at its end: a break leads to what comes after it.
#[inline(never)]
pub(crate) fn block(alloc: Global, part: Box<Part>) -> Result<Box<Part>, Memory>
    ensures { IfOk result (λ p. plain_part p.value ≡ canon.block (plain_part part.value)) }
{
    let Part {
        statement,
        least,
        greatest,
    } = Box::into_inner(part);
    let statement = repeat(alloc, pair(alloc, statement, Ts::Break(0))?)?;
    Ok(Box::new(
        alloc,
        Part {
            statement,
            least,
            greatest,
        },
    )?)
}

/// Statements in turn, the first one last, as they are found from the right.
#[derive(Drop)]
pub(crate) struct Parts {
    pub(crate) reversed: Vec<Ts>,
    pub(crate) least: u32,
    pub(crate) greatest: u32,
}

impl Parts {
    /// None.
    #[inline(never)]
    pub(crate) fn new(alloc: Global) -> Result<Box<Parts>, Memory>
        ensures { IfOk result (λ all. plain_parts all.value ≡ canon.no_parts) }
    {
        let none = Parts {
            reversed: Vec::new(alloc),
            least: u32::MAX,
            greatest: 0,
        };
        Ok(Box::new(alloc, none)?)
    }

    /// One more in front of them.
    #[inline(never)]
    pub(crate) fn put_in_front(&mut self, part: Box<Part>) -> Result<(), Memory>
        ensures { OnOk result
            (plain_parts self.new ≡ canon.in_front (plain_part part.value) (plain_parts self.old)) }
    {
        let part = Box::into_inner(part);
        self.least = self.least.min(part.least);
        self.greatest = self.greatest.max(part.greatest);
        push_unless_nothing(&mut self.reversed, part.statement)
    }
}

/// All of them as one.
#[inline(never)]
pub(crate) fn in_turn(alloc: Global, all: Box<Parts>) -> Result<Box<Part>, Memory>
    ensures { IfOk result (λ p. plain_part p.value ≡ canon.in_turn (plain_parts all.value)) }
{
    let Parts {
        mut reversed,
        least,
        greatest,
    } = Box::into_inner(all);
    reversed.reverse();
    let statement = sequence(reversed);
    Ok(Box::new(
        alloc,
        Part {
            statement,
            least,
            greatest,
        },
    )?)
}

fn push_unless_nothing(reversed: &mut Vec<Ts>, statement: Ts) -> Result<(), Memory>
    ensures { OnOk result (stms_of (reverse reversed.new.items) ≡
        (if canon.is_nothing (plain_ts statement) then stms_of (reverse reversed.old.items)
        else tree.stm (plain_ts statement) (stms_of (reverse reversed.old.items)))) }
{
    if !is_nothing(&statement) {
        reversed.push(statement)?;
    }
    Ok(())
}

ghost use Rattle.std.specs.Prelude.{◌≡◌, OnOk};
ghost use Rattle.tg_redundancy.specs.mirror.Readings as readings;
ghost use Rattle.tg_redundancy.specs.mirror.Facts as facts;
ghost use Rattle.tg_redundancy.specs.mirror.Known.{most_facts};
ghost use Rattle.tg_redundancy.specs.glue.Facts as turns;

use crate::readings::{Reading, is_one_of, is_same, reads, reads_memory, same_reading};
use tg_base::{Memory, Temp};
use tg_instr::Opnd;
use tg_tree::Rel;

/// What is known at a place of a code.
#[derive(Clone, Copy)]
pub enum Fact {
    /// The temporary of this number has what is read so.
    Has(u32, Reading),
    /// The comparison doesn't hold.
    Untrue(Rel, Opnd, Opnd),
}

/// The most facts that are kept.
const MOST_FACTS: usize = 64;

/// The operand of a temporary's number.
pub(crate) fn temp(number: u32) -> Opnd
    ensures { result ≡ readings.temp number }
{
    Opnd::Temp(Temp(number))
}

// What an operand has, if it is this holder of what is read so, and that is moved from another.
fn moved_from(holder: u32, reading: Reading, operand: Opnd) -> Option<Opnd>
    ensures { result ≡ turns.moved_from holder reading operand }
{
    match reading {
        Reading::Moved(from) => if is_same(temp(holder), operand) {
            Some(from)
        } else {
            None
        },
        _ => None,
    }
}

// What an operand is known to have, by one fact.
fn moved_by(fact: Fact, operand: Opnd) -> Option<Opnd>
    ensures { result ≡ turns.moved_by fact operand }
{
    match fact {
        Fact::Has(holder, reading) => moved_from(holder, reading, operand),
        Fact::Untrue(_, _, _) => None,
    }
}

/// The operand that was known to have what this one has, or itself.
pub(crate) fn stands(list: &[Fact], operand: &Opnd) -> Opnd
    ensures { result ≡ facts.stands list.now operand.now }
{
    for fact in list {
        if let Some(from) = moved_by(*fact, *operand) {
            return from;
        }
    }
    *operand
}

/// A reading with the operands for which its own stand.
pub(crate) fn reread(list: &[Fact], reading: &Reading) -> Reading
    ensures { result ≡ readings.reread (facts.stands list.now) reading.now }
{
    match reading {
        Reading::Moved(from) => Reading::Moved(stands(list, from)),
        Reading::Loaded(bytes, base) => Reading::Loaded(*bytes, stands(list, base)),
        Reading::InSlot(slot) => Reading::InSlot(*slot),
        Reading::Sum(x, y) => Reading::Sum(stands(list, x), stands(list, y)),
        Reading::Plus(x, number) => Reading::Plus(stands(list, x), *number),
        Reading::ExactSum(x, y) => Reading::ExactSum(stands(list, x), stands(list, y)),
        Reading::ExactPlus(x, number) => Reading::ExactPlus(stands(list, x), *number),
        Reading::Shifted(x, by) => Reading::Shifted(stands(list, x), *by),
        Reading::Lower(x, y) => Reading::Lower(stands(list, x), stands(list, y)),
    }
}

// The temporary that has a word, by one fact, other than one.
fn held_by(to: u32, reading: Reading, fact: Fact) -> Option<u32>
    ensures { result ≡ turns.held_by to reading fact }
{
    match fact {
        Fact::Has(holder, had) => {
            if holder == to {
                None
            } else if same_reading(had, reading) {
                Some(holder)
            } else {
                None
            }
        }
        Fact::Untrue(_, _, _) => None,
    }
}

/// A temporary other than this one that has what is read so.
pub(crate) fn found(list: &[Fact], to: u32, reading: &Reading) -> Option<u32>
    ensures { result ≡ facts.found to reading.now list.now }
{
    for fact in list {
        if let Some(holder) = held_by(to, *reading, *fact) {
            return Some(holder);
        }
    }
    None
}

fn same_rel(one: Rel, other: Rel) -> bool
    ensures { result ≡ facts.same_rel one other }
{
    match one {
        Rel::Equal => matches!(other, Rel::Equal),
        Rel::NotEqual => matches!(other, Rel::NotEqual),
        Rel::Less => matches!(other, Rel::Less),
        Rel::LessEqual => matches!(other, Rel::LessEqual),
        Rel::Greater => matches!(other, Rel::Greater),
        Rel::GreaterEqual => matches!(other, Rel::GreaterEqual),
        Rel::Below => matches!(other, Rel::Below),
        Rel::NotBelow => matches!(other, Rel::NotBelow),
    }
}

// Whether a fact says that a comparison doesn't hold.
fn denies(rel: Rel, left: Opnd, right: Opnd, fact: Fact) -> bool
    ensures { result ≡ turns.denies rel left right fact }
{
    match fact {
        Fact::Has(_, _) => false,
        Fact::Untrue(other, x, y) => {
            same_rel(rel, other) && (is_same(left, x) && is_same(right, y))
        }
    }
}

/// Whether a comparison is known not to hold.
pub(crate) fn is_untrue(list: &[Fact], rel: Rel, left: &Opnd, right: &Opnd) -> bool
    ensures { result ≡ facts.is_untrue rel left.now right.now list.now }
{
    for fact in list {
        if denies(rel, *left, *right, *fact) {
            return true;
        }
    }
    false
}

// Whether a fact names an operand.
fn is_of(operand: &Opnd, fact: &Fact) -> bool
    ensures { result ≡ facts.is_of operand.now fact.now }
{
    match fact {
        Fact::Has(holder, reading) => is_same(temp(*holder), *operand) || reads(operand, reading),
        Fact::Untrue(_, left, right) => is_one_of(operand, left, right),
    }
}

// Whether a fact is of memory or of the frame.
fn is_of_memory(fact: Fact) -> bool
    ensures { result ≡ facts.is_of_memory fact }
{
    match fact {
        Fact::Has(_, reading) => reads_memory(reading),
        Fact::Untrue(_, _, _) => false,
    }
}

/// Forgets what names an operand, which is defined.
pub(crate) fn forget(list: &mut Vec<Fact>, operand: &Opnd)
    ensures { list.new.items ≡ facts.forget operand.now list.old.items }
{
    list.retain(|fact| !is_of(operand, fact));
}

/// Forgets what names one of these operands.
pub(crate) fn forget_each(list: &mut Vec<Fact>, operands: &[Opnd])
    ensures { list.new.items ≡ facts.forget_each operands.now list.old.items }
{
    for operand in operands {
        forget(list, operand);
    }
}

/// Forgets what was read of memory and of the frame, where one of them changes.
pub(crate) fn forget_memory(list: &mut Vec<Fact>)
    ensures { list.new.items ≡ facts.forget_memory list.old.items }
{
    list.retain(|fact| !is_of_memory(*fact));
}

/// Puts a fact in front, where so many are kept at most.
pub(crate) fn note(list: &mut Vec<Fact>, fact: Fact) -> Result<(), Memory>
    ensures { OnOk result (list.new.items ≡ facts.noted most_facts fact list.old.items) }
{
    // (the borrow checker has to be told of the types that a fact holds)
    let _opnd: Option<Opnd> = None;
    let _reading: Option<Reading> = None;
    list.truncate(MOST_FACTS - 1);
    list.insert(0, fact)?;
    Ok(())
}

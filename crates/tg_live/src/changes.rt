// What is live is kept as what comes and what goes at each place, and each set is made of the
// one before as the interference graph is built. A set for each place takes 8 bytes for each
// pair of a place and an operand that is live there: a call of 2,000 arguments that are calls
// has 8 million pairs and 10,000 changes.

ghost use Rattle.std.specs.Prelude.{
  ◌≡◌,
  ◌<◌,
  ◌++◌,
  ◌∷◌,
  ◌&&◌,
  [],
  ℕ,
  suc,
  false,
  not,
  nat_eq,
  nat_lt,
  length,
  replicate,
  if◌then◌else◌,
  IsTrue,
  OnOk,
  IfOk,
};
ghost use Rattle.std.specs.List.{list_any, list_all};
ghost use Rattle.tg_live.specs.glue.Tables.{row};
ghost use Rattle.tg_live.specs.mirror.Search.{has_stamp, has_stamp_before};
ghost use Rattle.tg_live.specs.glue.LiveChanges.{ends_in};

use crate::operands::ends_in;
use crate::searches::Search;
use crate::tables::OperandTable;
use std::alloc::Global;
use tg_base::Memory;
use tg_instr::Opnd;

/// What comes to what is live at each place of a code, and what goes, in the order of the code. An
/// operand that is searched for later stands after the others in each row.
#[derive(Drop)]
pub(crate) struct LiveChanges {
    comes: OperandTable,
    goes: OperandTable,
}

impl LiveChanges {
    /// No changes, for so many places.
    pub(crate) fn new(alloc: Global, count: usize) -> Result<LiveChanges, Memory>
        ensures comes { IfOk result (λ c. c.comes ≡ replicate count []) }
        ensures goes { IfOk result (λ c. c.goes ≡ replicate count []) }
    {
        Ok(LiveChanges {
            comes: OperandTable::with_rows(alloc, count)?,
            goes: OperandTable::with_rows(alloc, count)?,
        })
    }

    /// What comes at a place.
    pub(crate) fn comes(&self, at: usize) -> &[Opnd]
        ensures { result.now ≡ row self.now.comes at }
    {
        self.comes.row(at)
    }

    /// What goes at a place.
    pub(crate) fn goes(&self, at: usize) -> &[Opnd]
        ensures { result.now ≡ row self.now.goes at }
    {
        self.goes.row(at)
    }

    /// Adds the changes of an operand that was searched for.
    pub(crate) fn add(&mut self, one: &Opnd, search: &Search, stamp: usize) -> Result<(), Memory>
        requires within_firsts { IsTrue (list_all (λ k. nat_lt k (length search.now.marks))
            search.now.firsts) }
        requires within_lasts { IsTrue (list_all (λ k. nat_lt k (length search.now.marks))
            search.now.lasts) }
        requires sized_comes { length self.old.comes ≡ length search.now.marks }
        requires sized_goes { length self.old.goes ≡ length search.now.marks }
        requires fresh_comes { (q : ℕ) → ends_in one.now (row self.old.comes q) ≡ false }
        requires fresh_goes { (q : ℕ) → ends_in one.now (row self.old.goes q) ≡ false }
        ensures sized_comes { OnOk result (length self.new.comes ≡ length self.old.comes) }
        ensures sized_goes { OnOk result (length self.new.goes ≡ length self.old.goes) }
        ensures comes { OnOk result ((q : ℕ) → row self.new.comes q ≡
            (if list_any (nat_eq q) search.now.firsts
            && not (has_stamp_before stamp search.now.marks q)
            then row self.old.comes q ++ one.now ∷ [] else row self.old.comes q)) }
        ensures goes { OnOk result ((q : ℕ) → q < length self.old.goes → row self.new.goes q ≡
            (if list_any (λ p. nat_eq q (suc p)) search.now.lasts
            && not (has_stamp stamp search.now.marks q)
            then row self.old.goes q ++ one.now ∷ [] else row self.old.goes q)) }
    {
        add_comes(&mut self.comes, one, search, stamp)?;
        add_goes(&mut self.goes, one, search, stamp)
    }
}

// Puts an operand into the row of each place at which it comes: at the one before it isn't live.
fn add_comes(
    comes: &mut OperandTable,
    one: &Opnd,
    search: &Search,
    stamp: usize,
) -> Result<(), Memory>
    requires within { IsTrue (list_all (λ k. nat_lt k (length search.now.marks))
        search.now.firsts) }
    requires sized { length comes.old ≡ length search.now.marks }
    requires fresh { (q : ℕ) → ends_in one.now (row comes.old q) ≡ false }
    ensures sized { OnOk result (length comes.new ≡ length comes.old) }
    ensures rows { OnOk result ((q : ℕ) → row comes.new q ≡
        (if list_any (nat_eq q) search.now.firsts
        && not (has_stamp_before stamp search.now.marks q)
        then row comes.old q ++ one.now ∷ [] else row comes.old q)) }
{
    for index in 0..search.first_count() {
        add_start(comes, one, search, stamp, search.first(index))?;
    }
    Ok(())
}

// Puts an operand into the row of a place that it is live out of, where it comes there.
fn add_start(
    comes: &mut OperandTable,
    one: &Opnd,
    search: &Search,
    stamp: usize,
    place: u32,
) -> Result<(), Memory>
    requires within { place < length search.now.marks }
    requires sized { length comes.old ≡ length search.now.marks }
    ensures sized { OnOk result (length comes.new ≡ length comes.old) }
    ensures rows { OnOk result ((q : ℕ) → row comes.new q ≡
        (if (nat_eq q place && not (has_stamp_before stamp search.now.marks q))
        && not (ends_in one.now (row comes.old q))
        then row comes.old q ++ one.now ∷ [] else row comes.old q)) }
{
    if search.has_stamp_before(stamp, place as usize) {
        return Ok(());
    }
    push_once(comes, place as usize, one)
}

// Puts an operand into the row of each place at which it goes: it is live out of the one before.
fn add_goes(
    goes: &mut OperandTable,
    one: &Opnd,
    search: &Search,
    stamp: usize,
) -> Result<(), Memory>
    requires within { IsTrue (list_all (λ k. nat_lt k (length search.now.marks))
        search.now.lasts) }
    requires sized { length goes.old ≡ length search.now.marks }
    requires fresh { (q : ℕ) → ends_in one.now (row goes.old q) ≡ false }
    ensures sized { OnOk result (length goes.new ≡ length goes.old) }
    ensures rows { OnOk result ((q : ℕ) → q < length goes.old → row goes.new q ≡
        (if list_any (λ p. nat_eq q (suc p)) search.now.lasts
        && not (has_stamp stamp search.now.marks q)
        then row goes.old q ++ one.now ∷ [] else row goes.old q)) }
{
    for index in 0..search.last_count() {
        add_end(goes, one, search, stamp, search.last(index))?;
    }
    Ok(())
}

// Puts an operand into the row after a place that it is live out of, where it goes there.
fn add_end(
    goes: &mut OperandTable,
    one: &Opnd,
    search: &Search,
    stamp: usize,
    place: u32,
) -> Result<(), Memory>
    requires within { place < length search.now.marks }
    requires sized { length goes.old ≡ length search.now.marks }
    ensures sized { OnOk result (length goes.new ≡ length goes.old) }
    ensures rows { OnOk result ((q : ℕ) → q < length goes.old → row goes.new q ≡
        (if (nat_eq q (suc place) && not (has_stamp stamp search.now.marks q))
        && not (ends_in one.now (row goes.old q))
        then row goes.old q ++ one.now ∷ [] else row goes.old q)) }
{
    let next = place as usize + 1;
    if next >= goes.len() || search.has_stamp(stamp, next) {
        return Ok(());
    }
    push_once(goes, next, one)
}

// Puts an operand at the end of a row, unless the row ends in it.
fn push_once(rows: &mut OperandTable, at: usize, one: &Opnd) -> Result<(), Memory>
    requires { at < length rows.old }
    ensures sized { OnOk result (length rows.new ≡ length rows.old) }
    ensures rows { OnOk result ((q : ℕ) → row rows.new q ≡
        (if nat_eq q at && not (ends_in one.now (row rows.old q))
        then row rows.old q ++ one.now ∷ [] else row rows.old q)) }
{
    if ends_in(one, rows.row(at)) {
        return Ok(());
    }
    rows.push(at, *one)
}

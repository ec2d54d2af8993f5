ghost use Rattle.std.specs.Prelude.{
  ◌≡◌,
  ◌<◌,
  ◌+◌,
  ◌^◌,
  ◌∷◌,
  [],
  ◌++◌,
  List,
  IfOk,
  OnErr,
  OnOk,
  length,
  replicate,
  slice_index_or,
  slice_set,
  sum,
};
ghost use Rattle.tg_coalescing_round.specs.glue.Lists as lists_by;
ghost use Rattle.tg_coalescing_round.specs.glue.Lists.{conjoined, list_at, numbers_in, poured, pushed};

use smallvec::SmallVec;
use std::alloc::Global;
use std::mem;
use tg_base::Memory;

/// A list of numbers, which takes no memory of its own while it is short.
pub(crate) type Numbers = SmallVec<u32, 4>;

/// As many empty lists.
pub(crate) fn empty_lists(alloc: Global, count: u32) -> Result<Vec<Numbers>, Memory>
    ensures { IfOk result (λ v. numbers_in v.items ≡ replicate count []) }
{
    let mut lists = Vec::with_capacity(alloc, count as usize)?;
    for _ in 0..count {
        lists.push(SmallVec::new(alloc))?;
    }
    Ok(lists)
}

/// For each number below a number a list of it alone.
pub(crate) fn singletons(alloc: Global, count: u32) -> Result<Vec<Numbers>, Memory>
    ensures { IfOk result (λ v. numbers_in v.items ≡ lists_by.singletons count) }
{
    let mut lists = Vec::with_capacity(alloc, count as usize)?;
    for number in 0..count {
        lists.push(singleton(alloc, number))?;
    }
    Ok(lists)
}

fn singleton(alloc: Global, number: u32) -> Numbers
    ensures { result.items ≡ number ∷ [] }
{
    let mut list = SmallVec::new(alloc);
    list.push_reserved(number);
    list
}

/// Puts a number last in one of the lists.
pub(crate) fn push_to(lists: &mut Vec<Numbers>, at: u32, number: u32) -> Result<(), Memory>
    requires { at < length lists.old.items }
    ensures ok { OnOk result
        (numbers_in lists.new.items ≡ pushed at number (numbers_in lists.old.items)) }
    ensures err { OnErr result (numbers_in lists.new.items ≡ numbers_in lists.old.items) }
{
    let list = &mut lists[at as usize];
    list.push(number)?;
    Ok(())
}

/// Puts all numbers of the list at `from` after those of the list at `to`, and leaves none there.
pub(crate) fn pour(lists: &mut Vec<Numbers>, to: u32, from: u32) -> Result<(), Memory>
    requires first { to < length lists.old.items }
    requires second { from < length lists.old.items }
    ensures ok { OnOk result
        (numbers_in lists.new.items ≡ poured to from (numbers_in lists.old.items)) }
    ensures err { OnErr result (numbers_in lists.new.items ≡ numbers_in lists.old.items) }
{
    let moved = take_list(lists, from)?;
    if extend_list(lists, to, &moved).is_err() {
        lists[from as usize] = moved;
        return Err(Memory);
    }
    Ok(())
}

/// Takes one of the lists out, and leaves an empty one in its place.
fn take_list(lists: &mut Vec<Numbers>, at: u32) -> Result<Numbers, Memory>
    requires { at < length lists.old.items }
    ensures taken { IfOk result (λ v. v.items ≡ list_at (numbers_in lists.old.items) at) }
    ensures left { OnOk result
        (numbers_in lists.new.items ≡ slice_set (numbers_in lists.old.items) at []) }
    ensures err { OnErr result (numbers_in lists.new.items ≡ numbers_in lists.old.items) }
{
    let list = &mut lists[at as usize];
    Ok(mem::try_take(list)?)
}

/// Puts numbers after those of one of the lists.
fn extend_list(lists: &mut Vec<Numbers>, at: u32, more: &[u32]) -> Result<(), Memory>
    requires { at < length lists.old.items }
    ensures ok { OnOk result
        (numbers_in lists.new.items ≡
        (let lists = numbers_in lists.old.items in
        slice_set lists at (list_at lists at ++ more.now))) }
    ensures err { OnErr result (numbers_in lists.new.items ≡ numbers_in lists.old.items) }
{
    let list = &mut lists[at as usize];
    list.extend_from_slice(more)?;
    Ok(())
}

/// Adds the number at one place to that at another, and leaves 0 there.
pub(crate) fn move_sum(sums: &mut [u32], to: u32, from: u32)
    requires first { to < length sums.old }
    requires second { from < length sums.old }
    requires few { sum sums.old < 2 ^ 32 }
    ensures { sums.new ≡ lists_by.moved_sum to from sums.old }
{
    let more = sums[from as usize];
    sums[from as usize] = 0;
    sums[to as usize] += more;
}

/// Makes one place tell whether both hold.
pub(crate) fn conjoin(list: &mut [bool], to: u32, from: u32)
    requires first { to < length list.old }
    requires second { from < length list.old }
    ensures { list.new ≡ conjoined to from list.old }
{
    list[to as usize] = list[to as usize] && list[from as usize];
}

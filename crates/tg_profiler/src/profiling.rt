ghost use Rattle.std.specs.Prelude.{◌≡◌, ◌≤◌, ◌<◌, ◌^◌, [], length, take, slice_get, slice_index};
ghost use Rattle.std.specs.Prelude.{slice_index_or, MatchOption};
ghost use Rattle.tg_profiler.specs.Reports.{count_line, counted_names, profile_report};
ghost use Rattle.tg_profiler.specs.glue.Counting.{HasCount, lines_of};
ghost use Rattle.tg_profiler.specs.glue.Standing.{Counts};

use crate::lines::{put, put_decimal};
use crate::rows::{row_name, row_number};
use crate::watchers::Watcher;
use std::alloc::Global;
use tg_base::Memory;
use tg_machine::Seen;

/// How many instructions of each row were fetched. Its report has a line for all, one for each row
/// that was fetched, in the order of the instruction table, and one for words outside it, if any.
#[derive(Drop)]
pub struct Profile {
    steps: u64,
    counts: [u64; 43],
}

impl Profile {
    /// A profile that takes no memory, now or when it is begun.
    pub fn new(_alloc: Global) -> Self {
        Profile {
            steps: 0,
            counts: [0; 43],
        }
    }
}

impl Watcher for Profile {
    ghost stands = { λ p. Counts p.steps p.counts };

    ghost report = { λ _. profile_report };

    fn begin(&mut self, _code: u32) -> Result<(), Memory> {
        self.steps = 0;
        self.counts = [0; 43];
        Ok(())
    }

    fn see(&mut self, seen: &Seen) {
        self.counts[row_number(seen.word)] += 1;
        self.steps += 1;
    }

    fn line(&self, at: u32, into: &mut [u8; 64]) -> Option<usize> {
        if at == 0 {
            return Some(put_count(into, "steps", self.steps));
        }
        match counted(&self.counts, at - 1) {
            Some(number) => Some(put_count(into, row_name(number), self.counts[number])),
            None => None,
        }
    }
}

/// The number of the row whose count is the one with so many before it that aren't 0.
fn counted(counts: &[u64; 43], before: u32) -> Option<usize>
    ensures { MatchOption result (length (lines_of counted_names counts.now) ≤ before)
        (λ k. HasCount counted_names counts.now before k) }
{
    let mut left = before;
    for number in 0..43 {
        if counts[number] != 0 {
            if left == 0 {
                return Some(number);
            }
            left -= 1;
        }
    }
    None
}

/// Puts the line of a name and a count at the front, and answers its length.
fn put_count(into: &mut [u8; 64], name: &str, count: u64) -> usize
    requires { length name.now ≤ 8 }
    ensures size { result ≤ 64 }
    ensures line { take result into.new ≡ count_line name.now count }
{
    let size = put(into, 0, name.as_bytes());
    let size = put(into, size, b" ");
    put_decimal(into, size, count)
}

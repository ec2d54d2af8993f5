ghost use Rattle.std.specs.Prelude.{◌≡◌, ◌≤◌, take};
ghost use Rattle.tg_profiler.specs.Reports.{seen_line, trace_report};
ghost use Rattle.tg_profiler.specs.glue.Standing.{Holds};

use crate::lines::{put, word_in_hex};
use crate::watchers::Watcher;
use std::alloc::Global;
use tg_base::Memory;
use tg_machine::Seen;

/// The last 16 fetches of a run. Its report has a line for each, oldest first: the place and the
/// word.
#[derive(Drop)]
pub struct Trace {
    ring: [Seen; 16],
    count: u64,
}

impl Trace {
    /// A trace that takes no memory, now or when it is begun.
    pub fn new(_alloc: Global) -> Self {
        let none = Seen { place: 0, word: 0 };
        Trace {
            ring: [none; 16],
            count: 0,
        }
    }
}

impl Watcher for Trace {
    ghost stands = { λ t. Holds t.ring t.count };

    ghost report = { λ _. trace_report };

    fn begin(&mut self, _code: u32) -> Result<(), Memory> {
        self.count = 0;
        Ok(())
    }

    fn see(&mut self, seen: &Seen) {
        self.ring[(self.count % 16) as usize] = *seen;
        self.count += 1;
    }

    fn line(&self, at: u32, into: &mut [u8; 64]) -> Option<usize> {
        if u64::from(at) >= self.count.min(16) {
            return None;
        }
        let number = self.count.saturating_sub(16) + u64::from(at);
        Some(put_seen(into, &self.ring[(number % 16) as usize]))
    }
}

/// Puts the line of a fetch at the front, and answers its length.
fn put_seen(into: &mut [u8; 64], seen: &Seen) -> usize
    ensures size { result ≤ 64 }
    ensures line { take result into.new ≡ seen_line seen.now }
{
    let size = put(into, 0, &word_in_hex(seen.place));
    let size = put(into, size, b" ");
    put(into, size, &word_in_hex(seen.word))
}

ghost use Rattle.std.specs.Prelude.{◌≡◌, ◌≤◌, take};
ghost use Rattle.tg_profiler.specs.Reports.{coverage_report, covered_line};
ghost use Rattle.tg_profiler.specs.glue.Standing.{Covers};

use crate::lines::{put, put_decimal};
use crate::watchers::Watcher;
use std::alloc::Global;
use tg_base::Memory;
use tg_machine::Seen;
use tg_machine_state::CODE_BASE;

/// Which words of the code were fetched. Its report is one line: how many, and of how many.
#[derive(Drop)]
pub struct Coverage {
    flags: Vec<bool>,
    count: u64,
}

impl Coverage {
    /// A coverage that takes no memory. When it is begun it takes a byte for each word of the code.
    pub fn new(alloc: Global) -> Self {
        Coverage {
            flags: Vec::new(alloc),
            count: 0,
        }
    }
}

impl Watcher for Coverage {
    ghost stands = { λ c. Covers c.flags.items c.count };

    ghost report = { λ _. coverage_report };

    fn begin(&mut self, code: u32) -> Result<(), Memory> {
        self.count = 0;
        self.flags.clear();
        self.flags.resize(code as usize, false)?;
        Ok(())
    }

    fn see(&mut self, seen: &Seen) {
        let at = ((seen.place - CODE_BASE) / 4) as usize;
        if !self.flags[at] {
            self.flags[at] = true;
            self.count += 1;
        }
    }

    fn line(&self, at: u32, into: &mut [u8; 64]) -> Option<usize> {
        if at == 0 {
            Some(put_covered(into, self.count, self.flags.len() as u64))
        } else {
            None
        }
    }
}

/// Puts the line of so many words of so many at the front, and answers its length.
fn put_covered(into: &mut [u8; 64], count: u64, words: u64) -> usize
    ensures size { result ≤ 64 }
    ensures line { take result into.new ≡ covered_line count words }
{
    let size = put(into, 0, b"covered ");
    let size = put_decimal(into, size, count);
    let size = put(into, size, b" of ");
    put_decimal(into, size, words)
}

ghost use Rattle.std.specs.Prelude.{IfOk};
ghost use Rattle.tg_canon.specs.mirror.Drawing.{DrawsFrom, fresh};

use std::alloc::Global;
use tg_base::{Memory, Temp};

/// A function has at most so many temporaries.
const MOST_TEMPORARIES: u32 = 4_194_304;

/// What the pass over one body draws from: memory, and the temporaries from a number on that
/// nothing uses.
#[derive(Drop)]
pub(crate) struct Supply {
    pub(crate) alloc: Global,
    pub(crate) next: u32,
}

impl Supply {
    /// A temporary that nothing else uses.
    pub(crate) fn fresh(&mut self) -> Result<Temp, Memory>
        ensures { IfOk result (λ t. DrawsFrom fresh self.old.next t.0 self.new.next) }
    {
        if self.next >= MOST_TEMPORARIES {
            return Err(Memory);
        }
        let temp = Temp(self.next);
        self.next += 1;
        Ok(temp)
    }
}

ghost use Rattle.std.specs.Prelude.{◌≡◌};
ghost use Rattle.tg_machine.specs.Fetches.{seen_next, seen_of};

use crate::cores::Core;
use crate::machines::Machine;
use crate::words::offset;
use tg_machine_state::CODE_BASE;

/// What a step fetches: a place in the code, and the word that stands there.
#[derive(Clone, Copy)]
pub struct Seen {
    /// The address of the word, a multiple of 4.
    pub place: u32,
    /// The word.
    pub word: u32,
}

impl Core {
    /// What the next step fetches. None comes exactly where its place isn't a multiple of 4 or is
    /// outside the code.
    #[inline(always)]
    pub fn seen(&self) -> Option<Seen>
        ensures { result ≡ seen_of self.now }
    {
        if self.place % 4 != 0 {
            return None;
        }
        match offset(self.place, CODE_BASE, 4 * self.code.len()) {
            Some(at) => Some(Seen {
                place: self.place,
                word: self.code[at / 4],
            }),
            None => None,
        }
    }
}

impl Machine {
    /// What the next step fetches. None comes exactly where the machine has ended, or its place
    /// isn't a multiple of 4 or is outside the code. It takes no memory.
    #[inline(always)]
    pub fn fetch(&self) -> Option<Seen>
        ensures { result ≡ seen_next self.now }
    {
        match self.end {
            Some(_) => None,
            None => self.core.seen(),
        }
    }
}

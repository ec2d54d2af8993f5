ghost use Rattle.std.specs.Prelude.{◌≡◌};
ghost use Rattle.tg_bare.specs.glue.Inside.{machine_at, machine_of};
ghost use Rattle.tg_bare.specs.glue.Pauses.{BarePauses};

use crate::advancing::advance;
use crate::pauses::Pause;
use crate::places::Places;
use tg_machine::{Core, Row};

/// A program in memory, whose place is that of the next step, with the place of the step behind
/// that one, and whether the next step is in a delay slot.
#[derive(Drop)]
pub(crate) struct BareCore {
    pub(crate) core: Core,
    pub(crate) next: u32,
    pub(crate) in_slot: bool,
}

impl BareCore {
    /// Goes on at other places.
    #[inline(always)]
    fn stand(&mut self, at: Places)
        ensures { machine_of self.new ≡ machine_at self.old.core at }
    {
        self.core.go(at.place);
        self.next = at.next;
        self.in_slot = at.in_slot;
    }

    /// Makes at most so many steps, up to a service. Where one is due, its place was passed. It has
    /// no type parameters, so that a program has one such loop.
    #[inline(never)]
    pub(crate) fn run_alone(&mut self, steps: u64) -> Pause
        ensures { BarePauses steps (machine_of self.old) (machine_of self.new) result }
    {
        let mut at = Places {
            place: self.core.place(),
            next: self.next,
            in_slot: self.in_slot,
        };
        for made in 0..steps {
            let Some(one) = self.core.row_at(at.place) else {
                return Pause::Ended(self.core.outside(at.place));
            };
            if let Row::Syscall = one {
                self.stand(Places {
                    place: at.next,
                    next: at.next.wrapping_add(4),
                    in_slot: false,
                });
                return Pause::Due(made);
            }
            match advance(&mut self.core, one, at) {
                Ok(there) => at = there,
                Err(end) => return Pause::Ended(end),
            }
        }
        self.stand(at);
        Pause::Made
    }
}

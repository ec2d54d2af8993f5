// What watchers stand for is a relation, since their counters fit many lists of fetches. Their
// reports are functions of such a list, and the contract of `tiger` names those alone.

ghost use Rattle.std.specs.Prelude.{◌≡◌, ◌<◌, ◌^◌, [], ℕ, List, length, OnOk};
ghost use Rattle.tg_machine.specs.declared.fetches.Seen.{Seen};
ghost use Rattle.tg_profiler.specs.Watching.{Report};
ghost use Rattle.tg_profiler.specs.Watchers.{CanSee, HasLine, Sees, StandsForSome};

use tg_base::Memory;
use tg_machine::Seen;

/// What sees the fetches of a run, and tells a report of them. Its meaning is a relation: it stands
/// for a list of fetches over a code of so many words. Its report is a function of that list and of
/// that number, which no call changes.
pub trait Watcher: Drop {
    ghost stands: { Self → List Seen → ℕ → Type 0 };

    ghost report: { Self → Report };

    /// Begins anew, over a code of so many words. It takes the memory that it needs; after
    /// `Memory` it stands for nothing, and may be begun again.
    fn begin(&mut self, code: u32) -> Result<(), Memory>
        ensures begun { OnOk result (stands self.new [] code) }
        ensures same { report self.new ≡ report self.old };

    /// Sees a fetch more, whose place is in the code. It takes no memory.
    fn see(&mut self, seen: &Seen)
        requires { CanSee (stands self.old) seen.now }
        ensures seen { Sees (stands self.old) (stands self.new) seen.now }
        ensures same { report self.new ≡ report self.old };

    /// Line `at` of the report, counted from 0, at the front of `into` and without a newline, with
    /// its length; None where the report has no such line.
    fn line(&self, at: u32, into: &mut [u8; 64]) -> Option<usize>
        requires { StandsForSome (stands self.now) }
        ensures line { (s : List Seen) (code : ℕ) → stands self.now s code →
            HasLine (report self.now s code) at into.new result }
        ensures few { (s : List Seen) (code : ℕ) → stands self.now s code →
            length (report self.now s code) < 2 ^ 32 };
}

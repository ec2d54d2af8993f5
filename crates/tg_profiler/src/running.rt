ghost use Rattle.std.specs.Prelude.{
  ◌≡◌,
  ◌<◌,
  ◌≤◌,
  ◌^◌,
  [],
  List,
  All,
  length,
  map,
  None,
  IfSome,
  OnOk,
};
ghost use Rattle.tg_machine.specs.declared.fetches.Seen.{Seen};
ghost use Rattle.tg_machine.specs.Fetches.{IsWatched, seen_next};
ghost use Rattle.tg_machine.specs.Machines.{HasEnded};
ghost use Rattle.tg_profiler.specs.Watchers.{
  AllSee,
  CanAllSee,
  CanSee,
  HaveAllSeen,
  HaveSeen,
  Sees,
};

use crate::watchers::Watcher;
use tg_base::{Memory, Sink, Source};
use tg_machine::{Machine, RunEnd, Seen, Status};

/// Begins each watcher anew, over a code of so many words. After `Memory` some may have begun.
pub fn begin_all(watchers: &mut Vec<Box<dyn Watcher>>, code: u32) -> Result<(), Memory>
    ensures begun { OnOk result (All (λ w. stands w [] code) watchers.new.items) }
    ensures same { map (λ w. report w) watchers.new.items
        ≡ map (λ w. report w) watchers.old.items }
{
    for watcher in watchers.iter_mut() {
        begin_one(watcher, code)?;
    }
    Ok(())
}

/// Begins a watcher anew.
fn begin_one(watcher: &mut Box<dyn Watcher>, code: u32) -> Result<(), Memory>
    ensures begun { OnOk result (stands watcher.new [] code) }
    ensures same { report watcher.new ≡ report watcher.old }
{
    watcher.begin(code)
}

/// Makes at most `steps` steps, as `run` of the machine does, and shows each watcher what each of
/// them fetches. A machine that has ended answers its end again, and the watchers see nothing. It
/// takes no memory.
pub fn run_watched<I: Source, O: Sink>(
    machine: &mut Machine,
    watchers: &mut Vec<Box<dyn Watcher>>,
    input: &mut I,
    out: &mut O,
    steps: u64,
) -> RunEnd
    requires some { 0 < steps }
    requires few { steps ≤ 2 ^ 62 }
    requires empty { All (λ w. stands w [] (length machine.old.state.code)) watchers.old.items }
    ensures run { machine.old.end ≡ None → (seen : List Seen)
        × IsWatched I.left I.faults O.taken O.faults steps machine.old machine.new
        input.old input.new out.old out.new result seen
        × HaveSeen (λ w. stands w) (λ w. report w) watchers.old.items watchers.new.items seen
        (length machine.old.state.code) }
    ensures again { IfSome machine.old.end (λ e. (result ≡ e)
        × HasEnded machine.old machine.new input.old input.new out.old out.new
        × (watchers.new.items ≡ watchers.old.items)) }
{
    for _ in 0..steps {
        show_next(machine, watchers);
        if let Status::Ended(end) = machine.step(input, out) {
            return end;
        }
    }
    RunEnd::StepLimit
}

/// Shows each watcher what the next step fetches, if its place is in the code.
#[inline(always)]
fn show_next(machine: &Machine, watchers: &mut Vec<Box<dyn Watcher>>)
    requires { IfSome (seen_next machine.now)
        (λ x. CanAllSee (λ w. stands w) watchers.old.items x) }
    ensures { HaveAllSeen (λ w. stands w) (λ w. report w) watchers.old.items watchers.new.items
        (seen_next machine.now) }
{
    if let Some(seen) = machine.fetch() {
        see_all(watchers, &seen);
    }
}

/// Shows a fetch to each watcher.
#[inline(always)]
fn see_all(watchers: &mut Vec<Box<dyn Watcher>>, seen: &Seen)
    requires { CanAllSee (λ w. stands w) watchers.old.items seen.now }
    ensures { AllSee (λ w. stands w) (λ w. report w) watchers.old.items watchers.new.items
        seen.now }
{
    for watcher in watchers.iter_mut() {
        see_one(watcher, seen);
    }
}

/// Shows a fetch to a watcher.
#[inline(always)]
fn see_one(watcher: &mut Box<dyn Watcher>, seen: &Seen)
    requires { CanSee (stands watcher.old) seen.now }
    ensures seen { Sees (stands watcher.old) (stands watcher.new) seen.now }
    ensures same { report watcher.new ≡ report watcher.old }
{
    watcher.see(seen);
}

ghost use Rattle.std.specs.Prelude.{◌≡◌, ◌≢◌, ◌<◌, ◌+◌, ◌*◌, ◌&&◌, ℕ, nat_le, MatchOption};
ghost use Rattle.tg_machine_state.specs.State.{code_base};
ghost use Rattle.tg_machine.specs.Fetches.{if_seen};
ghost use Rattle.tg_page.specs.Stops.{AreCounted, RunsToStop, next_is_at};

use tg_base::{Sink, Source};
use tg_machine::{Machine, Seen, Status};
use tg_machine_state::CODE_BASE;

/// Where a run is to stop: after so many steps at the latest, and at these places in the code once
/// the steps that pass them over are made.
#[derive(Clone, Copy)]
pub(crate) struct Stops<'a> {
    pub(crate) steps: u64,
    pub(crate) passing: u64,
    pub(crate) breakpoints: &'a [u32],
}

/// Runs a machine to a stop, counts what it fetches, and answers how many steps were made.
pub(crate) fn run_to_stop<I: Source, O: Sink>(
    machine: &mut Machine,
    input: &mut I,
    out: &mut O,
    stops: Stops<'_>,
    counts: &mut [u32],
) -> u64
    requires begun { machine.old.end ≡ None }
    requires fresh { machine.old.written ≡ 0 }
    ensures { RunsToStop I.left I.faults O.taken O.faults stops.entry.steps stops.entry.passing
        stops.entry.breakpoints.now machine.old machine.new input.old input.new out.old out.new
        counts.old counts.new result }
{
    for made in 0..stops.steps {
        let next = machine.fetch();
        if stops_here(stops, made, next) {
            return made;
        }
        count(next, counts);
        if let Status::Ended(_) = machine.step(input, out) {
            return made + 1;
        }
    }
    stops.steps
}

/// Whether a run stops after so many steps, before what is fetched next.
fn stops_here(stops: Stops<'_>, made: u64, next: Option<Seen>) -> bool
    ensures { result ≡ (nat_le stops.entry.passing made
        && next_is_at stops.entry.breakpoints.now next) }
{
    made >= stops.passing && is_at(stops.breakpoints, next)
}

/// Whether what is fetched next is at one of these places.
fn is_at(breakpoints: &[u32], next: Option<Seen>) -> bool
    ensures { result ≡ next_is_at breakpoints.now next }
{
    match next {
        Some(seen) => breakpoints.contains(&seen.place),
        None => false,
    }
}

/// Counts a fetch at its word of the code.
fn count(next: Option<Seen>, counts: &mut [u32])
    ensures { AreCounted (if_seen next) counts.old counts.new }
{
    if let Some(seen) = next {
        if let Some(at) = word_number(seen, counts.len()) {
            counts[at] = counts[at].saturating_add(1);
        }
    }
}

/// The number of the word of the code that is fetched, where it is one of the first so many.
fn word_number(seen: Seen, words: usize) -> Option<usize>
    ensures { MatchOption result ((k : ℕ) → k < words → seen.place ≢ code_base + 4 * k)
        (λ at. (at < words) × (seen.place ≡ code_base + 4 * at)) }
{
    if seen.place < CODE_BASE {
        return None;
    }
    let above = seen.place - CODE_BASE;
    let at = (above / 4) as usize;
    if above % 4 == 0 && at < words {
        Some(at)
    } else {
        None
    }
}

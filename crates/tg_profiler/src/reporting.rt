ghost use Rattle.std.specs.Prelude.{◌++◌, ◌∷◌, ◌<◌, ◌^◌, [], ℕ, List, All, length, map};
ghost use Rattle.tg_machine.specs.declared.fetches.Seen.{Seen};
ghost use Rattle.tg_profiler.specs.Told.{report_text, reports_text};
ghost use Rattle.tg_profiler.specs.Telling.{HasTold, StandForOne};
ghost use Rattle.tg_profiler.specs.Watchers.{HasLine, StandsForSome};

use crate::watchers::Watcher;
use tg_base::{Failed, Sink, write_all};

/// Writes the report of each watcher in turn, line by line, each with a newline. It takes no
/// memory. After `Failed` the sink has taken a prefix of them.
pub fn write_reports<E: Sink>(watchers: &[Box<dyn Watcher>], err: &mut E) -> Result<(), Failed>
    requires { StandForOne (λ w. stands w) watchers.now }
    ensures { (seen : List Seen) (code : ℕ) → All (λ w. stands w seen code) watchers.now
        → HasTold E.taken E.faults err.old err.new result
        (reports_text (map (λ w. report w) watchers.now) seen code) }
{
    for watcher in watchers {
        write_report(watcher, err)?;
    }
    Ok(())
}

/// Writes the report of a watcher.
fn write_report<E: Sink>(watcher: &Box<dyn Watcher>, err: &mut E) -> Result<(), Failed>
    requires { StandsForSome (stands watcher.now) }
    ensures { (seen : List Seen) (code : ℕ) → stands watcher.now seen code
        → HasTold E.taken E.faults err.old err.new result
        (report_text (report watcher.now seen code)) }
{
    let mut line = [0; 64];
    for at in 0..u32::MAX {
        match ask_line(watcher, at, &mut line) {
            Some(size) => write_line(err, &line[..size])?,
            None => return Ok(()),
        }
    }
    Ok(())
}

/// Line `at` of the report of a watcher, as the watcher tells it.
fn ask_line(watcher: &Box<dyn Watcher>, at: u32, into: &mut [u8; 64]) -> Option<usize>
    requires { StandsForSome (stands watcher.now) }
    ensures line { (seen : List Seen) (code : ℕ) → stands watcher.now seen code
        → HasLine (report watcher.now seen code) at into.new result }
    ensures few { (seen : List Seen) (code : ℕ) → stands watcher.now seen code
        → length (report watcher.now seen code) < 2 ^ 32 }
{
    watcher.line(at, into)
}

/// Writes a line and a newline.
fn write_line<E: Sink>(err: &mut E, line: &[u8]) -> Result<(), Failed>
    ensures { HasTold E.taken E.faults err.old err.new result (line.now ++ 10 ∷ []) }
{
    write_all(err, line)?;
    write_all(err, b"\n")
}

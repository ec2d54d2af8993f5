// Watchers that no word asks for are dropped before the run, which then is as fast as without
// any. Else each step is fetched twice, once for them.

ghost use Rattle.std.specs.Prelude.{◌≡◌, ⊤};
ghost use Rattle.tg_command.specs.Commands.{KeepsLimits, asked_of};
ghost use Rattle.tg_compile.specs.Compiling.{HasImage};
ghost use Rattle.tg_compile_proof.specs.Builds.{Builds};
ghost use Rattle.tg_driver.specs.Calls.{shelf_of, stream_of, streams_of};
ghost use Rattle.tg_driver.specs.OfFiles.{OfFile, UntouchedBeforeStart};
ghost use Rattle.tg_driver.specs.glue.PrivateCalls.{GivesText, OrMemory, EndsAssembled};
ghost use Rattle.tg_driver.specs.RunMode.{IsRunBy};
ghost use Rattle.tg_driver.specs.glue.Watched.{HasWatchedRun};
ghost use Rattle.tg_driver.specs.Passes.{passes_of};

use crate::answers::{Answer, unread};
use crate::checking::refused;
use crate::compiling::{compile, passes_of};
use crate::executing::execute;
use crate::images::image_of;
use crate::reading::LONGEST;
use crate::streams::Streams;
use std::alloc::Global;
use tg_base::{Shelf, Sink, Source};
use tg_command::Command;
use tg_irc_definition::SpillPolicy;
use tg_profiler::Watcher;

/// The answer of the mode `run`.
pub(crate) fn answer_run<H: Shelf, I: Source, O: Sink>(
    alloc: Global,
    command: &Command,
    shelf: &mut H,
    streams: Streams<I, O>,
    policy: &mut dyn SpillPolicy,
    watchers: &mut Vec<Box<dyn Watcher>>,
    source: &mut Vec<u8>,
) -> Answer
    requires { KeepsLimits (asked_of command.now) }
    ensures due { OrMemory ⊤ (OfFile (shelf_of H.files H.faults shelf.old shelf.new)
        (asked_of command.now).file 262145
        (IsRunBy (Builds (passes_of (asked_of command.now)) (rule policy.old))
        (HasWatchedRun (λ w. stands w) (λ w. report w)
        watchers.old.items watchers.new.items (streams_of
        (stream_of I.left I.faults streams.entry.input.now streams.exit.0.now)
        (stream_of O.taken O.faults streams.entry.out.now streams.exit.1.0.now)))
        (asked_of command.now))) result }
    ensures before_start { UntouchedBeforeStart (streams_of
        (stream_of I.left I.faults streams.entry.input.now streams.exit.0.now)
        (stream_of O.taken O.faults streams.entry.out.now streams.exit.1.0.now)) result }
    ensures source { GivesText (shelf_of H.files H.faults shelf.old shelf.new)
        (asked_of command.now).file result source.new.items }
    ensures files { H.files shelf.new ≡ H.files shelf.old }
{
    match shelf.read_file(alloc, command.file.as_str(), LONGEST + 1) {
        Ok(text) => {
            let answer = run_text(alloc, command, &text, streams, policy, watchers);
            *source = text;
            answer
        }
        Err(fault) => unread(fault),
    }
}

/// The answer of a source that is to be run.
fn run_text<I: Source, O: Sink>(
    alloc: Global,
    command: &Command,
    text: &[u8],
    streams: Streams<I, O>,
    policy: &mut dyn SpillPolicy,
    watchers: &mut Vec<Box<dyn Watcher>>,
) -> Answer
    requires { KeepsLimits (asked_of command.now) }
    ensures due { OrMemory ⊤ (IsRunBy (Builds (passes_of (asked_of command.now)) (rule policy.old))
        (HasWatchedRun (λ w. stands w) (λ w. report w)
        watchers.old.items watchers.new.items (streams_of
        (stream_of I.left I.faults streams.entry.input.now streams.exit.0.now)
        (stream_of O.taken O.faults streams.entry.out.now streams.exit.1.0.now)))
        (asked_of command.now) text.now) result }
    ensures before_start { UntouchedBeforeStart (streams_of
        (stream_of I.left I.faults streams.entry.input.now streams.exit.0.now)
        (stream_of O.taken O.faults streams.entry.out.now streams.exit.1.0.now)) result }
{
    match compile(alloc, text, passes_of(command), policy) {
        Ok(compiled) => run_assembly(alloc, command, &compiled.text, streams, watchers),
        Err(refusal) => refused(text, refusal),
    }
}

/// Runs the image of an assembly text that has one, with the sizes and the steps of a command.
fn run_assembly<I: Source, O: Sink>(
    alloc: Global,
    command: &Command,
    assembly: &[u8],
    streams: Streams<I, O>,
    watchers: &mut Vec<Box<dyn Watcher>>,
) -> Answer
    requires limits { KeepsLimits (asked_of command.now) }
    requires image { HasImage assembly.now }
    ensures runs { EndsAssembled (HasWatchedRun (λ w. stands w) (λ w. report w)
        watchers.old.items watchers.new.items (streams_of
        (stream_of I.left I.faults streams.entry.input.now streams.exit.0.now)
        (stream_of O.taken O.faults streams.entry.out.now streams.exit.1.0.now)))
        assembly.now command.now.heap command.now.stack command.now.steps result }
    ensures before_start { UntouchedBeforeStart (streams_of
        (stream_of I.left I.faults streams.entry.input.now streams.exit.0.now)
        (stream_of O.taken O.faults streams.entry.out.now streams.exit.1.0.now)) result }
{
    match image_of(alloc, assembly) {
        Ok(image) => execute(alloc, command, &image, streams, watchers),
        Err(_) => Answer::OutOfMemory,
    }
}

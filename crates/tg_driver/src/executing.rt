ghost use Rattle.std.specs.Prelude.{◌≡◌, ◌≤◌, ◌<◌, ◌^◌, ℕ, ⊤, [], All, length};
ghost use Rattle.tg_machine_state.specs.State.{most_bytes, most_words};
ghost use Rattle.tg_isa.specs.declared.images.Image.{Image as ImageOf};
ghost use Rattle.tg_machine.specs.Machines.{loaded};
ghost use Rattle.tg_bare.specs.Machines.{loaded_bare};
ghost use Rattle.tg_command.specs.Commands.{KeepsLimits, asked_of};
ghost use Rattle.tg_driver.specs.Calls.{shelf_of, stream_of, streams_of};
ghost use Rattle.tg_driver.specs.ExecMode.{IsExecuted};
ghost use Rattle.tg_driver.specs.OfFiles.{OfFile, UntouchedBeforeStart};
ghost use Rattle.tg_driver.specs.Runs.{HasBareRun};
ghost use Rattle.tg_driver.specs.glue.PrivateCalls.{OrMemory, IsRunOrMemory};
ghost use Rattle.tg_driver.specs.glue.Watched.{HasWatchedRun, HasWatchedRunBy};

use crate::answers::{Answer, unread};
use crate::streams::Streams;
use std::alloc::Global;
use tg_asm::assemble;
use tg_bare::{BareMachine, load_bare};
use tg_base::{Faulty, Shelf, Sink, Source};
use tg_command::Command;
use tg_isa::Image;
use tg_machine::{Machine, load};
use tg_machine_state::RunEnd;
use tg_profiler::{Watcher, begin_all, run_watched};

/// The most bytes of assembly text.
const LONGEST: usize = 67_108_864;

/// The answer of the mode `exec`.
pub(crate) fn answer_exec<H: Shelf, I: Source, O: Sink>(
    alloc: Global,
    command: &Command,
    shelf: &mut H,
    streams: Streams<I, O>,
    watchers: &mut Vec<Box<dyn Watcher>>,
) -> Answer
    requires { KeepsLimits (asked_of command.now) }
    ensures due { OrMemory ⊤ (OfFile (shelf_of H.files H.faults shelf.old shelf.new)
        (asked_of command.now).file 67108865
        (IsExecuted (HasWatchedRunBy (λ w. stands w) (λ w. report w) command.now.flags.bare
        watchers.old.items watchers.new.items (streams_of
        (stream_of I.left I.faults streams.entry.input.now streams.exit.0.now)
        (stream_of O.taken O.faults streams.entry.out.now streams.exit.1.0.now)))
        (asked_of command.now))) result }
    ensures before_start { UntouchedBeforeStart (streams_of
        (stream_of I.left I.faults streams.entry.input.now streams.exit.0.now)
        (stream_of O.taken O.faults streams.entry.out.now streams.exit.1.0.now)) result }
    ensures files { H.files shelf.new ≡ H.files shelf.old }
{
    match shelf.read_file(alloc, command.file.as_str(), LONGEST + 1) {
        Ok(text) => execute_text(alloc, command, &text, streams, watchers),
        Err(fault) => unread(fault),
    }
}

/// The answer of assembly text that is to be run.
fn execute_text<I: Source, O: Sink>(
    alloc: Global,
    command: &Command,
    text: &[u8],
    streams: Streams<I, O>,
    watchers: &mut Vec<Box<dyn Watcher>>,
) -> Answer
    requires { KeepsLimits (asked_of command.now) }
    ensures due { OrMemory ⊤ (IsExecuted (HasWatchedRunBy (λ w. stands w) (λ w. report w)
        command.now.flags.bare watchers.old.items watchers.new.items (streams_of
        (stream_of I.left I.faults streams.entry.input.now streams.exit.0.now)
        (stream_of O.taken O.faults streams.entry.out.now streams.exit.1.0.now)))
        (asked_of command.now) text.now) result }
    ensures before_start { UntouchedBeforeStart (streams_of
        (stream_of I.left I.faults streams.entry.input.now streams.exit.0.now)
        (stream_of O.taken O.faults streams.entry.out.now streams.exit.1.0.now)) result }
{
    if text.len() > LONGEST {
        return Answer::TooLong;
    }
    match assemble(alloc, text) {
        Ok(image) => execute_asked(alloc, command, &image, streams, watchers),
        Err(Faulty::Bad { rule, at }) => Answer::BadLine(rule, at),
        Err(Faulty::Memory) => Answer::OutOfMemory,
    }
}

/// Runs an image with the sizes and the steps of a command, on the machine that its flags ask for.
/// No watcher sees a run of the one with delayed branches.
fn execute_asked<I: Source, O: Sink>(
    alloc: Global,
    command: &Command,
    image: &Image,
    streams: Streams<I, O>,
    watchers: &mut Vec<Box<dyn Watcher>>,
) -> Answer
    requires limits { KeepsLimits (asked_of command.now) }
    requires code { length image.now.code ≤ most_words }
    requires statics { length image.now.statics ≤ most_bytes }
    ensures runs { IsRunOrMemory (HasWatchedRunBy (λ w. stands w) (λ w. report w)
        command.now.flags.bare watchers.old.items watchers.new.items (streams_of
        (stream_of I.left I.faults streams.entry.input.now streams.exit.0.now)
        (stream_of O.taken O.faults streams.entry.out.now streams.exit.1.0.now)))
        (streams_of
        (stream_of I.left I.faults streams.entry.input.now streams.exit.0.now)
        (stream_of O.taken O.faults streams.entry.out.now streams.exit.1.0.now))
        image.now command.now.heap command.now.stack command.now.steps result }
    ensures before_start { UntouchedBeforeStart (streams_of
        (stream_of I.left I.faults streams.entry.input.now streams.exit.0.now)
        (stream_of O.taken O.faults streams.entry.out.now streams.exit.1.0.now)) result }
{
    let bare = command.flags.bare;
    if bare {
        execute_bare(alloc, command, image, streams)
    } else {
        execute(alloc, command, image, streams, watchers)
    }
}

/// Runs an image on the machine with delayed branches, with the sizes and the steps of a command.
fn execute_bare<I: Source, O: Sink>(
    alloc: Global,
    command: &Command,
    image: &Image,
    streams: Streams<I, O>,
) -> Answer
    requires limits { KeepsLimits (asked_of command.now) }
    requires code { length image.now.code ≤ most_words }
    requires statics { length image.now.statics ≤ most_bytes }
    ensures runs { IsRunOrMemory (HasBareRun (streams_of
        (stream_of I.left I.faults streams.entry.input.now streams.exit.0.now)
        (stream_of O.taken O.faults streams.entry.out.now streams.exit.1.0.now)))
        (streams_of
        (stream_of I.left I.faults streams.entry.input.now streams.exit.0.now)
        (stream_of O.taken O.faults streams.entry.out.now streams.exit.1.0.now))
        image.now command.now.heap command.now.stack command.now.steps result }
    ensures before_start { UntouchedBeforeStart (streams_of
        (stream_of I.left I.faults streams.entry.input.now streams.exit.0.now)
        (stream_of O.taken O.faults streams.entry.out.now streams.exit.1.0.now)) result }
{
    match load_bare(alloc, image, command.heap, command.stack) {
        Ok(machine) => Answer::Finished(run_bare(machine, streams, command.steps)),
        Err(_) => Answer::OutOfMemory,
    }
}

/// Runs a machine with delayed branches that was loaded.
fn run_bare<I: Source, O: Sink>(machine: BareMachine, streams: Streams<I, O>, steps: u64) -> RunEnd
    requires { 0 < steps }
    ensures { (image : ImageOf) (heap stack : ℕ) → machine ≡ loaded_bare image heap stack
        → HasBareRun (streams_of
        (stream_of I.left I.faults streams.entry.input.now streams.exit.0.now)
        (stream_of O.taken O.faults streams.entry.out.now streams.exit.1.0.now))
        image heap stack steps result }
{
    let mut machine = machine;
    let Streams { input, out } = streams;
    machine.run(input, out, steps)
}

/// Runs an image on the machine with the sizes and the steps of a command.
pub(crate) fn execute<I: Source, O: Sink>(
    alloc: Global,
    command: &Command,
    image: &Image,
    streams: Streams<I, O>,
    watchers: &mut Vec<Box<dyn Watcher>>,
) -> Answer
    requires limits { KeepsLimits (asked_of command.now) }
    requires code { length image.now.code ≤ most_words }
    requires statics { length image.now.statics ≤ most_bytes }
    ensures runs { IsRunOrMemory (HasWatchedRun (λ w. stands w) (λ w. report w)
        watchers.old.items watchers.new.items (streams_of
        (stream_of I.left I.faults streams.entry.input.now streams.exit.0.now)
        (stream_of O.taken O.faults streams.entry.out.now streams.exit.1.0.now)))
        (streams_of
        (stream_of I.left I.faults streams.entry.input.now streams.exit.0.now)
        (stream_of O.taken O.faults streams.entry.out.now streams.exit.1.0.now))
        image.now command.now.heap command.now.stack command.now.steps result }
    ensures before_start { UntouchedBeforeStart (streams_of
        (stream_of I.left I.faults streams.entry.input.now streams.exit.0.now)
        (stream_of O.taken O.faults streams.entry.out.now streams.exit.1.0.now)) result }
{
    match load(alloc, image, command.heap, command.stack) {
        Ok(machine) => match begin_all(watchers, image.code.as_slice().len() as u32) {
            Ok(()) => Answer::Finished(run_begun(machine, streams, watchers, command.steps)),
            Err(_) => Answer::OutOfMemory,
        },
        Err(_) => Answer::OutOfMemory,
    }
}

/// Runs a machine that was loaded, and shows its fetches to the watchers, which have begun. Where
/// there are none it runs as fast as a machine can.
fn run_begun<I: Source, O: Sink>(
    machine: Machine,
    streams: Streams<I, O>,
    watchers: &mut Vec<Box<dyn Watcher>>,
    steps: u64,
) -> RunEnd
    requires some { 0 < steps }
    requires few { steps ≤ 2 ^ 62 }
    requires begun { All (λ w. stands w [] (length machine.state.code)) watchers.old.items }
    ensures { (image : ImageOf) (heap stack : ℕ) → machine ≡ loaded image heap stack
        → HasWatchedRun (λ w. stands w) (λ w. report w)
        watchers.old.items watchers.new.items (streams_of
        (stream_of I.left I.faults streams.entry.input.now streams.exit.0.now)
        (stream_of O.taken O.faults streams.entry.out.now streams.exit.1.0.now))
        image heap stack steps result }
{
    let mut machine = machine;
    let Streams { input, out } = streams;
    if watchers.is_empty() {
        machine.run(input, out, steps)
    } else {
        run_watched(&mut machine, watchers, input, out, steps)
    }
}

ghost use Rattle.std.specs.Prelude.{◌≡◌, ⊤, IfOk};
ghost use Rattle.tg_command.specs.Commands.{asked_of};
ghost use Rattle.tg_driver.specs.Calls.{shelf_of, stream_of};
ghost use Rattle.tg_driver.specs.OfFiles.{OfFile};
ghost use Rattle.tg_driver.specs.glue.PrivateCalls.{
  GivesText,
  HasStarted,
  OrMemory,
  StaysBeforeStart,
};
ghost use Rattle.tg_driver.specs.Passes.{passes_of};
ghost use Rattle.tg_driver.specs.Writing.{IsWritten, TakesText};
ghost use Rattle.tg_driver.specs.glue.Texts.{wanted_text, writes_of};

use crate::answers::{Answer, unread};
use crate::checking::refused;
use crate::compiling::{compile, passes_of};
use crate::reading::LONGEST;
use crate::streams::Streams;
use std::alloc::Global;
use tg_base::{Memory, Shelf, Sink, Source, write_all};
use tg_command::Command;
use tg_compile::{Compiled, Passes};
use tg_irc_definition::SpillPolicy;
use tg_regalloc_report::list;

/// Which text of a source a mode writes to the output.
#[derive(Clone, Copy)]
pub(crate) enum Wanted {
    /// Its assembly text: the mode `build`.
    Assembly,
    /// What the register allocator did in each function: the mode `alloc`.
    Allocations,
}

/// The answer of a mode that reads a source and writes a text of it to the output alone.
pub(crate) fn answer_written<H: Shelf, I: Source, O: Sink>(
    alloc: Global,
    command: &Command,
    shelf: &mut H,
    streams: Streams<I, O>,
    policy: &mut dyn SpillPolicy,
    wanted: Wanted,
    source: &mut Vec<u8>,
) -> Answer
    ensures due { OrMemory ⊤ (OfFile (shelf_of H.files H.faults shelf.old shelf.new)
        (asked_of command.now).file 262145
        (IsWritten (stream_of O.taken O.faults streams.entry.out.now streams.exit.1.0.now)
        (writes_of wanted (passes_of (asked_of command.now)) (rule policy.old)))) result }
    ensures before_start { StaysBeforeStart
        (stream_of O.taken O.faults streams.entry.out.now streams.exit.1.0.now) result }
    ensures unread { streams.exit.0.now ≡ streams.entry.input.now }
    ensures source { GivesText (shelf_of H.files H.faults shelf.old shelf.new)
        (asked_of command.now).file result source.new.items }
    ensures files { H.files shelf.new ≡ H.files shelf.old }
{
    let Streams { input: _, out } = streams;
    write_file(alloc, command, shelf, out, policy, wanted, source)
}

/// The answer of the source in the command's file, of which a text is to be written.
fn write_file<H: Shelf, O: Sink>(
    alloc: Global,
    command: &Command,
    shelf: &mut H,
    out: &mut O,
    policy: &mut dyn SpillPolicy,
    wanted: Wanted,
    source: &mut Vec<u8>,
) -> Answer
    ensures due { OrMemory ⊤ (OfFile (shelf_of H.files H.faults shelf.old shelf.new)
        (asked_of command.now).file 262145
        (IsWritten (stream_of O.taken O.faults out.old out.new)
        (writes_of wanted (passes_of (asked_of command.now)) (rule policy.old)))) result }
    ensures before_start { StaysBeforeStart (stream_of O.taken O.faults out.old out.new) result }
    ensures source { GivesText (shelf_of H.files H.faults shelf.old shelf.new)
        (asked_of command.now).file result source.new.items }
    ensures files { H.files shelf.new ≡ H.files shelf.old }
{
    match shelf.read_file(alloc, command.file.as_str(), LONGEST + 1) {
        Ok(text) => {
            let answer = write_source(alloc, &text, out, passes_of(command), policy, wanted);
            *source = text;
            answer
        }
        Err(fault) => unread(fault),
    }
}

/// The answer of a source of which a text is to be written.
fn write_source<O: Sink>(
    alloc: Global,
    text: &[u8],
    out: &mut O,
    passes: Passes,
    policy: &mut dyn SpillPolicy,
    wanted: Wanted,
) -> Answer
    ensures due { OrMemory ⊤ (IsWritten (stream_of O.taken O.faults out.old out.new)
        (writes_of wanted passes (rule policy.old)) text.now) result }
    ensures before_start { StaysBeforeStart (stream_of O.taken O.faults out.old out.new) result }
{
    match compile(alloc, text, passes, policy) {
        Ok(compiled) => write_compiled(alloc, compiled, out, wanted),
        Err(refusal) => refused(text, refusal),
    }
}

/// Writes the wanted text of a source that was compiled to the output.
fn write_compiled<O: Sink>(alloc: Global, compiled: Compiled, out: &mut O, wanted: Wanted) -> Answer
    ensures takes { OrMemory ⊤ (TakesText (stream_of O.taken O.faults out.old out.new)
        (wanted_text wanted compiled.allocations.items compiled.text.items)) result }
    ensures before_start { StaysBeforeStart (stream_of O.taken O.faults out.old out.new) result }
{
    match wanted_text(alloc, compiled, wanted) {
        Ok(text) => write_text(out, &text),
        Err(_) => Answer::OutOfMemory,
    }
}

/// The wanted text of a source that was compiled.
fn wanted_text(alloc: Global, compiled: Compiled, wanted: Wanted) -> Result<Vec<u8>, Memory>
    ensures { IfOk result (λ text. text.items
        ≡ wanted_text wanted compiled.allocations.items compiled.text.items) }
{
    match wanted {
        Wanted::Assembly => Ok(compiled.text),
        Wanted::Allocations => list(alloc, &compiled.allocations),
    }
}

/// Writes the text that is due to the output.
pub(crate) fn write_text<O: Sink>(out: &mut O, text: &[u8]) -> Answer
    ensures takes { TakesText (stream_of O.taken O.faults out.old out.new) text.now result }
    ensures started { HasStarted result }
{
    match write_all(out, text) {
        Ok(()) => Answer::Written,
        Err(_) => Answer::Unwritten,
    }
}

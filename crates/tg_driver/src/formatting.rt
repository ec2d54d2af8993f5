ghost use Rattle.std.specs.Prelude.{◌≡◌, ⊤, MatchResult};
ghost use Rattle.tg_command.specs.Commands.{asked_of};
ghost use Rattle.tg_driver.specs.Calls.{shelf_of, stream_of};
ghost use Rattle.tg_driver.specs.FormatMode.{Formats, IsFormatted};
ghost use Rattle.tg_driver.specs.glue.PrivateCalls.{
  GivesText,
  IsRefusedUntyped,
  OrMemory,
  StaysBeforeStart,
};
ghost use Rattle.tg_driver.specs.OfFiles.{OfFile};
ghost use Rattle.tg_driver.specs.glue.Readings.{IsUntypedRefusalOf};

use crate::answers::{Answer, unread};
use crate::checking::refused;
use crate::reading::{LONGEST, lex_source, parse_tokens};
use crate::refusals::Refusal;
use crate::streams::Streams;
use crate::writing::write_text;
use std::alloc::Global;
use tg_base::{Shelf, Sink, Source};
use tg_command::Command;
use tg_formatter::format;
use tg_formatter_laws::lexed_are_writable;

/// The answer of the mode `format`, which writes to the output alone.
pub(crate) fn answer_format<H: Shelf, I: Source, O: Sink>(
    alloc: Global,
    command: &Command,
    shelf: &mut H,
    streams: Streams<I, O>,
    source: &mut Vec<u8>,
) -> Answer
    ensures due { OrMemory ⊤ (OfFile (shelf_of H.files H.faults shelf.old shelf.new)
        (asked_of command.now).file 262145
        (IsFormatted (stream_of O.taken O.faults streams.entry.out.now streams.exit.1.0.now)))
        result }
    ensures before_start { StaysBeforeStart
        (stream_of O.taken O.faults streams.entry.out.now streams.exit.1.0.now) result }
    ensures unread { streams.exit.0.now ≡ streams.entry.input.now }
    ensures source { GivesText (shelf_of H.files H.faults shelf.old shelf.new)
        (asked_of command.now).file result source.new.items }
    ensures files { H.files shelf.new ≡ H.files shelf.old }
{
    let Streams { input: _, out } = streams;
    format_file(alloc, command, shelf, out, source)
}

/// The answer of the source in the command's file, of which the canonical text is to be written.
fn format_file<H: Shelf, O: Sink>(
    alloc: Global,
    command: &Command,
    shelf: &mut H,
    out: &mut O,
    source: &mut Vec<u8>,
) -> Answer
    ensures due { OrMemory ⊤ (OfFile (shelf_of H.files H.faults shelf.old shelf.new)
        (asked_of command.now).file 262145
        (IsFormatted (stream_of O.taken O.faults out.old out.new))) result }
    ensures before_start { StaysBeforeStart (stream_of O.taken O.faults out.old out.new) result }
    ensures source { GivesText (shelf_of H.files H.faults shelf.old shelf.new)
        (asked_of command.now).file result source.new.items }
    ensures files { H.files shelf.new ≡ H.files shelf.old }
{
    match shelf.read_file(alloc, command.file.as_str(), LONGEST + 1) {
        Ok(text) => {
            let answer = format_source(alloc, &text, out);
            *source = text;
            answer
        }
        Err(fault) => unread(fault),
    }
}

/// The answer of a source of which the canonical text is to be written.
fn format_source<O: Sink>(alloc: Global, text: &[u8], out: &mut O) -> Answer
    ensures due { OrMemory ⊤ (IsFormatted (stream_of O.taken O.faults out.old out.new) text.now)
        result }
    ensures before_start { StaysBeforeStart (stream_of O.taken O.faults out.old out.new) result }
{
    match canonical_text(alloc, text) {
        Ok(written) => write_text(out, &written),
        Err(refusal) => refused_untyped(text, refusal),
    }
}

/// The answer of a source that is refused, but for no fault of types.
fn refused_untyped(text: &[u8], refusal: Refusal) -> Answer
    requires { IsUntypedRefusalOf text.now refusal }
    ensures { IsRefusedUntyped text.now result }
{
    match refusal {
        Refusal::Memory => Answer::OutOfMemory,
        _ => refused(text, refusal),
    }
}

/// The canonical text of a source, or its first fault of lexemes or syntax. The tree is let go
/// before anything is written.
fn canonical_text(alloc: Global, text: &[u8]) -> Result<Vec<u8>, Refusal>
    ensures { MatchResult result (λ written. Formats text.now written.items)
        (λ why. IsUntypedRefusalOf text.now why) }
{
    lexed_are_writable();
    let source = lex_source(alloc, text)?;
    parse_tokens(alloc, &source)?;
    Ok(format(alloc, &source.tokens, &source.names)?)
}

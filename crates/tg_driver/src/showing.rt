ghost use Rattle.std.specs.Prelude.{◌≡◌, ⊤, MatchResult};
ghost use Rattle.tg_syntax.specs.glue.Plain.{plain};
ghost use Rattle.tg_command.specs.Commands.{asked_of};
ghost use Rattle.tg_driver.specs.Calls.{shelf_of, stream_of};
ghost use Rattle.tg_driver.specs.OfFiles.{OfFile};
ghost use Rattle.tg_driver.specs.Passes.{passes_of};
ghost use Rattle.tg_driver.specs.ShowMode.{Shows};
ghost use Rattle.tg_driver.specs.Writing.{IsWritten};
ghost use Rattle.tg_driver.specs.glue.PrivateCalls.{GivesText, OrMemory, StaysBeforeStart};
ghost use Rattle.tg_driver.specs.glue.Readings.{HasNamedTree, IsRefusalOf};

use crate::answers::{Answer, unread};
use crate::checking::refused;
use crate::compiling::passes_of;
use crate::reading::{LONGEST, NamedProgram, ill_typed, parse_source};
use crate::refusals::Refusal;
use crate::streams::Streams;
use crate::writing::write_text;
use std::alloc::Global;
use tg_base::{Shelf, Sink, Source};
use tg_command::Command;
use tg_compile::Passes;
use tg_irc_definition::SpillPolicy;
use tg_literal_bounds::literals_fit_text;
use tg_stages::show_checked;
use tg_typecheck::check;

/// The answer of the mode `show`, which writes to the output alone what each pass made of each
/// function of a source.
pub(crate) fn answer_show<H: Shelf, I: Source, O: Sink>(
    alloc: Global,
    command: &Command,
    shelf: &mut H,
    streams: Streams<I, O>,
    policy: &mut dyn SpillPolicy,
    source: &mut Vec<u8>,
) -> Answer
    ensures due { OrMemory ⊤ (OfFile (shelf_of H.files H.faults shelf.old shelf.new)
        (asked_of command.now).file 262145
        (IsWritten (stream_of O.taken O.faults streams.entry.out.now streams.exit.1.0.now)
        (Shows (passes_of (asked_of command.now)) (rule policy.old)))) result }
    ensures before_start { StaysBeforeStart
        (stream_of O.taken O.faults streams.entry.out.now streams.exit.1.0.now) result }
    ensures unread { streams.exit.0.now ≡ streams.entry.input.now }
    ensures source { GivesText (shelf_of H.files H.faults shelf.old shelf.new)
        (asked_of command.now).file result source.new.items }
    ensures files { H.files shelf.new ≡ H.files shelf.old }
{
    let Streams { input: _, out } = streams;
    show_file(alloc, command, shelf, out, policy, source)
}

/// The answer of the source in the command's file, which is to be shown.
fn show_file<H: Shelf, O: Sink>(
    alloc: Global,
    command: &Command,
    shelf: &mut H,
    out: &mut O,
    policy: &mut dyn SpillPolicy,
    source: &mut Vec<u8>,
) -> Answer
    ensures due { OrMemory ⊤ (OfFile (shelf_of H.files H.faults shelf.old shelf.new)
        (asked_of command.now).file 262145
        (IsWritten (stream_of O.taken O.faults out.old out.new)
        (Shows (passes_of (asked_of command.now)) (rule policy.old)))) result }
    ensures before_start { StaysBeforeStart (stream_of O.taken O.faults out.old out.new) result }
    ensures source { GivesText (shelf_of H.files H.faults shelf.old shelf.new)
        (asked_of command.now).file result source.new.items }
    ensures files { H.files shelf.new ≡ H.files shelf.old }
{
    match shelf.read_file(alloc, command.file.as_str(), LONGEST + 1) {
        Ok(text) => {
            let answer = show_source(alloc, &text, out, passes_of(command), policy);
            *source = text;
            answer
        }
        Err(fault) => unread(fault),
    }
}

/// The answer of a source that is to be shown.
fn show_source<O: Sink>(
    alloc: Global,
    text: &[u8],
    out: &mut O,
    passes: Passes,
    policy: &mut dyn SpillPolicy,
) -> Answer
    ensures due { OrMemory ⊤ (IsWritten (stream_of O.taken O.faults out.old out.new)
        (Shows passes (rule policy.old)) text.now) result }
    ensures before_start { StaysBeforeStart (stream_of O.taken O.faults out.old out.new) result }
{
    match shown_text(alloc, text, passes, policy) {
        Ok(shown) => write_text(out, &shown),
        Err(refusal) => refused(text, refusal),
    }
}

/// The text of what each pass made of each function of a source, or its first fault. All of it is
/// made before anything is written.
fn shown_text(
    alloc: Global,
    text: &[u8],
    passes: Passes,
    policy: &mut dyn SpillPolicy,
) -> Result<Vec<u8>, Refusal>
    ensures { MatchResult result (λ shown. Shows passes (rule policy.old) text.now shown.items)
        (λ why. IsRefusalOf text.now why) }
{
    let source = parse_source(alloc, text)?;
    show_program(alloc, text, &source, passes, policy)
}

/// Types the tree of a source and shows it.
fn show_program(
    alloc: Global,
    text: &[u8],
    source: &NamedProgram,
    passes: Passes,
    policy: &mut dyn SpillPolicy,
) -> Result<Vec<u8>, Refusal>
    requires { HasNamedTree text.now source.now.names (plain source.now.program.body) }
    ensures { MatchResult result (λ shown. Shows passes (rule policy.old) text.now shown.items)
        (λ why. IsRefusalOf text.now why) }
{
    literals_fit_text();
    match check(alloc, &source.program, &source.names) {
        Ok(checked) => Ok(show_checked(alloc, text, &checked, passes, policy)?),
        Err(fault) => Err(ill_typed(fault)),
    }
}

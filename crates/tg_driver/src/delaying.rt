ghost use Rattle.std.specs.Prelude.{◌≡◌, ⊤, ℕ, List, MatchResult};
ghost use Rattle.tg_syntax.specs.glue.Plain.{plain};
ghost use Rattle.tg_command.specs.Commands.{asked_of};
ghost use Rattle.tg_bare_compile_proof.specs.Builds.{BuildsDelayed};
ghost use Rattle.tg_driver.specs.BareMode.{IsBareWritten};
ghost use Rattle.tg_driver.specs.Calls.{shelf_of, stream_of};
ghost use Rattle.tg_driver.specs.LargePrograms.{IsTooLarge, IsTooLargeAt};
ghost use Rattle.tg_driver.specs.OfFiles.{OfFile};
ghost use Rattle.tg_driver.specs.Passes.{passes_of};
ghost use Rattle.tg_driver.specs.glue.Delays.{IsDelayedOf};
ghost use Rattle.tg_driver.specs.glue.PrivateCalls.{GivesText, OrMemory, StaysBeforeStart};
ghost use Rattle.tg_driver.specs.glue.Readings.{HasNamedTree, IsRefusalOf};

use crate::answers::{Answer, unread};
use crate::checking::refused;
use crate::compiling::passes_of;
use crate::faults::{Fault, Rule};
use crate::reading::{LONGEST, NamedProgram, ill_typed, parse_source};
use crate::refusals::Refusal;
use crate::streams::Streams;
use crate::writing::write_text;
use std::alloc::Global;
use tg_base::{Memory, Shelf, Sink, Source, place};
use tg_command::Command;
use tg_compile::{Passes, compile_delayed};
use tg_irc_definition::SpillPolicy;
use tg_literal_bounds::literals_fit_text;
use tg_syntax::program_nodes;
use tg_typecheck::check;

/// The most nodes of a program whose code fits its segment with delay slots.
const MOST_NODES: u32 = 16_384;

/// What a source is compiled to for the machine with delayed branches.
#[derive(Drop)]
pub(crate) enum Delayed {
    /// Its assembly text, with delay slots.
    Text(Vec<u8>),
    /// Nothing: its program, which begins at this byte, is too large.
    TooLarge(u32),
}

/// The answer of the mode `bare`, which writes to the output alone the assembly text of a source
/// for the machine with delayed branches.
pub(crate) fn answer_bare<H: Shelf, I: Source, O: Sink>(
    alloc: Global,
    command: &Command,
    shelf: &mut H,
    streams: Streams<I, O>,
    policy: &mut dyn SpillPolicy,
    source: &mut Vec<u8>,
) -> Answer
    ensures due { OrMemory ⊤ (OfFile (shelf_of H.files H.faults shelf.old shelf.new)
        (asked_of command.now).file 262145
        (IsBareWritten (stream_of O.taken O.faults streams.entry.out.now streams.exit.1.0.now)
        (BuildsDelayed (passes_of (asked_of command.now)) (rule policy.old)))) result }
    ensures before_start { StaysBeforeStart
        (stream_of O.taken O.faults streams.entry.out.now streams.exit.1.0.now) result }
    ensures unread { streams.exit.0.now ≡ streams.entry.input.now }
    ensures source { GivesText (shelf_of H.files H.faults shelf.old shelf.new)
        (asked_of command.now).file result source.new.items }
    ensures files { H.files shelf.new ≡ H.files shelf.old }
{
    let Streams { input: _, out } = streams;
    delay_file(alloc, command, shelf, out, policy, source)
}

/// The answer of the source in the command's file, whose text with delay slots is to be written.
fn delay_file<H: Shelf, O: Sink>(
    alloc: Global,
    command: &Command,
    shelf: &mut H,
    out: &mut O,
    policy: &mut dyn SpillPolicy,
    source: &mut Vec<u8>,
) -> Answer
    ensures due { OrMemory ⊤ (OfFile (shelf_of H.files H.faults shelf.old shelf.new)
        (asked_of command.now).file 262145
        (IsBareWritten (stream_of O.taken O.faults out.old out.new)
        (BuildsDelayed (passes_of (asked_of command.now)) (rule policy.old)))) result }
    ensures before_start { StaysBeforeStart (stream_of O.taken O.faults out.old out.new) result }
    ensures source { GivesText (shelf_of H.files H.faults shelf.old shelf.new)
        (asked_of command.now).file result source.new.items }
    ensures files { H.files shelf.new ≡ H.files shelf.old }
{
    match shelf.read_file(alloc, command.file.as_str(), LONGEST + 1) {
        Ok(text) => {
            let answer = delay_source(alloc, &text, out, passes_of(command), policy);
            *source = text;
            answer
        }
        Err(fault) => unread(fault),
    }
}

/// The answer of a source whose text with delay slots is to be written. All of it is made before
/// anything is written.
fn delay_source<O: Sink>(
    alloc: Global,
    text: &[u8],
    out: &mut O,
    passes: Passes,
    policy: &mut dyn SpillPolicy,
) -> Answer
    ensures due { OrMemory ⊤ (IsBareWritten (stream_of O.taken O.faults out.old out.new)
        (BuildsDelayed passes (rule policy.old)) text.now) result }
    ensures before_start { StaysBeforeStart (stream_of O.taken O.faults out.old out.new) result }
{
    match delay_text(alloc, text, passes, policy) {
        Ok(Delayed::Text(delayed)) => write_text(out, &delayed),
        Ok(Delayed::TooLarge(at)) => too_large(text, at),
        Err(refusal) => refused(text, refusal),
    }
}

/// The answer of a source whose program begins at this byte and is too large.
fn too_large(text: &[u8], at: u32) -> Answer
    requires { IsTooLargeAt text.now at }
    ensures { (fault : Fault) × (result ≡ Answer.Faulty fault) × IsTooLarge text.now fault }
{
    Answer::Faulty(Fault {
        rule: Rule::Bare,
        place: place(text, at),
    })
}

/// What a source is compiled to, or its first fault.
fn delay_text(
    alloc: Global,
    text: &[u8],
    passes: Passes,
    policy: &mut dyn SpillPolicy,
) -> Result<Delayed, Refusal>
    ensures { MatchResult result (λ d. IsDelayedOf passes (rule policy.old) text.now d)
        (λ why. IsRefusalOf text.now why) }
{
    let source = parse_source(alloc, text)?;
    delay_program(alloc, &source, passes, policy)
}

/// Types the tree of a source and compiles it, unless it is too large.
fn delay_program(
    alloc: Global,
    source: &NamedProgram,
    passes: Passes,
    policy: &mut dyn SpillPolicy,
) -> Result<Delayed, Refusal>
    requires { (text : List ℕ)
        × HasNamedTree text source.now.names (plain source.now.program.body) }
    ensures { (text : List ℕ)
        → HasNamedTree text source.now.names (plain source.now.program.body)
        → MatchResult result (λ d. IsDelayedOf passes (rule policy.old) text d)
        (λ why. IsRefusalOf text why) }
{
    literals_fit_text();
    let checked = match check(alloc, &source.program, &source.names) {
        Ok(checked) => checked,
        Err(fault) => return Err(ill_typed(fault)),
    };
    if program_nodes(&source.program) > MOST_NODES {
        return Ok(Delayed::TooLarge(source.program.body.span.from));
    }
    let compiled = compile_delayed(alloc, &checked, passes, policy)?;
    Ok(Delayed::Text(compiled.text))
}

ghost use Rattle.std.specs.Prelude.{◌≡◌, ◌++◌, ◌≤◌, ◌<◌, ℕ, ⊤, [], length};
ghost use Rattle.std.specs.Fmt.{decimal};
ghost use Rattle.tg_base.specs.Causes.{HasCause};
ghost use Rattle.tg_machine_state.specs.State.{most_bytes, most_words};
ghost use Rattle.tg_base.specs.Writes.{TakesAll};
ghost use Rattle.tg_isa.specs.declared.images.Image.{Image as ImageOf};
ghost use Rattle.tg_machine.specs.Machines.{loaded};
ghost use Rattle.tg_command.specs.Counts.{IsWithin, function_limits};
ghost use Rattle.tg_command.specs.Commands.{KeepsLimits, asked_of};
ghost use Rattle.tg_compile_proof.specs.Builds.{Builds};
ghost use Rattle.tg_correctness.specs.Sources.{IsSource};
ghost use Rattle.tg_driver.specs.Calls.{stream_of};
ghost use Rattle.tg_driver.specs.Endings.{end_status};
ghost use Rattle.tg_driver.specs.GenMode.{IsGeneratedBy, SumsUpBy, TakesSummary, counts, summary};
ghost use Rattle.tg_driver.specs.glue.PrivateCalls.{
  SumsUpRun,
  HasStarted,
  OrMemory,
  StaysBeforeStart,
};
ghost use Rattle.tg_driver.specs.Passes.{passes_of};

use crate::answers::Answer;
use crate::compiling::{compile_accepted, passes_of};
use crate::endings::end_status;
use crate::images::image_of;
use std::alloc::Global;
use tg_base::{Failed, PlainSource, Sink, write_all};
use tg_command::Command;
use tg_irc_definition::SpillPolicy;
use tg_isa::Image;
use tg_machine::{Machine, load};
use tg_machine_state::RunEnd;
use tg_program_generator::generate;
use tg_program_generator_laws::generated_is_accepted;

/// The answer of the mode `gen`: generates a source, compiles it, runs it on an empty input, and
/// writes the summary line.
pub(crate) fn answer_gen<O: Sink>(
    alloc: Global,
    command: &Command,
    out: &mut O,
    policy: &mut dyn SpillPolicy,
) -> Answer
    requires limits { KeepsLimits (asked_of command.now) }
    requires number { IsWithin function_limits command.now.number }
    ensures due { OrMemory ⊤ (IsGeneratedBy
        (Builds (passes_of (asked_of command.now)) (rule policy.old))
        (stream_of O.taken O.faults out.old out.new) (asked_of command.now)) result }
    ensures before_start { StaysBeforeStart (stream_of O.taken O.faults out.old out.new) result }
{
    generated_is_accepted();
    match generate(alloc, command.number) {
        Ok(text) => run_generated(alloc, command, &text, out, policy),
        Err(_) => Answer::OutOfMemory,
    }
}

/// The answer of a generated source.
fn run_generated<O: Sink>(
    alloc: Global,
    command: &Command,
    text: &[u8],
    out: &mut O,
    policy: &mut dyn SpillPolicy,
) -> Answer
    requires limits { KeepsLimits (asked_of command.now) }
    requires source { IsSource text.now }
    ensures due { OrMemory ⊤ (SumsUpBy (Builds (passes_of (asked_of command.now)) (rule policy.old))
        (stream_of O.taken O.faults out.old out.new) command.now.number text.now
        command.now.heap command.now.stack command.now.steps) result }
    ensures before_start { StaysBeforeStart (stream_of O.taken O.faults out.old out.new) result }
{
    match compile_accepted(alloc, text, passes_of(command), policy) {
        Ok(compiled) => match image_of(alloc, &compiled.text) {
            Ok(image) => execute_generated(alloc, command, &image, text.len(), out),
            Err(_) => Answer::OutOfMemory,
        },
        Err(_) => Answer::OutOfMemory,
    }
}

/// Runs the image of a generated source of so many bytes on an empty input, with the sizes and the
/// steps of a command, and writes the summary line.
fn execute_generated<O: Sink>(
    alloc: Global,
    command: &Command,
    image: &Image,
    bytes: usize,
    out: &mut O,
) -> Answer
    requires limits { KeepsLimits (asked_of command.now) }
    requires code { length image.now.code ≤ most_words }
    requires statics { length image.now.statics ≤ most_bytes }
    ensures due { OrMemory ⊤ (SumsUpRun (stream_of O.taken O.faults out.old out.new)
        command.now.number bytes image.now command.now.heap command.now.stack command.now.steps)
        result }
    ensures before_start { StaysBeforeStart (stream_of O.taken O.faults out.old out.new) result }
{
    match load(alloc, image, command.heap, command.stack) {
        Ok(machine) => {
            let input = PlainSource::new(Vec::new(alloc));
            run_and_sum_up(machine, command, bytes, input, out)
        }
        Err(_) => Answer::OutOfMemory,
    }
}

/// Runs a machine, and writes the summary line of its run, unless the run ended at a write that
/// failed. It takes no memory.
fn run_and_sum_up<O: Sink>(
    machine: Machine,
    command: &Command,
    bytes: usize,
    input: PlainSource,
    out: &mut O,
) -> Answer
    requires { 0 < command.now.steps }
    ensures sums_up { (image : ImageOf) (heap stack : ℕ)
        → machine ≡ loaded image heap stack
        → input ≡ record { left = []; calls = 0 }
        → SumsUpRun (stream_of O.taken O.faults out.old out.new)
        command.now.number bytes image heap stack command.now.steps result }
    ensures started { HasStarted result }
{
    let mut machine = machine;
    let mut input = input;
    let end = machine.run(&mut input, out, command.steps);
    let told = Summary {
        functions: command.number,
        source: bytes,
        output: machine.written(),
        status: end_status(end),
    };
    sum_up(out, end, told)
}

/// What the summary line of `gen` tells: how many functions were generated, the bytes of their
/// source, the bytes that the run wrote, and its status.
#[derive(Clone, Copy)]
struct Summary {
    functions: u32,
    source: usize,
    output: u64,
    status: u8,
}

/// Writes the summary line of a run that ended so, unless it ended at a write that failed.
fn sum_up<O: Sink>(out: &mut O, end: RunEnd, it: Summary) -> Answer
    requires { it.status ≡ end_status end }
    ensures sums_up { TakesSummary (stream_of O.taken O.faults out.old out.new)
        it.functions it.source it.output end result }
    ensures started { HasStarted result }
{
    if let RunEnd::WriteFault = end {
        return Answer::Finished(end);
    }
    match write_summary(out, it) {
        Ok(()) => Answer::Finished(end),
        Err(_) => Answer::Unwritten,
    }
}

/// Writes the summary line, piece by piece, so that it takes no memory.
fn write_summary<O: Sink>(out: &mut O, it: Summary) -> Result<(), Failed>
    ensures line { TakesAll (O.taken out.old) (O.taken out.new) result
        (summary it.functions it.source it.output it.status) }
    ensures cause { HasCause (O.faults out.old) (O.faults out.new) result }
{
    write_counts(out, it)?;
    write_count(out, b" status ", it.status as u64)?;
    write_all(out, b"\n")
}

/// Writes what the summary line has before its status.
fn write_counts<O: Sink>(out: &mut O, it: Summary) -> Result<(), Failed>
    ensures line { TakesAll (O.taken out.old) (O.taken out.new) result
        (counts it.functions it.source it.output) }
    ensures cause { HasCause (O.faults out.old) (O.faults out.new) result }
{
    write_count(out, b"functions ", it.functions as u64)?;
    write_count(out, b" source ", it.source as u64)?;
    write_count(out, b" output ", it.output)
}

/// Writes a word and a number.
fn write_count<O: Sink>(out: &mut O, word: &[u8], number: u64) -> Result<(), Failed>
    ensures line { TakesAll (O.taken out.old) (O.taken out.new) result
        (word.now ++ decimal number) }
    ensures cause { HasCause (O.faults out.old) (O.faults out.new) result }
{
    let mut buffer = itoa::Buffer::new();
    write_two(out, word, buffer.format(number).as_bytes())
}

/// Writes two pieces, one after the other.
fn write_two<O: Sink>(out: &mut O, first: &[u8], second: &[u8]) -> Result<(), Failed>
    ensures line { TakesAll (O.taken out.old) (O.taken out.new) result (first.now ++ second.now) }
    ensures cause { HasCause (O.faults out.old) (O.faults out.new) result }
{
    write_all(out, first)?;
    write_all(out, second)
}

// The contract is told mode first, a file a mode, so a further mode adds a file and rewrites
// none.
//
// One definition of what the program answers, over two relations of texts. By the first an
// assembly text does what its source means, and no pass is named; by the second, of the clause
// `compiled`, the source is compiled to it. So who reads what is promised of programs reads no
// pass, and a `build` by another policy is refused all the same.

ghost use Rattle.std.specs.Prelude.{◌≡◌, ◌≤◌, ⊤, [], map, string_bytes};
ghost use Rattle.tg_command.specs.Counts.{IsWithin, function_limits};
ghost use Rattle.tg_command.specs.Commands.{Ask, Asked, KeepsLimits, asked_of};
ghost use Rattle.tg_driver.specs.Answered.{Answers, IsDueBy};
ghost use Rattle.tg_driver.specs.Calls.{call_of, shelf_of, stream_of, streams_of};
ghost use Rattle.tg_driver.specs.Compiled.{AnswersCompiled, texts_compiled};
ghost use Rattle.tg_driver.specs.Explained.{IsExplained};
ghost use Rattle.tg_driver.specs.GenMode.{IsGeneratedBy};
ghost use Rattle.tg_driver.specs.Modes.{InModeBy};
ghost use Rattle.tg_driver.specs.glue.Explanations.{text_of};
ghost use Rattle.tg_driver.specs.glue.PrivateCalls.{
  GivesText,
  LeavesAlone,
  ReadsNoInput,
  HasStarted,
  OrMemory,
  StaysBeforeStart,
};
ghost use Rattle.tg_driver.specs.OfFiles.{OfFile};
ghost use Rattle.tg_driver.specs.Watching.{if_watched};
ghost use Rattle.tg_driver.specs.glue.Watched.{HasWatchedRunBy};
ghost use Rattle.tg_driver.specs.Passes.{passes_of};

use crate::answers::Answer;
use crate::checking::answer_check;
use crate::delaying::answer_bare;
use crate::executing::answer_exec;
use crate::explaining::{Explanation, explain, told};
use crate::formatting::answer_format;
use crate::generating::answer_gen;
use crate::running::answer_run;
use crate::showing::answer_show;
use crate::streams::Streams;
use crate::telling::report;
use crate::tools::Tools;
use crate::writing::{Wanted, answer_written};
use std::alloc::Global;
use tg_bare_compile_proof::bare_is_as_meant;
use tg_base::{Shelf, Sink, Source};
use tg_command::{Command, CommandFault, Flags, Mode, read_words};
use tg_compile_proof::build_is_correct;
use tg_irc_definition::SpillPolicy;
use tg_profiler::Watcher;

/// The program: reads the words of a command, does what they ask, and answers the exit status. What
/// it compiles is compiled by the policy of the tools. With `--watch` their watchers see the run, and
/// each tells its report, line by line, on the error sink before the line of the status. With
/// `--bare` the machine of `exec` has delayed branches. With `--explain` the fault of a source is
/// explained behind its line. The tools are dropped by the end.
///
/// The answer is due both by what sources mean and by what they are compiled to: what `build`
/// writes, and what `run` and `gen` run, does what the source means, and is an assembly text that
/// the source is compiled to with the passes that the words switch on, by the rule of the policy;
/// and so is what `bare` writes, on the machine with delayed branches.
pub fn tiger<H: Shelf, I: Source, O: Sink, E: Sink>(
    alloc: Global,
    words: &[String],
    shelf: &mut H,
    input: &mut I,
    out: &mut O,
    err: &mut E,
    tools: Tools,
) -> u8
    ensures answers { Answers (call_of (rule tools.policy)
        (map (λ w. report w) tools.watchers.items) (map string_bytes words.now)
        (shelf_of H.files H.faults shelf.old shelf.new)
        (stream_of I.left I.faults input.old input.new)
        (stream_of O.taken O.faults out.old out.new)
        (stream_of E.taken E.faults err.old err.new)) result }
    ensures compiled { AnswersCompiled (call_of (rule tools.policy)
        (map (λ w. report w) tools.watchers.items) (map string_bytes words.now)
        (shelf_of H.files H.faults shelf.old shelf.new)
        (stream_of I.left I.faults input.old input.new)
        (stream_of O.taken O.faults out.old out.new)
        (stream_of E.taken E.faults err.old err.new)) result }
    ensures files { H.files shelf.new ≡ H.files shelf.old }
    ensures err_later { E.faults err.old ≤ E.faults err.new }
{
    build_is_correct();
    bare_is_as_meant();
    let mut tools = tools;
    let streams = Streams { input, out };
    let mut explanation = Explanation::Nothing;
    let answer = answer_words(
        alloc,
        words,
        shelf,
        streams,
        &mut *tools.policy,
        &mut tools.watchers,
        &mut explanation,
    );
    report(alloc, err, &tools.watchers, answer, told(&explanation))
}

/// The answer that is due for the words, and what is told behind its line.
fn answer_words<H: Shelf, I: Source, O: Sink>(
    alloc: Global,
    words: &[String],
    shelf: &mut H,
    streams: Streams<I, O>,
    policy: &mut dyn SpillPolicy,
    watchers: &mut Vec<Box<dyn Watcher>>,
    explanation: &mut Explanation,
) -> Answer
    requires { text_of explanation.old ≡ [] }
    ensures due { IsDueBy (texts_compiled (rule policy.old))
        (λ a. HasWatchedRunBy (λ w. stands w) (λ w. report w) a.flags.bare
        (if_watched a.flags watchers.old.items) watchers.new.items (streams_of
        (stream_of I.left I.faults streams.entry.input.now streams.exit.0.now)
        (stream_of O.taken O.faults streams.entry.out.now streams.exit.1.0.now)))
        (map string_bytes words.now)
        (shelf_of H.files H.faults shelf.old shelf.new)
        (streams_of
        (stream_of I.left I.faults streams.entry.input.now streams.exit.0.now)
        (stream_of O.taken O.faults streams.entry.out.now streams.exit.1.0.now))
        result }
    ensures unwatched { HasStarted result → (a : Asked) → Ask (map string_bytes words.now) a
        → ReadsNoInput a.mode → watchers.new.items ≡ [] }
    ensures explained { IsExplained (map string_bytes words.now)
        (shelf_of H.files H.faults shelf.old shelf.new) result (text_of explanation.new) }
    ensures files { H.files shelf.new ≡ H.files shelf.old }
{
    match read_words(alloc, words) {
        Ok(command) => {
            let mut source = Vec::new(alloc);
            let answer = answer_command(
                alloc,
                &command,
                shelf,
                streams,
                policy,
                watchers,
                &mut source,
            );
            *explanation = explain(alloc, command.flags, &source, answer);
            answer
        }
        Err(CommandFault::Usage) => Answer::Usage,
        Err(CommandFault::Memory) => Answer::OutOfMemory,
    }
}

/// The answer to a command, by its mode, and the source that has the fault that is answered.
fn answer_command<H: Shelf, I: Source, O: Sink>(
    alloc: Global,
    command: &Command,
    shelf: &mut H,
    streams: Streams<I, O>,
    policy: &mut dyn SpillPolicy,
    watchers: &mut Vec<Box<dyn Watcher>>,
    source: &mut Vec<u8>,
) -> Answer
    requires { KeepsLimits (asked_of command.now) }
    ensures due { let left_alone = LeavesAlone command.now.mode
        (shelf_of H.files H.faults shelf.old shelf.new)
        (streams_of
        (stream_of I.left I.faults streams.entry.input.now streams.exit.0.now)
        (stream_of O.taken O.faults streams.entry.out.now streams.exit.1.0.now)) in
        let runs = HasWatchedRunBy (λ w. stands w) (λ w. report w) command.now.flags.bare
        (if_watched command.now.flags watchers.old.items) watchers.new.items (streams_of
        (stream_of I.left I.faults streams.entry.input.now streams.exit.0.now)
        (stream_of O.taken O.faults streams.entry.out.now streams.exit.1.0.now)) in
        OrMemory left_alone (InModeBy (texts_compiled (rule policy.old)) runs command.now.mode
        (shelf_of H.files H.faults shelf.old shelf.new)
        (streams_of
        (stream_of I.left I.faults streams.entry.input.now streams.exit.0.now)
        (stream_of O.taken O.faults streams.entry.out.now streams.exit.1.0.now))
        (asked_of command.now)) result }
    ensures unwatched { ReadsNoInput command.now.mode → watchers.new.items ≡ [] }
    ensures source { GivesText (shelf_of H.files H.faults shelf.old shelf.new)
        (asked_of command.now).file result source.new.items }
    ensures files { H.files shelf.new ≡ H.files shelf.old }
{
    keep_asked(command.flags, watchers);
    match command.mode {
        Mode::Check => answer_check(alloc, command, shelf, source),
        Mode::Build => {
            answer_written(
                alloc,
                command,
                shelf,
                streams,
                policy,
                Wanted::Assembly,
                source,
            )
        }
        Mode::Run => answer_run(alloc, command, shelf, streams, policy, watchers, source),
        Mode::Exec => answer_exec(alloc, command, shelf, streams, watchers),
        Mode::Alloc => {
            answer_written(
                alloc,
                command,
                shelf,
                streams,
                policy,
                Wanted::Allocations,
                source,
            )
        }
        Mode::Show => answer_show(alloc, command, shelf, streams, policy, source),
        Mode::Gen => generate_to(alloc, command, streams, policy),
        Mode::Format => answer_format(alloc, command, shelf, streams, source),
        Mode::Bare => answer_bare(alloc, command, shelf, streams, policy, source),
    }
}

/// Lets go of the watchers where the flags don't ask for them.
fn keep_asked(flags: Flags, watchers: &mut Vec<Box<dyn Watcher>>)
    ensures { watchers.new.items ≡ if_watched flags watchers.old.items }
{
    if !flags.watch {
        watchers.clear();
    }
}

/// The answer of the mode `gen`, which writes to the output alone.
fn generate_to<I: Source, O: Sink>(
    alloc: Global,
    command: &Command,
    streams: Streams<I, O>,
    policy: &mut dyn SpillPolicy,
) -> Answer
    requires limits { KeepsLimits (asked_of command.now) }
    requires number { IsWithin function_limits command.now.number }
    ensures due { OrMemory ⊤ (IsGeneratedBy
        ((texts_compiled (rule policy.old)).assembly (passes_of (asked_of command.now)))
        (stream_of O.taken O.faults streams.entry.out.now streams.exit.1.0.now)
        (asked_of command.now)) result }
    ensures before_start { StaysBeforeStart
        (stream_of O.taken O.faults streams.entry.out.now streams.exit.1.0.now) result }
    ensures unread { streams.exit.0.now ≡ streams.entry.input.now }
{
    let Streams { input: _, out } = streams;
    answer_gen(alloc, command, out, policy)
}

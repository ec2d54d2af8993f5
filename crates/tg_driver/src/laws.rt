// What the end of a run says is a law, and not a clause of the contract (`runs_are_as_meant`,
// `commands_are_as_meant`). The contract says for every input that the run is the machine's, on
// a text that does what the source means. The law speaks of the bytes of the input, which the
// contract gives: those that it tells, or those that were read where it tells none.

ghost use Rattle.std.specs.Prelude.{◌≡◌, ◌⊎◌, ℕ, Bool, List, [], Some, take};
ghost use Rattle.tg_machine_state.specs.declared.ends.RunEnd.{RunEnd};
ghost use Rattle.tg_isa.specs.declared.images.Image.{Image};
ghost use Rattle.tg_profiler.specs.Watching.{Report};
ghost use Rattle.tg_command.specs.declared.modes.Mode.{Mode};
ghost use Rattle.tg_command.specs.Commands.{Asked};
ghost use Rattle.tg_driver.specs.declared.answers.Answer.{Answer};
ghost use Rattle.tg_driver.specs.declared.answers.Answer.TheVariants.{
  Finished,
  OutOfMemory,
  Written,
};
ghost use Rattle.tg_driver.specs.Answered.{Answers};
ghost use Rattle.tg_driver.specs.Calls.{Call, Stream, Streams};
ghost use Rattle.tg_driver.specs.ExecMode.{IsExecuted};
ghost use Rattle.tg_driver.specs.Explained.{TellsWhy, no_memory_line};
ghost use Rattle.tg_driver.specs.FormatMode.{Formats, IsFormatted};
ghost use Rattle.tg_driver.specs.laws.OfTexts.{TakeOneText, IsDueOfText, most_of};
ghost use Rattle.tg_driver.specs.glue.PrivateCalls.{HasStarted};
ghost use Rattle.tg_driver.specs.Runs.{HasRunBy};
ghost use Rattle.tg_driver.specs.laws.Settled.{IsExact, reports_on};
ghost use Rattle.tg_driver.specs.Watching.{HasToldRunBy};
ghost use Rattle.tg_driver.specs.laws.Explanations.{ExpectedAreTold};
ghost use Rattle.tg_driver.specs.laws.Laws.{Gives, IsFaultless, IsGood, IsSettled};
ghost use Rattle.tg_driver.specs.laws.Meanings.{SourcesAreNeverStuck};
ghost use Rattle.tg_driver.specs.laws.MeantCommands.{DoesAsMeant};
ghost use Rattle.tg_driver.specs.laws.MeantEnds.{
  BareRunsAreMeant,
  GeneratedAreMeant,
  RunsAreMeant,
  StatusesAreMeant,
};
ghost use Rattle.tg_driver.specs.laws.Safe.{IsSafe};

use tg_bare_compile_proof::bare_ends_are_as_meant;
use tg_compile_proof::{ends_are_as_meant, exits_are_words};
use tg_explain::expected_is_all;

/// The law that the commands of a mode have at most one answer for a text, but where the streams
/// were touched: an end of a run, which the input decides too, or whether the output took what was
/// written. So each refusal comes exactly where its cause stands, whatever the policies, and
/// whatever else the commands ask for, flags too; or it is out of memory. And a text has one
/// explanation, or there was no memory for it. It does nothing.
pub fn one_answer<I, O>()
    ensures answers { (s : Streams I O) (reporters others : List Report) (reports told : List ℕ)
        (mode : Mode) (one other : Asked) (text : List ℕ) (a b : Answer)
        → IsDueOfText (HasToldRunBy s one.flags.bare reporters reports) mode one text a
        → IsDueOfText (HasToldRunBy s other.flags.bare others told) mode other text b
        → (a ≡ b) ⊎ (HasStarted a × HasStarted b) }
    ensures explanations { (text one other : List ℕ) → TellsWhy text one → TellsWhy text other
        → (one ≡ other) ⊎ (one ≡ no_memory_line) ⊎ (other ≡ no_memory_line) }
{}

/// The law that where the tokens of a text have S1, its explanation tells exactly the kinds of tokens
/// with which some program goes on behind those before. It does nothing.
pub fn expected_are_told()
    ensures { ExpectedAreTold }
{
    expected_is_all();
}

/// The law that a run of either machine ends exactly as the definition's run does on the same
/// bytes, where the input tells them and no read or write ended it: it writes what that one writes,
/// and leaves what it leaves, whatever the counts of faults did. So no failed read or write is
/// passed over. It does nothing.
pub fn runs_are_exact<I, O>()
    ensures { (s : Streams I O) (bare : Bool) (image : Image) (heap stack steps : ℕ) (end : RunEnd)
        (bytes : List ℕ)
        → HasRunBy s bare image heap stack steps end
        → s.input.told s.input.before ≡ Some bytes → IsFaultless (Finished end)
        → IsExact s bare image heap stack steps end bytes }
{}

/// The law that what watchers tell of a run are the reports of exactly what the definition's run
/// fetches on the same bytes, where the input tells them and no read or write ended it; and that of
/// a run of the machine with delayed branches nothing is told. It does nothing.
pub fn reports_are_exact<I, O>()
    ensures { (s : Streams I O) (bare : Bool) (reporters : List Report) (reports : List ℕ)
        (image : Image) (heap stack steps : ℕ) (end : RunEnd) (bytes : List ℕ)
        → HasToldRunBy s bare reporters reports image heap stack steps end
        → s.input.told s.input.before ≡ Some bytes → IsFaultless (Finished end)
        → reports ≡ reports_on bare reporters image heap stack steps bytes }
{}

/// The law that two calls that run one assembly text on one machine have one answer where their
/// inputs tell the same bytes and no read or write ended a run, out of memory aside. It does
/// nothing.
pub fn answers_are_exact<I, O, J, P>()
    ensures { (s : Streams I O) (t : Streams J P) (reporters others : List Report)
        (reports told : List ℕ) (asked : Asked) (text bytes : List ℕ) (a b : Answer)
        → s.input.told s.input.before ≡ Some bytes → t.input.told t.input.before ≡ Some bytes
        → IsFaultless a → IsFaultless b
        → IsExecuted (HasToldRunBy s asked.flags.bare reporters reports) asked text a
        → IsExecuted (HasToldRunBy t asked.flags.bare others told) asked text b
        → a ≡ b }
{}

/// The law of what a call leaves, whatever it is given: a refusal touches no stream, what a mode
/// doesn't read is as it was, what the output took is a prefix of what was to be written, and each
/// failed read or write has a count as its cause. It does nothing.
pub fn answers_are_safe<H, I, O, E>()
    ensures { (c : Call H I O E) (status : ℕ) (given : Answers c status)
        → IsSafe c status given.reports given.answer given.explanation }
{}

/// The law that a call with good words for a file that is there, in which no count of faults rose,
/// is answered as its text and its input settle, or as out of memory. It does nothing.
pub fn answers_are_complete<H, I, O, E>()
    ensures { (c : Call H I O E) (status : ℕ) (asked : Asked) (file : List ℕ)
        → Answers c status → IsGood c asked file
        → IsSettled c status asked (take (most_of asked.mode) file)
        ⊎ Gives c status [] OutOfMemory [] }
{}

/// The law that the evaluation of an accepted source is never stuck: it meets no value of the wrong
/// kind and no name without meaning. It does nothing.
pub fn sources_are_never_stuck()
    ensures { SourcesAreNeverStuck }
{}

/// Laws of the ends of `run` and of `gen`: whatever the input tells, where no read or write ended the
/// run, there are bytes on which the end, what was written and what was read of them are the meaning
/// of the source; those that the input tells, where it does; and the status of each ending. They do
/// nothing.
pub fn runs_are_as_meant<I, O>()
    ensures runs { RunsAreMeant I O }
    ensures generated { GeneratedAreMeant O }
    ensures statuses { StatusesAreMeant }
{
    ends_are_as_meant();
    exits_are_words();
}

/// The law of the ends of `exec --bare` on a text that `bare` writes: whatever the input tells, where
/// no read or write ended the run, there are bytes on which the end, what was written and what was
/// read of them are the meaning of the source, and at the limit of steps more than a quarter of them
/// are allowed without delay slots for what it costs. It does nothing.
pub fn bare_runs_are_as_meant<I, O>()
    ensures { BareRunsAreMeant I O }
{
    bare_ends_are_as_meant();
}

/// The headline of commands: with good words for a file that is there, and where no count of faults
/// rose, `build` writes an assembly text that does what its source means, `bare` one that does so on
/// the machine with delayed branches, and `run` and `gen` end by the meaning of theirs; a source
/// with a fault is answered by its first, and one that is too large for `bare` there by that; or
/// memory ran out. It does nothing.
pub fn commands_are_as_meant<H, I, O, E>()
    ensures { (c : Call H I O E) (status : ℕ) (asked : Asked) (file : List ℕ)
        → Answers c status → IsGood c asked file
        → DoesAsMeant c status asked (take (most_of asked.mode) file)
        ⊎ Gives c status [] OutOfMemory [] }
{
    ends_are_as_meant();
}

/// Laws of `format`: a source has at most one canonical text; so two calls that write one of one
/// source write the same, whatever the policies. They do nothing.
pub fn formats_once<O, P>()
    ensures text { (source one other : List ℕ) → Formats source one → Formats source other
        → one ≡ other }
    ensures calls { (out : Stream O) (other : Stream P) (source : List ℕ)
        → IsFormatted out source Written → IsFormatted other source Written
        → TakeOneText out other }
{}

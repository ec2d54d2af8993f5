ghost use Rattle.tg_bare_proof.specs.laws.Laws.{
  CodeIsDelayed,
  DelayedHasImage,
  DelayedLinesAgree,
  DelayedRunOnTheMachine,
  EmittedMayBeDelayed,
  FilledHasImage,
  LinesAreDelayed,
  LinesKeepOnTheMachine,
  LongCodeHasImage,
};

use tg_bare::bare_runs_by_fuel;
use tg_delay_proof::{delaying_keeps_calls, delaying_keeps_runs, slots_are_returns};
use tg_simulation::{agreement_goes_on, passes_compose};

/// The law of the machine with delayed branches: as long as lines with their slots don't go wrong,
/// their run is the machine's run of the image that they make, step by step.
pub fn delayed_run_on_the_machine()
    ensures { DelayedRunOnTheMachine }
{}

/// The law of a pass that ends in lines, whatever words stand behind their calls: with slots it
/// ends in the machine's run of their image.
pub fn lines_are_delayed()
    ensures { LinesAreDelayed }
{
    passes_compose();
    delaying_keeps_runs();
    delaying_keeps_calls();
    slots_are_returns();
    delayed_run_on_the_machine();
}

/// The law of lines and of the machine's run of their delayed lines.
pub fn lines_keep_on_the_machine()
    ensures { LinesKeepOnTheMachine }
{
    delaying_keeps_runs();
    delayed_run_on_the_machine();
}

/// The law of agreement: with a source, from the lines to the machine with delayed branches.
pub fn delayed_lines_agree()
    ensures { DelayedLinesAgree }
{
    agreement_goes_on();
    bare_runs_by_fuel();
    lines_keep_on_the_machine();
}

/// The laws of what is emitted: it has no label of a branch that is turned round and no `jalr`, and
/// an assembly is delayed in its code alone.
pub fn emitted_may_be_delayed()
    ensures may { EmittedMayBeDelayed }
    ensures code { CodeIsDelayed }
{}

/// The laws of images: lines with their slots have one where they are short, and where they are
/// what is emitted of long code.
pub fn filled_has_image()
    ensures short { FilledHasImage }
    ensures long { LongCodeHasImage }
{}

/// The law of what is emitted, however long it is: with its delay slots it has an image.
pub fn delayed_has_image()
    ensures { DelayedHasImage }
{}

// Emission is proved in two halves, over runs of lines: functions, frames and large offsets
// above; words, places and labels below. Which word a call puts into `$ra` is a parameter of
// such a run, so neither half speaks of addresses of code.

ghost use Rattle.tg_emit_proof.specs.laws.Emission.{
  EmissionAgrees,
  EmitIsCorrect,
  EmissionKeepsRuns,
};
ghost use Rattle.tg_emit_proof.specs.laws.Laws.{LinesRunOnTheMachine, PlacesAreReturns};

use tg_emit_laws::program_has_image;
use tg_isa::machine_runs_by_fuel;

/// The law of runs of lines: as long as one doesn't go wrong, it is the machine's run of the image
/// that the lines make, step by step.
pub fn lines_run_on_the_machine()
    ensures { LinesRunOnTheMachine }
{}

/// The law of the places after the calls of an image: they differ, and none of them is 0, at which
/// a run ends.
pub fn places_are_returns()
    ensures { PlacesAreReturns }
{}

/// The law of the first half: the lines of functions over registers do what the functions do,
/// whatever words stand for the places after their calls, for at most a row a word of the
/// instructions.
pub fn emission_keeps_runs()
    ensures { EmissionKeepsRuns }
{}

/// The law of emission: the machine's run of the image does what the functions over registers do.
pub fn emit_is_correct()
    ensures { EmitIsCorrect }
{
    emission_keeps_runs();
    program_has_image();
    lines_run_on_the_machine();
    places_are_returns();
}

/// The law of emission both ways, over the image of the text: where no run of the functions goes
/// wrong, the machine has the same outputs, input left and ends, in at least as many steps as they
/// take turns, and ends no other way.
pub fn emission_agrees()
    ensures { EmissionAgrees }
{
    emit_is_correct();
    program_has_image();
    machine_runs_by_fuel();
}

// Evaluation is written once, over a set of actions, and has two forms: functions from a state
// to a result explain the language; runs that take what comes next are what a translation is
// compared with. One induction over the tree (`tg_semantics/proofs/Related.antt`) serves every
// law.
//
// An activation opens before its unit of fuel is used, so its weight and depth count even where
// no fuel is left. A callee's name is looked up, and the levels out to it paid, before the
// arguments are evaluated, since the static link is the first argument. Neither can be seen in
// an accepted program with fuel enough.
//
// One `Outcome`, by the endings that a program has. Agreement says nothing of the heap that is
// taken: an end by a full heap shows in the ending.
//
// A store reads its place first, so what isn't there is stuck, also a variable. A read costs
// nothing, so no number changes.

ghost use Rattle.tg_semantics.specs.MachineRuns.{TurnsAsSource, NoEndingIsFull, OnlyStuckIsStuck};
ghost use Rattle.tg_semantics.specs.laws.Laws.{
  FormsAgree,
  NothingIsTakenBack,
  MoreFuelIsIdle,
  MoreFuelGoesOn,
  HasOneOutcome,
  FuelUnfolds,
  ProgramUnfolds,
};

/// A law: evaluation by results and evaluation that passes along what comes next have one outcome.
pub fn forms_agree()
    ensures { FormsAgree }
{}

/// A law: output only grows, and the heap, the cost and the greatest depth never fall.
pub fn nothing_is_taken_back()
    ensures { NothingIsTakenBack }
{}

/// Laws of fuel: more of it changes nothing of a run that is over, and a run that is out of it goes
/// on; so a program has at most one outcome.
pub fn fuel_is_a_bound()
    ensures idle { MoreFuelIsIdle }
    ensures on { MoreFuelGoesOn }
    ensures one { HasOneOutcome }
{}

/// Laws of what stands after a unit of fuel: it is the job's run with the same after the next
/// unit, and a program is its body's run over it.
pub fn fuel_unfolds()
    ensures jobs { FuelUnfolds }
    ensures programs { ProgramUnfolds }
{}

/// Laws of a program's run as one that code may follow: a unit of fuel is used there as here, no
/// ending stands for a full stack, and only what is stuck is taken for it.
pub fn programs_as_sources()
    ensures turns { TurnsAsSource }
    ensures full { NoEndingIsFull }
    ensures stuck { OnlyStuckIsStuck }
{}

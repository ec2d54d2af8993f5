ghost use Rattle.tg_delay_proof.specs.laws.Laws.{
  DelayingKeepsCalls,
  DelayingKeepsRuns,
  FillingKeepsRuns,
  LinesStayOver,
  SlotsAreReturns,
  TurningKeepsRuns,
};

use tg_simulation::passes_compose;

/// The law of slots: lines with their slots do what the lines do, in at most twice as many rows.
pub fn filling_keeps_runs()
    ensures { FillingKeepsRuns }
{}

/// The law of turned branches: each over a jump, they lead where they led, in at most twice as many
/// rows.
pub fn turning_keeps_runs()
    ensures { TurningKeepsRuns }
{}

/// The law of delayed lines: both, one after the other.
pub fn delaying_keeps_runs()
    ensures { DelayingKeepsRuns }
{
    passes_compose();
    filling_keeps_runs();
    turning_keeps_runs();
}

/// The law of calls: there are as many of them as before.
pub fn delaying_keeps_calls()
    ensures { DelayingKeepsCalls }
{}

/// The law of the places after the slots of calls: they differ, and none of them is 0, at which a
/// run ends.
pub fn slots_are_returns()
    ensures { SlotsAreReturns }
{}

/// The law of runs of lines by fuel: what has ended stays so with more.
pub fn lines_stay_over()
    ensures { LinesStayOver }
{}

ghost use Rattle.tg_bare.specs.BareRuns.{
  BareEndsByItsWork,
  BareGoesOn,
  BareRunsByFuel,
  BareStaysOver,
};
ghost use Rattle.tg_bare.specs.laws.Laws.{BareEndsAgain, BareRunsAreExact};

/// The laws of runs by fuel of the machine with delayed branches: such a run is what so many steps
/// come to, what has ended stays so with more fuel and did so in as many steps as it has worked,
/// and with more fuel a run goes on from what it was.
pub fn bare_runs_by_fuel()
    ensures run { BareRunsByFuel }
    ensures over { BareStaysOver }
    ensures goes_on { BareGoesOn }
    ensures work { BareEndsByItsWork }
{}

/// The law, for sources `I` and sinks `O`, that a run of a loaded machine with delayed branches
/// ends exactly as the definition's run does on the same bytes, where the source tells them and no
/// read or write ended it: it writes what that one writes, and leaves what it leaves.
pub fn bare_runs_are_exact<I, O>()
    ensures { BareRunsAreExact I O }
{}

/// The law of a machine with delayed branches that has ended: after a call that answered another
/// end than the limit of steps, a call answers that end again, and leaves the machine, the source
/// and the sink as they are.
pub fn bare_ends_again<I, O>()
    ensures { BareEndsAgain I O }
{}

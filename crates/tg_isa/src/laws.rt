ghost use Rattle.tg_isa.specs.ImageRuns.{
  MachineEndsByItsWork,
  MachineGoesOn,
  MachineStaysOver,
  RunsByFuel,
};
ghost use Rattle.tg_isa.specs.laws.Anywhere.{EffectsAreAnywhere};

/// The laws of the machine's run by fuel: it is what so many steps come to, what has ended stays so
/// with more fuel and did so in as many steps as it has worked, and with more fuel a run goes on
/// from what it was.
pub fn machine_runs_by_fuel()
    ensures run { RunsByFuel }
    ensures over { MachineStaysOver }
    ensures goes_on { MachineGoesOn }
    ensures work { MachineEndsByItsWork }
{}

/// The law of the effects of rows: one that neither jumps nor branches does the same wherever the
/// code and the place are.
pub fn effects_are_anywhere()
    ensures { EffectsAreAnywhere }
{}

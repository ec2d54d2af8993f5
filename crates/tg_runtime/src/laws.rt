ghost use Rattle.tg_runtime.specs.laws.Laws.{LabelsInOrder, AllAreRoutines, RuntimeHasWords};

/// The laws of the runtime's functions: their labels are 0 to 12; each is closed, calls no
/// function, names no literal, and has its temporaries below those of its frame; each is within a
/// constant length and constant needs; and all constants are words.
pub fn routines_are_closed()
    ensures labels { LabelsInOrder }
    ensures routines { AllAreRoutines }
    ensures words { RuntimeHasWords }
{}

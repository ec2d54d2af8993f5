ghost use Rattle.tg_redundancy_proof.specs.laws.Laws.{KnownCodeKeeps, KnownIsCorrect};

/// The law of one function: in every program known code may stand in the place of its code.
pub fn known_code_keeps()
    ensures { KnownCodeKeeps }
{}

/// The law of programs: with known code in all functions a program does the same, with as much
/// fuel, and with no more instructions.
pub fn known_is_correct()
    ensures { KnownIsCorrect }
{}

ghost use Rattle.tg_munch.specs.laws.Lengths.{
  InstructionsAreFew,
  WordsAreFew,
  TemporariesAreFew,
  ShiftsAreLong,
};
ghost use Rattle.tg_munch.specs.laws.Laws.{
  MovesStay,
  CodeEndsWell,
  RegistersAreFixed,
  SlotsAreBelow,
  TempsAreBelow,
  NamesStay,
  MarksDiffer,
  MarksStand,
};

/// Laws of the chosen instructions: each move of one temporary to another in flat code is a move
/// among them, and the last one goes on nowhere where the last element of the flat code doesn't.
pub fn code_is_kept()
    ensures moves { MovesStay }
    ensures ends { CodeEndsWell }
{}

/// Laws of what the instructions name: registers that code names before allocation, of which
/// neither `$zero` nor `$sp` is written, slots of the frame, temporaries that are drawn, and
/// functions, literals and faults of the flat code alone.
pub fn code_names_its_own()
    ensures registers { RegistersAreFixed }
    ensures slots { SlotsAreBelow }
    ensures temps { TempsAreBelow }
    ensures names { NamesStay }
{}

/// Laws of the marks among the instructions of flat code whose marks differ and that goes to none
/// but its own: they differ, those that are drawn for shifts too, and each that is led to stands
/// there.
pub fn code_is_marked()
    ensures differ { MarksDiffer }
    ensures stand { MarksStand }
{}

/// Laws of the number of instructions: there are at most as many as the flat code of their
/// function is long, and nine more, for the registers that are kept; and no more temporaries and
/// marks are drawn for them than that. However the words that come of them are counted, at most 13
/// of a move and 10 of any other, there are at most twelve for each unit of that length, and nine
/// moves'.
pub fn munch_is_bounded()
    ensures few { InstructionsAreFew }
    ensures words { WordsAreFew }
{}

/// Laws of the temporaries that are drawn and of the words for the arguments of calls: with the
/// slots they are at most the needs of the flat code, three for each shift by a word, and nine for
/// the registers that are kept; and a shift by a word counts 21 in the length of the flat code.
pub fn temporaries_are_few()
    ensures few { TemporariesAreFew }
    ensures shifts { ShiftsAreLong }
{}

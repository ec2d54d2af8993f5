ghost use Rattle.tg_canon.specs.laws.Laws.{
  GivesCanonical,
  GivesClosed,
  NamesStay,
  TempsGrow,
  TempsStay,
};
ghost use Rattle.tg_canon.specs.laws.Meaning.{
  BodiesAreCarried,
  CallsAreCarried,
  LengthStays,
  CanonIsCorrect,
  NeedsStay,
};

/// The laws of shapes that the pass's function obeys.
pub fn canonical_statements()
    ensures canonical { GivesCanonical }
    ensures closed { GivesClosed }
{}

/// The laws of names: the statements name nothing that the body doesn't name, but for temporaries
/// that are drawn. Where those of the body are below the number of temporaries, all are below the
/// new one, which is no less.
pub fn names_stay()
    ensures names { NamesStay }
    ensures temps { TempsStay }
    ensures grow { TempsGrow }
{}

/// The laws of runs: each body's statements do what the body did, with no more work, wherever calls
/// do what they did. So calls of the functions of a code do, and programs.
pub fn canon_is_correct()
    ensures bodies { BodiesAreCarried }
    ensures calls { CallsAreCarried }
    ensures programs { CanonIsCorrect }
{}

/// The laws of sizes: a function in canonical form is no longer than its tree, and needs no more
/// with what is drawn for it.
pub fn canon_is_bounded()
    ensures length { LengthStays }
    ensures needs { NeedsStay }
{}

ghost use Rattle.tg_explain.specs.laws.AllExpected.{ExpectsAll};
ghost use Rattle.tg_explain.specs.laws.WholeEscapes.{TellsWholeEscapes};

/// A law: a kind is among those that are expected if and only if it can follow. It does nothing.
pub fn expected_is_all()
    ensures { ExpectsAll }
{}

/// A law: a bad escape is told with all that was read of it and the byte that doesn't fit. It does
/// nothing.
pub fn escapes_are_whole()
    ensures { TellsWholeEscapes }
{}

ghost use Rattle.tg_redundancy.specs.laws.Laws.{KnownIsCode, KnownIsShort, KnownPassesTests};

/// The law that known code is code: its marks differ and stand where a jump leads, its temporaries
/// are those of the code, and it goes on nowhere behind its end.
pub fn known_is_code()
    ensures { KnownIsCode }
{}

/// The law of what known code names: its instructions pass every test that those of the code pass,
/// and that moves of temporaries and jumps do.
pub fn known_names_its_own()
    ensures { KnownPassesTests }
{}

/// The law of lengths: known code has no more instructions than the code, and takes three words
/// more for each move at most.
pub fn known_is_bounded()
    ensures { KnownIsShort }
{}

ghost use Rattle.tg_typecheck.specs.laws.Laws.{CheckedHasType, FaultsStandWithin, IsNeverStuck};
ghost use Rattle.tg_typecheck.specs.laws.Laws.{NotesAreFound};

/// A law: a checked program has a type by the relation of typed parts, which asks of each use,
/// call, field and comparison what the program's notes say there.
pub fn checked_has_type()
    ensures { CheckedHasType }
{}

/// A law: what is noted at a byte is what `Notes::find` answers.
pub fn notes_are_found()
    ensures { NotesAreFound }
{}

/// A law: a checked program is never stuck.
pub fn never_stuck()
    ensures { IsNeverStuck }
{}

/// A law: a fault of types stands where a part of the program begins.
pub fn faults_stand_within()
    ensures { FaultsStandWithin }
{}

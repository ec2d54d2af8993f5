ghost use Rattle.tg_explain_types.specs.laws.Distances.{TestsOneEdit, TestsTwoEdits};
ghost use Rattle.tg_explain_types.specs.laws.Types.{TypesAreTold};

/// A law: the test of one edit holds exactly where one edit at most lies between two texts. It does
/// nothing.
pub fn one_edit_is_exact()
    ensures { TestsOneEdit }
{}

/// A law: the test of two edits holds exactly where two edits at most lie between two texts. It
/// does nothing.
pub fn two_edits_are_exact()
    ensures { TestsTwoEdits }
{}

/// A law: the types that explanations tell, the tests on them and the types of the standard
/// functions are those of typing. It does nothing.
pub fn types_are_told()
    ensures { TypesAreTold }
{}

// The relation of typed parts says what the translation goes by: that a declared function has a
// result exactly where its header names one, and that there are values of the type of each
// variable, parameter, field and element. Without it what is shown of each expression would be
// false.
//
// Links are right for one body on one input, since other bodies and inputs may differ. The
// theorem simulates the run that looks at them; that of the trees comes of it, since it never
// goes wrong.
//
// What an expression is translated by is a parameter of its situation (`SituationBy`,
// `LeftSide`): an update's value is translated after a read whose value is known
// (`behind_read`), any other by `expression`. So each operator has one lemma for both.

ghost use Rattle.tg_translate_proof.specs.laws.Activations.{
  AssignmentsFindTheirActivation,
  TemporariesAreOwn,
};
ghost use Rattle.tg_translate_proof.specs.laws.Laws.{
  LinksOfCallsAreRight,
  RunsGoOnAlike,
  TranslateIsCorrect,
  SizesTellNothing,
};

/// The trees of a checked program, with the runtime's, agree with its meaning, fill the stack where
/// its calls are too deep, and each of their calls has the right static link.
pub fn translate_is_correct()
    ensures { TranslateIsCorrect }
{}

/// What comes of it: the static link of each call is right, and runs with other sizes of frames end
/// in the same way, or go on in the same way, but for a full stack.
pub fn runs_are_alike()
    ensures links { LinksOfCallsAreRight }
    ensures sizes { SizesTellNothing }
    ensures onward { RunsGoOnAlike }
{
    translate_is_correct();
}

/// A variable that a nested function changes is the one in its activation: static links lead to the
/// current activation of the function that declares it, and the word there changes alone. Those in
/// temporaries are the function's own.
pub fn assignments_find_their_activation()
    ensures frames { AssignmentsFindTheirActivation }
    ensures temporaries { TemporariesAreOwn }
{}

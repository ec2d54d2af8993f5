// The shapes of its trees are laws in a crate of their own (`tg_translate_laws`), so the
// translation isn't proved again with each. `Want`, `Within`, `Home`, `Callee`, `Operand` and
// `HeldAddress` are exported for that. One walk gives all of them, with breaks and temporaries
// as a parameter, so each law asks for no more than it needs.
//
// Laws of frames go function by function, over what the text says of each function's own
// parameters and body. How far a tree goes is told by accesses of memory one within another,
// since the load of a link and that of a variable in a first slot look alike.
//
// A label stands as often as it was drawn: every step of the translation keeps that, counted for
// each number. Each is drawn once, so all labels differ and each called one stands there.
//
// Laws over checked programs speak of plain trees, so they can be cited where only a text is
// known.

ghost use Rattle.tg_translate_laws.specs.laws.GivingBack.{LinkedTreesGiveBack, TreesGiveBack};
ghost use Rattle.tg_translate_laws.specs.laws.Laws.{
  BodiesAreClosed,
  CheckedBodiesAreClosed,
  CheckedConstantsAreWords,
  CheckedFramesAreSmall,
  CheckedReaches,
  CheckedTemporariesAreDrawn,
  ConstantsAreWords,
  FunctionsAreWithin,
  LabelsAreAbove,
  LiteralsAreShort,
  LiteralsAreStrings,
  ProgramsAreLinked,
  SlotsAreFew,
  TemporariesAreDrawn,
};

use tg_runtime::routines_are_closed;
use tg_typecheck::{checked_has_type, notes_are_found};

/// Laws of the labels of every program, whatever it means: with the runtime after it, all labels
/// of functions and literals differ, the body's is 32, each function that is called and each
/// literal whose address is taken stands there, and each fault has a number of at most 20 bits.
/// The program's own labels are 32 and above.
pub fn programs_are_linked()
    ensures linked { ProgramsAreLinked }
    ensures above { LabelsAreAbove }
{
    routines_are_closed();
}

/// Laws of the bodies of a program's functions: each is closed, where each break of the text stands
/// in a loop of its function; and so it does in a program that the checker accepts.
pub fn bodies_are_closed()
    ensures text { BodiesAreClosed }
    ensures checked { CheckedBodiesAreClosed }
{
    checked_has_type();
}

/// Laws of temporaries: each that a function's body names is one that its frame has drawn, where
/// each variable that the text uses is one of its function or escapes; and so it does in a program
/// that the checker accepts, with the variables that its nested functions use as those that escape.
pub fn temporaries_are_drawn()
    ensures text { TemporariesAreDrawn }
    ensures reaches { CheckedReaches }
    ensures checked { CheckedTemporariesAreDrawn }
{
    checked_has_type();
    notes_are_found();
}

/// Laws of literals: there is one for each string of the text, in its order, with its length as a
/// word and its bytes; so literals have four bytes more than their strings.
pub fn literals_are_strings()
    ensures strings { LiteralsAreStrings }
    ensures short { LiteralsAreShort }
{}

/// Laws of frames, function by function in the order of the text: each has at most one slot for
/// each variable of its function that escapes, and one more for its static link; at most six
/// temporaries for each node of its function, and one more; and its body follows at most one static
/// link for each level on the way to a variable or a callee. Where functions are nested 32 deep at
/// most, its length is at most 145 for each node of the body, 6 for each of its parameters, and 18
/// more, its needs 208, 9 and 4, and it is nested at most 8 deep for each node of the body, and 62
/// more. So in a program that the checker accepts it has at most 32,769 slots and 196,609
/// temporaries, at most 33 accesses of memory one within another, a length of at most 800,000,
/// needs of at most 1,200,000 and a depth of at most 33,000.
pub fn translate_is_bounded()
    ensures slots { SlotsAreFew }
    ensures within { FunctionsAreWithin }
    ensures checked { CheckedFramesAreSmall }
{
    checked_has_type();
}

/// Laws of what gives a value back from the arms of its choices, in every tree: it does what a
/// return of the value does, with as much fuel, the same output, input left and end, and no more
/// work; and so it does in a run that looks at static links.
pub fn values_are_given_back()
    ensures trees { TreesGiveBack }
    ensures linked { LinkedTreesGiveBack }
{}

/// Laws of constants: each of the trees is a word, where the ints of the text are words, the
/// numbers of fields are below a fourth of all words, and nodes are as few; and so it is in a
/// program that the checker accepts, whose nodes are few.
pub fn constants_are_words()
    ensures text { ConstantsAreWords }
    ensures checked { CheckedConstantsAreWords }
{
    checked_has_type();
}

//! One program in every form that it takes on its way, computed: it does the same in each.
//!
//! It is computed by the definitions of the passes and of the meanings of their forms.
#![tactic(auto)]

ghost use Rattle.tg_pipeline_example.specs.laws.Laws.{
  CanonicalEnd,
  FlatEnds,
  FramesEnd,
  ImageEnds,
  InstructionsEnd,
  IsFound,
  KnownEnds,
  SourceEnds,
  TreesEnd,
  WordsAreCounted,
};

/// What typing notes of the program of `specs/Program.antt`, and which variables and links escape.
pub fn program_is_found()
    ensures { IsFound }
{}

/// The program as the language means it.
pub fn source_ends()
    ensures { SourceEnds }
{}

/// The program as trees.
pub fn trees_end()
    ensures { TreesEnd }
{}

/// The program as canonical statements.
pub fn statements_end()
    ensures { CanonicalEnd }
{}

/// The program as flat code.
pub fn flat_code_ends()
    ensures { FlatEnds }
{}

/// The program as instructions over temporaries.
pub fn instructions_end()
    ensures { InstructionsEnd }
{}

/// The program as instructions of which what is known is left out.
pub fn known_ends()
    ensures { KnownEnds }
{}

/// The words that an allocation makes of the instructions of the run at most, beside the units of
/// its flat code: the constants of `tg_correctness` are as small as moves let them be.
pub fn words_are_counted()
    ensures { WordsAreCounted }
{}

/// The program as instructions over registers, with each temporary in its frame.
pub fn frames_end()
    ensures { FramesEnd }
{}

/// The program as the machine's image.
pub fn image_ends()
    ensures { ImageEnds }
{}

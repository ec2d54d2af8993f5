ghost use Rattle.tg_emit_laws.specs.Images.{EmittedHasLabels, ProgramEntersBody, ProgramHasImage};
ghost use Rattle.tg_emit_laws.specs.Images.{ProgramIsCode, ProgramIsSound};

/// The law of the labels of an assembly: each that is given or named is one of the assembler's
/// syntax, so that the assembly has a text.
pub fn emitted_has_labels()
    ensures { EmittedHasLabels }
{}

/// The law of a program's text: the assembler never refuses it. Its lines are code whose fields
/// fit, its labels differ, each that is named stands, branches and jumps reach, and code and
/// statics are within the segments' limits. Its image begins at the first word of the program's
/// body.
pub fn program_has_image()
    ensures code { ProgramIsCode }
    ensures sound { ProgramIsSound }
    ensures image { ProgramHasImage }
    ensures entry { ProgramEntersBody }
{}

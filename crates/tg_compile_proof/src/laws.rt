// That fields are few is shown by a walk over typing (`Fields` of `tg_compile_proof`), since
// typing alone tells a field's place. So the constants of trees are words.
//
// `lowering_is_correct` takes any trees that may be flattened and whose constants are words, so
// what a pass over trees, as folding, makes of them needs no second proof. Which passes are
// switched on is one record, `Passes`, and `prepared` is what they make of a program. Bounds
// hold of functions in the places of others that are no larger (`ReducesTo`), so the measures of
// the text pay for folded functions too.

ghost use Rattle.tg_compile_proof.specs.laws.Laws.{
  AllocationIsKept,
  ChoiceIsKept,
  CompiledAgrees,
  CompileIsCorrect,
  CompiledMayRun,
  FollowingGoesOn,
  FragmentsHaveWords,
  FramesAreSizes,
  FramesAreSizesOfTrees,
  PrepareIsCorrect,
  ProgramsAreTranslated,
  RuntimeFramesFit,
};
ghost use Rattle.tg_compile_proof.specs.laws.Lowering.{
  FlatCodeMayBeChosen,
  LoweringIsCorrect,
  LoweringKeepsWords,
};
ghost use Rattle.tg_compile_proof.specs.laws.TextLaws.{
  BuildIsCorrect,
  EndedIsMeant,
  ExitsAreWords,
  RunningIsMeant,
};

use tg_canon_trace_proof::flatten_is_correct;
use tg_code_bounds::functions_are_bounded;
use tg_compile::{instructions_name_their_own, prepared_is_reduced};
use tg_correctness::{ends_tell, image_agrees, passes_agree};
use tg_emit_laws::program_has_image;
use tg_emit_proof::emit_is_correct;
use tg_fold::fold_is_correct;
use tg_isa::machine_runs_by_fuel;
use tg_literal_bounds::{strings_fit_text, trees_are_of_words};
use tg_munch_proof::{code_keeps_counts, munch_is_correct};
use tg_redundancy_proof::known_is_correct;
use tg_regalloc_proof::regalloc_is_correct;
use tg_runtime::routines_are_closed;
use tg_semantics::{forms_agree, programs_as_sources};
use tg_stack_bounds::{frames_are_light, trees_are_light};
use tg_translate_laws::{
    bodies_are_closed, constants_are_words, programs_are_linked, temporaries_are_drawn,
    translate_is_bounded,
};
use tg_translate_proof::translate_is_correct;
use tg_tree::trees_run;
use tg_typecheck::{checked_has_type, never_stuck};

/// The laws of runs from trees to instructions: flat code that the passes give is such as
/// instructions may be chosen for, and these do what the trees did. Each run of the trees that
/// doesn't go wrong is one of theirs, with at least as much fuel, the same output, input left and
/// end, and hardly more work; or thirteen words for each unit of it, where each instruction counts
/// the words that come of it.
pub fn lowering_is_correct()
    ensures may { FlatCodeMayBeChosen }
    ensures programs { LoweringIsCorrect }
    ensures words { LoweringKeepsWords }
{
    flatten_is_correct();
    tg_canon::canonical_statements();
    tg_canon::names_stay();
    tg_trace_schedule::blocks_are_well_formed();
    tg_trace_schedule::code_is_well_formed();
    tg_trace_schedule::names_stay();
    munch_is_correct();
}

/// The laws of what is compiled: it may be run, and its frames have sizes that the forms before it
/// may have.
pub fn compiled_may_run()
    ensures run { CompiledMayRun }
    ensures frames { FramesAreSizes }
    ensures trees { FramesAreSizesOfTrees }
{}

/// The laws of passes over trees that may be switched on: what they make of a program does what it
/// did, with no more work, and so it follows a source that the program follows. They do nothing.
pub fn prepare_is_correct()
    ensures programs { PrepareIsCorrect }
    ensures following { FollowingGoesOn }
{
    fold_is_correct();
}

/// The law of the runtime's frames: those that are open at once have 4,096 bytes.
pub fn runtime_frames_fit()
    ensures { RuntimeFramesFit }
{
    prepared_is_reduced();
    programs_are_linked();
    routines_are_closed();
    functions_are_bounded();
}

/// The law of constants: those of an accepted program's trees, and of the runtime's, are words.
pub fn fragments_have_words()
    ensures { FragmentsHaveWords }
{
    checked_has_type();
    constants_are_words();
    routines_are_closed();
}

/// The law of instructions: those that are chosen for a compiled program, whose constants are
/// words, keep what its flat code does, with known words moved and known tests left out.
pub fn choice_is_kept()
    ensures { ChoiceIsKept }
{
    lowering_is_correct();
    munch_is_correct();
    known_is_correct();
    code_keeps_counts();
}

/// The law of registers: the allocations of a compiled program keep what its instructions do.
pub fn allocation_is_kept()
    ensures { AllocationIsKept }
{
    instructions_name_their_own();
    regalloc_is_correct();
}

/// The law of the passes after the translation: where the trees follow a source, the machine
/// agrees with it.
pub fn compiled_agrees()
    ensures { CompiledAgrees }
{
    compiled_may_run();
    choice_is_kept();
    allocation_is_kept();
    flatten_is_correct();
    emit_is_correct();
    trees_run();
    machine_runs_by_fuel();
    passes_agree();
}

/// The law of the translation of compiled programs, and of the passes over trees after it: their
/// constants are words, and their trees follow the program, with frames of the sizes that their
/// allocations have.
pub fn programs_are_translated()
    ensures { ProgramsAreTranslated }
{
    prepared_is_reduced();
    prepare_is_correct();
    translate_is_correct();
    trees_are_light();
    frames_are_light();
    programs_are_linked();
    compiled_may_run();
    runtime_frames_fit();
    fragments_have_words();
}

/// The headline: an accepted program whose ints are words is compiled to a text whose image does
/// what the program means, whatever passes are switched on.
pub fn compile_is_correct()
    ensures { CompileIsCorrect }
{
    prepared_is_reduced();
    programs_are_translated();
    compiled_agrees();
    program_has_image();
    image_agrees();
    forms_agree();
    programs_as_sources();
    never_stuck();
    bodies_are_closed();
    temporaries_are_drawn();
    translate_is_bounded();
    routines_are_closed();
}

/// The headline: an assembly text that a source is built to has an image that does what the source
/// means. It does nothing.
pub fn build_is_correct()
    ensures { BuildIsCorrect }
{
    trees_are_of_words();
    compile_is_correct();
}

/// Laws of the ends of such a text's runs: each is as the source means. They do nothing.
pub fn ends_are_as_meant()
    ensures ended { EndedIsMeant }
    ensures running { RunningIsMeant }
{
    ends_tell();
}

/// The law of exits: the code that an evaluation of a source ends with is a word. It does nothing.
pub fn exits_are_words()
    ensures { ExitsAreWords }
{
    trees_are_of_words();
    strings_fit_text();
}

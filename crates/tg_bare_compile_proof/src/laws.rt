// What is asked of the machine with delayed branches is what is asked of the one without, with a
// factor on steps: a definition of its own, of which that one is the instance by 1
// (`once_is_as_meant`). A world of this machine is seen as one of that machine, since what a
// program means asks for output, input and ends alone.
//
// The passes before the slots are proved once: the run of the lines, for the words that stand
// behind the slots of calls in the image, takes the place of the machine's run in `PassesAgree`,
// and agreement goes on from there.

ghost use Rattle.tg_bare_compile_proof.specs.laws.Laws.{
  BareCompileIsCorrect,
  DelayedAgrees,
  DelayedIsShort,
  DelayedTextHasImage,
};
ghost use Rattle.tg_bare_compile_proof.specs.laws.Meaning.{BareAgreementIsMeant, OnceIsAsMeant};
ghost use Rattle.tg_bare_compile_proof.specs.laws.TextLaws.{
  BareBuildIsCorrect,
  BareEndedIsMeant,
  BareRunningIsMeant,
};

use tg_bare::bare_runs_by_fuel;
use tg_bare_proof::{delayed_has_image, delayed_lines_agree, emitted_may_be_delayed};
use tg_canon_trace_proof::flatten_is_correct;
use tg_code_bounds::{functions_are_bounded, functions_are_few};
use tg_compile::prepared_is_reduced;
use tg_compile_proof::{
    allocation_is_kept, choice_is_kept, compiled_may_run, programs_are_translated,
};
use tg_correctness::passes_agree;
use tg_delay_proof::{delaying_keeps_calls, lines_stay_over, slots_are_returns};
use tg_emit_laws::program_has_image;
use tg_emit_proof::emission_keeps_runs;
use tg_literal_bounds::trees_are_of_words;
use tg_runtime::routines_are_closed;
use tg_semantics::{forms_agree, programs_as_sources};
use tg_translate_laws::{bodies_are_closed, temporaries_are_drawn, translate_is_bounded};
use tg_tree::trees_run;
use tg_typecheck::{checked_has_type, never_stuck};

/// The law of the factor on steps: with 1 it asks what is asked of the machine without delay slots.
pub fn once_is_as_meant()
    ensures { OnceIsAsMeant }
{}

/// The law that agreement by fuel, within four times the constants of the passes, is what is said
/// of an image on the machine with delayed branches.
pub fn bare_image_agrees()
    ensures { BareAgreementIsMeant }
{
    bare_runs_by_fuel();
    forms_agree();
}

/// The law of the passes after the translation, and of slots: where the trees follow a source, the
/// machine with delayed branches agrees with it.
pub fn delayed_agrees()
    ensures { DelayedAgrees }
{
    compiled_may_run();
    flatten_is_correct();
    emission_keeps_runs();
    trees_run();
    lines_stay_over();
    passes_agree();
    choice_is_kept();
    allocation_is_kept();
    emitted_may_be_delayed();
    delaying_keeps_calls();
    slots_are_returns();
    delayed_lines_agree();
}

/// The law of room: the code of an accepted program of at most 16,384 nodes fits its segment with
/// its slots, whatever is spilled.
pub fn delayed_is_short()
    ensures { DelayedIsShort }
{
    functions_are_bounded();
    functions_are_few();
    checked_has_type();
    translate_is_bounded();
    routines_are_closed();
    prepared_is_reduced();
}

/// The law of the text: the assembler never refuses that of lines with slots that have an image,
/// and gives this image.
pub fn delayed_text_has_image()
    ensures { DelayedTextHasImage }
{
    emitted_may_be_delayed();
}

/// The headline of programs: an accepted program of at most 16,384 nodes, whose ints are words, is
/// compiled to a text that with its slots has an image, which does what the program means on the
/// machine with delayed branches, whatever passes are switched on.
pub fn bare_compile_is_correct()
    ensures { BareCompileIsCorrect }
{
    delayed_agrees();
    delayed_has_image();
    delayed_text_has_image();
    delayed_is_short();
    program_has_image();
    bare_image_agrees();
    forms_agree();
    programs_as_sources();
    never_stuck();
    programs_are_translated();
    prepared_is_reduced();
    bodies_are_closed();
    temporaries_are_drawn();
    translate_is_bounded();
    routines_are_closed();
}

/// The headline: an assembly text with slots that a source is built to has an image that does what
/// the source means on the machine with delayed branches. It does nothing.
pub fn bare_is_as_meant()
    ensures { BareBuildIsCorrect }
{
    trees_are_of_words();
    bare_compile_is_correct();
}

/// Laws of the ends of such a text's runs: each is as the source means. They do nothing.
pub fn bare_ends_are_as_meant()
    ensures ended { BareEndedIsMeant }
    ensures running { BareRunningIsMeant }
{}

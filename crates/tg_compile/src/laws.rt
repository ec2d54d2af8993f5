ghost use Rattle.std.specs.Prelude.{All};
ghost use Rattle.tg_syntax.specs.glue.Plain.{plain};
ghost use Rattle.tg_compile.specs.Compiling.{fragments_of};
ghost use Rattle.tg_compile.specs.Prepared.{prepared};
ghost use Rattle.tg_compile.specs.glue.Passes.{
  CodeIsSmall,
  CodeNamesItsOwn,
  CodeNamesNoMore,
  FlatCodeIsWellMarked,
  IsWellFormed,
  PreparedIsWellFormed,
};
ghost use Rattle.tg_compile.specs.laws.Prepared.{
  LiteralsStay,
  PreparedHasWords,
  PreparedIsLinked,
  PreparedIsReduced,
};

use crate::passes::Passes;
use tg_canon::canonical_statements;
use tg_code_bounds::programs_are_bounded;
use tg_fold::{fold_is_bounded, shapes_stay};
use tg_munch::code_names_its_own;
use tg_redundancy::known_names_its_own;
use tg_regalloc::allocations_keep_tests;
use tg_runtime::routines_are_closed;
use tg_trace_schedule::{blocks_are_well_formed, code_is_well_formed};
use tg_translate_laws::{bodies_are_closed, temporaries_are_drawn, translate_is_bounded};
use tg_typecheck::Checked;

/// Each function of a checked program, and of the runtime, is well formed.
pub(crate) fn functions_are_well_formed(checked: &Checked)
    ensures { All IsWellFormed
        (fragments_of checked.now.notes (plain checked.now.program.body)).functions }
{
    // Who reads a field of what was checked knows that the program is accepted.
    let _ = &checked.notes;
    bodies_are_closed();
    temporaries_are_drawn();
    translate_is_bounded();
    routines_are_closed();
}

/// What passes over trees make of a function that is well formed is well formed.
pub(crate) fn prepared_is_well_formed()
    ensures { PreparedIsWellFormed }
{
    shapes_stay();
}

/// The laws of the passes over trees that may be switched on. Function by function a program becomes
/// one for the same frames that is no larger, with the same literals; it is linked, and its
/// constants are words, if it was so. They do nothing.
pub fn prepared_is_reduced()
    ensures reduced { PreparedIsReduced }
    ensures literals { LiteralsStay }
    ensures linked { PreparedIsLinked }
    ensures words { PreparedHasWords }
{
    shapes_stay();
    fold_is_bounded();
}

/// The flat code of a function that is well formed is what instructions are chosen for.
pub(crate) fn flat_code_is_well_marked()
    ensures { FlatCodeIsWellMarked }
{
    canonical_statements();
    tg_canon::names_stay();
    blocks_are_well_formed();
    code_is_well_formed();
    tg_trace_schedule::names_stay();
}

/// The law that the instructions of a function name registers and slots that they may name before
/// allocation. It does nothing.
pub fn instructions_name_their_own()
    ensures { CodeNamesItsOwn }
{
    code_names_its_own();
    known_names_its_own();
}

/// The code over registers of a function names no function, literal or fault that its body doesn't
/// name, but for a fault 0.
pub(crate) fn code_names_no_more()
    ensures { CodeNamesNoMore }
{
    tg_canon::names_stay();
    tg_trace_schedule::names_stay();
    code_names_its_own();
    known_names_its_own();
    allocations_keep_tests();
}

/// The functions of a checked program, with the runtime's, are compiled to small ones, whatever
/// passes are switched on: each frame is below 2^29 bytes, and their code fits its segment,
/// whatever is spilled.
pub(crate) fn compiled_is_small(checked: &Checked, passes: Passes)
    ensures { CodeIsSmall (prepared passes
        (fragments_of checked.now.notes (plain checked.now.program.body))).functions }
{
    prepared_is_reduced();
    // As in `functions_are_well_formed`.
    let _ = &checked.notes;
    programs_are_bounded();
}

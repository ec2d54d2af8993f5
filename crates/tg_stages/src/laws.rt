ghost use Rattle.tg_compile.specs.glue.Passes.{FlatCodeIsWellMarked, PreparedIsWellFormed};

use tg_canon::canonical_statements;
use tg_fold::shapes_stay;
use tg_trace_schedule::{blocks_are_well_formed, code_is_well_formed};

/// What passes over trees make of a function that is well formed is well formed.
pub(crate) fn prepared_is_well_formed()
    ensures { PreparedIsWellFormed }
{
    shapes_stay();
}

/// The flat code of a function that is well formed is what instructions are chosen for.
pub(crate) fn flat_code_is_well_marked()
    ensures { FlatCodeIsWellMarked }
{
    canonical_statements();
    tg_canon::names_stay();
    blocks_are_well_formed();
    code_is_well_formed();
    tg_trace_schedule::names_stay();
}

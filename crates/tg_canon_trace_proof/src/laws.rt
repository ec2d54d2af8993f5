ghost use Rattle.tg_canon_trace_proof.specs.laws.Laws.{
  LengthStays,
  NeedsAreLeft,
  NeedsStay,
  FlattenIsCorrect,
};
ghost use Rattle.tg_canon_trace_proof.specs.laws.Programs.{AddingEndsAlike, CountingEndsAlike};

use tg_trace_schedule::{blocks_are_correct, blocks_are_well_formed, traces_are_correct};

/// The law of runs: a code of trees in canonical form, cut into blocks and laid as flat code, is a
/// code whose runs are those of the trees that don't go wrong, with at least as much fuel, the same
/// output, input left and end, and at most a unit of work more.
pub fn flatten_is_correct()
    ensures { FlattenIsCorrect }
{
    tg_canon::canon_is_correct();
    tg_canon::canonical_statements();
    blocks_are_correct();
    blocks_are_well_formed();
    traces_are_correct();
}

/// The laws of sizes: the flat code of a function is at most two units longer than its tree, and
/// needs no more, of the 256 words that all passes may add.
pub fn flatten_is_bounded()
    ensures length { LengthStays }
    ensures needs { NeedsStay }
    ensures left { NeedsAreLeft }
{
    tg_canon::canon_is_bounded();
    tg_trace_schedule::trace_is_bounded();
}

/// Programs of three functions, computed: they come to one end as trees, as canonical statements,
/// as blocks and as flat code.
pub fn programs_end_alike()
    ensures adding { AddingEndsAlike }
    ensures counting { CountingEndsAlike }
{}

ghost use Rattle.tg_code_bounds.specs.laws.Conditions.{SmallIsEnough};
ghost use Rattle.tg_code_bounds.specs.laws.Laws.{
  CodeIsShort,
  FramesAreSmall,
  FunctionsAreFew,
  FunctionsArePaid,
  LinesAreShort,
  ProgramCodeFits,
  ProgramFramesAreSmall,
};

use tg_canon_trace_proof::flatten_is_bounded;
use tg_munch::munch_is_bounded;
use tg_redundancy::known_is_bounded;
use tg_regalloc::{allocations_are_short, regalloc_is_bounded};
use tg_runtime::routines_are_closed;
use tg_translate_laws::{bodies_are_closed, temporaries_are_drawn, translate_is_bounded};
use tg_typecheck::checked_has_type;

/// The law of the number of functions: twice as many, with their parameters, are at most the nodes
/// of the program, and one more. For a declaration and its parameters are nodes of the body that
/// they stand in, and a function's body is a node at least.
pub fn functions_are_few()
    ensures { FunctionsAreFew }
{}

/// The law of the lines of a function: whichever way its branches are written, they are at most the
/// words that its code over registers is counted at, and four more for its entry.
pub fn emit_is_bounded()
    ensures { LinesAreShort }
{}

/// Laws of an allocation of a function, by any policy. Its code is at most 12 words for each unit
/// of the length of the function's tree, and 295 more; its frame has at most as many words as the
/// tree's needs and twice its length, and 13 more. So where functions are nested 32 deep at most,
/// and the tree is no larger than what the function is translated to, the code is at most 1,740
/// words for each node of the function's body, 72 for each of its parameters, and 511 more, and the
/// frame 1,992 bytes, 84 and 212.
pub fn functions_are_bounded()
    ensures code { CodeIsShort }
    ensures frames { FramesAreSmall }
    ensures paid { FunctionsArePaid }
{
    emit_is_bounded();
    flatten_is_bounded();
    munch_is_bounded();
    known_is_bounded();
    allocations_are_short();
    regalloc_is_bounded();
}

/// The laws of a program that the checker accepts, and of the runtime's functions after it, or of
/// functions in their places that are no larger, whatever is spilled: together they are at most
/// 1,975 words of code for each node, and 1,000,000 more, which its segment holds; and the frame of
/// each is below 2^29 bytes.
pub fn programs_are_bounded()
    ensures code { ProgramCodeFits }
    ensures frames { ProgramFramesAreSmall }
{
    functions_are_bounded();
    checked_has_type();
    bodies_are_closed();
    temporaries_are_drawn();
    translate_is_bounded();
    routines_are_closed();
}

/// A function whose tree has a length of at most 800,000 and needs of at most 1,200,000 meets the
/// conditions of all passes on sizes: as a tree, as canonical statements and as flat code it has a
/// length of at most 100,000,000 and needs of at most 4,000,000, and the temporaries of its
/// instructions, with four for each of these, are fewer than 2^24.
pub fn small_is_enough()
    ensures enough { SmallIsEnough }
{
    tg_canon::canon_is_bounded();
    flatten_is_bounded();
    munch_is_bounded();
}

// How large a tree is, is told by what a node of the text pays, for its own tree and for what
// its place adds. The dearest node is a call without arguments over 32 levels. What the
// translation makes of a text is as large whatever state it begins in, so the walk for sizes
// knows no state.
//
// Static links are paid by the levels that the finished translation has found, so
// `tg_stack_bounds` stands above `tg_translate_proof`, which shows that these are the levels of
// the text. The bounds of `tg_translate_laws` count 32 levels at each use; with them a frame
// might exceed what its activation weighs.

ghost use Rattle.tg_stack_bounds.specs.laws.Weights.{
  AcceptedTreesAreLight,
  FramesAreLight,
  ProgramFramesAreLight,
};

use tg_canon_trace_proof::flatten_is_bounded;
use tg_code_bounds::functions_are_bounded;
use tg_munch::temporaries_are_few;
use tg_regalloc::allocations_are_short;
use tg_runtime::routines_are_closed;
use tg_translate_laws::{bodies_are_closed, temporaries_are_drawn, translate_is_bounded};

/// Law of the trees of an accepted program: the needs and the length of each are at most what its
/// nodes and the levels that it crosses pay for.
pub fn trees_are_light()
    ensures { AcceptedTreesAreLight }
{
    translate_is_bounded();
}

/// Laws of the frames of functions that are allocated, by any policy, where their trees are light,
/// as those of an accepted program are: 256 bytes a node, 64 a level that is crossed, and 1,024;
/// 4,096 for each of the runtime.
pub fn frames_are_light()
    ensures frames { FramesAreLight }
    ensures programs { ProgramFramesAreLight }
{
    flatten_is_bounded();
    temporaries_are_few();
    allocations_are_short();
    functions_are_bounded();
    bodies_are_closed();
    temporaries_are_drawn();
    routines_are_closed();
    trees_are_light();
}

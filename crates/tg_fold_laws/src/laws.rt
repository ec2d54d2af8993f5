ghost use Rattle.tg_fold_laws.specs.laws.Laws.{AccessesStay, DepthStays, FoldedFramesAreSmall};

use tg_fold::fold_is_bounded;
use tg_translate_laws::translate_is_bounded;

/// Laws of how far a body goes and of how deep it is nested: where at most so many accesses of
/// memory stand one within another in a body, no more do in the folded one, and the folded one is
/// no deeper, however much deeper than its own parts a choice counts. So what bounds each function
/// of a program that the checker accepts bounds the folded function too: its slots, temporaries,
/// accesses, length, needs and depth.
pub fn depth_and_accesses_stay()
    ensures accesses { AccessesStay }
    ensures depth { DepthStays }
    ensures checked { FoldedFramesAreSmall }
{
    fold_is_bounded();
    translate_is_bounded();
}

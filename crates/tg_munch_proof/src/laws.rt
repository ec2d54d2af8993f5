// The theorem on the choice of instructions counts a unit each, and a law of its own turns that
// into any other count: thirteen words a unit, since a move between two places in the frame may
// be thirteen. Where flat code goes wrong, nothing is said of the instructions.

ghost use Rattle.tg_munch_proof.specs.laws.Chosen.{
  CodeKeepsCounts,
  CodeKeepsWords,
  MunchKeepsCounts,
  MunchIsCorrect,
  MunchKeepsWords,
};
ghost use Rattle.tg_munch_proof.specs.laws.Values.{BranchesCompare, ExpressionsGiveValues};

use tg_munch::code_is_marked;

/// The laws of values: the instructions of a flat expression come to its value, or end as it does,
/// in at most the units that it spends, and one more where an operand is asked for; and those of a
/// comparison of two come to its mark where the relation holds and go on where it doesn't, in at
/// most two units besides.
pub fn expressions_give_values()
    ensures expressions { ExpressionsGiveValues }
    ensures branches { BranchesCompare }
{}

/// The laws of counting: whatever the code, each of its runs is one where instructions are counted
/// otherwise, with the same fuel, output, input left and end. It does at most as many times the
/// work as one instruction counts at most; thirteen, where it counts the words that come of it.
pub fn code_keeps_counts()
    ensures counts { CodeKeepsCounts }
    ensures words { CodeKeepsWords }
{}

/// The laws of runs: instructions do what the flat code of their functions did. Each run of that
/// which doesn't go wrong is one of theirs, with at least as much fuel, the same output, input left
/// and end. Each counts a unit of work, and they do no more than the flat code did but for the
/// registers that the program's body keeps; counted otherwise, as many times that as one counts at
/// most, as where it counts the words that come of it.
pub fn munch_is_correct()
    ensures programs { MunchIsCorrect }
    ensures counts { MunchKeepsCounts }
    ensures words { MunchKeepsWords }
{
    code_is_marked();
}

// Instructions are charged by their place (label, and how many are left), so a bound on work
// carries over rounds of spilling, where one load may count what another doesn't.
//
// A slot that allocation adds is one of the own activation: what stands for a function changes
// no other, so the frames of all open activations are compared one by one.

ghost use Rattle.tg_regalloc_proof.specs.Keeping.{
  ChargedLessDoesNoMore,
  KeepsCompose,
  ProgramsAreKept,
};
ghost use Rattle.tg_regalloc_proof.specs.laws.Laws.{RegallocIsCorrect, AllocationsKeep, FramesKeep};
ghost use Rattle.tg_regalloc_proof.specs.laws.Replaced.{ReplacedKeep};

use tg_interference::nodes_are_operands;
use tg_regalloc::regalloc_is_bounded;

/// The generic law: where a block stands for each instruction of a function, with operands in places
/// of their own, and what interferes in places apart, the function may stand in the place of the
/// other.
pub fn replaced_functions_keep()
    ensures { ReplacedKeep }
{}

/// The laws of functions that may stand in the place of others: what is kept is kept on, and a
/// program does the same with all its functions replaced; and a program that is charged less does no
/// more.
pub fn programs_are_kept()
    ensures compose { KeepsCompose }
    ensures programs { ProgramsAreKept }
    ensures cheaper { ChargedLessDoesNoMore }
{}

/// The laws of one function: in every program the code of an allocation, by whatever policy, may
/// stand in the place of the code that was handed in, and so may the code with every temporary in
/// the frame.
pub fn allocations_keep()
    ensures keep { AllocationsKeep }
    ensures frames { FramesKeep }
{
    nodes_are_operands();
}

/// The law of programs: where each function is replaced by an allocation of it, the program does the
/// same, with as much fuel, and with no more work than the most words of each instruction that was
/// handed in.
pub fn regalloc_is_correct()
    ensures { RegallocIsCorrect }
{
    allocations_keep();
    regalloc_is_bounded();
}

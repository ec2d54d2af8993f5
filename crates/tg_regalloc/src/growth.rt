ghost use Rattle.tg_regalloc.specs.laws.Explained.{
  AllocationsKeepTests,
  ColourableNeedsOneRound,
  MovesOfAllocationsStayForACause,
};
ghost use Rattle.tg_regalloc.specs.laws.Growth.{
  AllocationsAreShort,
  AllInFrameIsLast,
  AllocationsGrowLittle,
};

/// The law that a test of instructions, which looks at no operand and which loads and stores of
/// slots pass, goes on to hold in the code of an allocation.
pub fn allocations_keep_tests()
    ensures { AllocationsKeepTests }
{}

/// The law that a code whose interference graph is greedily colourable is allocated in one round,
/// which spills nothing.
pub fn colourable_needs_one_round()
    ensures { ColourableNeedsOneRound }
{}

/// The law of why a move of the last code stays: it was constrained, or frozen when nothing else
/// was possible.
pub fn moves_stay_for_a_cause()
    ensures { MovesOfAllocationsStayForACause }
{}

/// The laws of how many rounds and slots an allocation takes, and of when every temporary goes to
/// the frame.
pub fn allocations_are_short()
    ensures short { AllocationsAreShort }
    ensures last { AllInFrameIsLast }
{}

/// The law of how much of its code an allocation makes of each instruction, and how many
/// temporaries spilling makes for it.
pub fn regalloc_is_bounded()
    ensures { AllocationsGrowLittle }
{}

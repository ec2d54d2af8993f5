ghost use Rattle.tg_trace_schedule.specs.laws.Carried.{
  BlocksStep,
  BlocksStayOver,
  BlocksOnlyGoOn,
  BlocksCarryBodies,
  BlocksAreCorrect,
};
ghost use Rattle.tg_trace_schedule.specs.laws.Heads.{BlocksAreEntered, FalseSideFollows, JumpsAreBack};
ghost use Rattle.tg_trace_schedule.specs.laws.Laws.{
  BlocksAreFlat,
  BlocksAreWhole,
  CodeIsFlat,
  CodeIsWellMarked,
  LengthStays,
  NamesStay,
  NeedsStay,
};
ghost use Rattle.tg_trace_schedule.specs.laws.Traced.{TracesCarryBodies, TracesAreCorrect};

/// Laws of the blocks into which statements are cut: those of canonical statements are flat, and
/// those of a closed body lead to one another alone, with loops that are entered at their heads.
pub fn blocks_are_well_formed()
    ensures flat { BlocksAreFlat }
    ensures whole { BlocksAreWhole }
    ensures entered { BlocksAreEntered }
{}

/// Laws of the code in which blocks are laid: that of flat blocks is flat. Where blocks lead to one
/// another alone, the marks of their code differ, it goes to none but its own, and its last element
/// doesn't go on.
pub fn code_is_well_formed()
    ensures flat { CodeIsFlat }
    ensures marks { CodeIsWellMarked }
{}

/// Laws of both together: the code is at most two units longer than the statements, and needs no
/// more than they do.
pub fn trace_is_bounded()
    ensures length { LengthStays }
    ensures needs { NeedsStay }
{}

/// The law that the code names nothing that the statements don't name, but for a fault 0. So no
/// temporary is brought in.
pub fn names_stay()
    ensures { NamesStay }
{}

/// Laws of the order in which blocks are laid: what follows a branch is its false side or a jump to
/// it, and each jump goes to a mark that stands earlier.
pub fn traces_go_on()
    ensures branches { FalseSideFollows }
    ensures jumps { JumpsAreBack }
{}

/// The laws that flat code does what the blocks do that are laid in it, where loops are entered at
/// their heads alone: each body if calls do, and so each program.
pub fn traces_are_correct()
    ensures bodies { TracesCarryBodies }
    ensures programs { TracesAreCorrect }
{}

/// The laws of runs of blocks: each is its own step, one that is over stays so with more fuel, and
/// any other goes on.
pub fn blocks_run()
    ensures step { BlocksStep }
    ensures over { BlocksStayOver }
    ensures on { BlocksOnlyGoOn }
{}

/// The laws that statements which are cut into blocks do what they did: so does the body of each
/// function if calls do, with a unit of work more at most, and so does a program from its first
/// activation on.
pub fn blocks_are_correct()
    ensures bodies { BlocksCarryBodies }
    ensures programs { BlocksAreCorrect }
{}

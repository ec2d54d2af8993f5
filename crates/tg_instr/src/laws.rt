ghost use Rattle.tg_instr.specs.laws.Laws.{
  ChangesDefinitions,
  ReadsUses,
  CodeSteps,
  CodeStaysOver,
  CodeOnlyGoesOn,
};

/// The laws that `uses` and `defs` are those of the meaning: an instruction changes what its
/// definitions hold alone (and hi and lo, as its row says), and what they hold after it, and where
/// it goes on, is told by what its uses hold (Appel, chapter 10).
pub fn effects_are_told()
    ensures changes { ChangesDefinitions }
    ensures reads { ReadsUses }
{}

/// The laws of runs of instructions, whatever instructions are charged: each run is its own step,
/// one that is over stays so with more fuel, and any other goes on.
pub fn code_runs()
    ensures step { CodeSteps }
    ensures over { CodeStaysOver }
    ensures on { CodeOnlyGoesOn }
{}

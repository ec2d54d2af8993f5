// A byte stored into a slot of the frame that holds no word yet makes a run of trees go wrong,
// since the other bytes of that word have no value. No pass stores bytes into frames.

ghost use Rattle.tg_tree.specs.Carrying.{FunctionsCarryCalls, FunctionsCarryPrograms};
ghost use Rattle.tg_tree.specs.FlatValue.{FlatRunsAsValue, FlatSpendsLength, FlatWordSpendsAll};
ghost use Rattle.tg_tree.specs.Links.{LinkedRunsStep, LinkedRunsStayOver, LinkedRunsAreRuns};
ghost use Rattle.tg_tree.specs.laws.Laws.{
  TreesStep,
  TreesStayOver,
  TreesOnlyGoOn,
  FlatCodeSteps,
  FlatCodeStaysOver,
  FlatCodeOnlyGoesOn,
  TreesReadNoMore,
  FlatCodeReadsNoMore,
  FullStackEnds,
};

/// The laws of runs of trees: each is its own step, one that is over stays so with more fuel, and
/// any other goes on. That a run is determined by its code, sizes and input is no law: it is a
/// function of these and of fuel.
pub fn trees_run()
    ensures step { TreesStep }
    ensures over { TreesStayOver }
    ensures on { TreesOnlyGoOn }
{}

/// The laws of runs that look at static links: each is its own step, one that is over stays so
/// with more fuel, and one that doesn't go wrong is the run of the trees.
pub fn linked_trees_run()
    ensures step { LinkedRunsStep }
    ensures over { LinkedRunsStayOver }
    ensures runs { LinkedRunsAreRuns }
{}

/// The laws of runs of flat code: as those of runs of trees.
pub fn flat_code_runs()
    ensures step { FlatCodeSteps }
    ensures over { FlatCodeStaysOver }
    ensures on { FlatCodeOnlyGoesOn }
{}

/// The laws that a run of a flat expression is its value, after exactly the units of work that it
/// spends: at most its length, and all of it where it has a word.
pub fn flat_expressions_run()
    ensures runs { FlatRunsAsValue }
    ensures within { FlatSpendsLength }
    ensures whole { FlatWordSpendsAll }
{}

/// The law that what was never stored doesn't matter: a run that doesn't go wrong is the same
/// whatever temporaries hold that aren't set, slots that weren't stored to since their activation
/// began, and memory outside the statics, the taken heap and the slots of open activations.
pub fn nothing_else_is_read()
    ensures trees { TreesReadNoMore }
    ensures flat { FlatCodeReadsNoMore }
{}

/// The law that the stack is full as soon as a function is entered whose frame reaches below its
/// floor, in any form of code.
pub fn full_stack_ends_the_call<Body>()
    ensures { FullStackEnds Body }
{}

/// The laws of a pass that takes one function at a time, from one form of code to another: where
/// the body of each function does what it did if calls do, calls do, and so does a program from its
/// first activation on.
pub fn functions_carry<A, B>()
    ensures calls { FunctionsCarryCalls A B }
    ensures programs { FunctionsCarryPrograms A B }
{}

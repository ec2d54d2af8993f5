ghost use Rattle.tg_irc_definition.specs.laws.Laws.{
  ColourableNeverSpills,
  MovesAreExplained,
  ColoursDiffer,
  RegistersAreColoured,
  ColoursAreRegisters,
  EachIsColoured,
  StepsShrink,
  FirstAreTaken,
  RunsGoOn,
  NothingLeftIsOver,
  StartIsSound,
  StepsKeepSound,
  StartHasClasses,
  StepsKeepClasses,
  StartStandsWell,
  StepsKeepStanding,
  StandsByFacts,
  PairsAreOfClasses,
  RoundsAreOfNodes,
};
ghost use Rattle.tg_irc_definition.specs.laws.Classes.{
  ClassesAreApart,
  ClassesStayWithin,
  UntouchedStandAlone,
  OneNeighbourIsJoined,
  BareAreFirstColoured,
  SpilledNameClasses,
  RegistersStandAbove,
};
ghost use Rattle.tg_irc_definition.specs.laws.Degrees.{TakenOutIsLess, MergedIsLess, MergedIsMore};
ghost use Rattle.tg_irc_definition.specs.laws.Waiting.{WaitingFails, WokenAreDisturbed};

/// The law that a round on a greedily colourable graph spills nothing (George and Appel 1996,
/// section 4: coalescing that keeps a graph greedily colourable).
pub fn colourable_never_spills()
    ensures { ColourableNeverSpills }
{}

/// The law of what becomes of each move of a round.
pub fn moves_are_explained()
    ensures { MovesAreExplained }
{}

/// The laws of the colours that a round answers: two nodes that interfere have two, where both have
/// one, each register has its own, and where nothing is spilled each node has one.
pub fn colours_are_proper()
    ensures differ { ColoursDiffer }
    ensures registers { RegistersAreColoured }
    ensures below { ColoursAreRegisters }
    ensures each { EachIsColoured }
{}

/// The laws of steps: that a round ends, which steps are taken, how a run goes on, and where it is
/// over.
pub fn steps_are_taken()
    ensures shrink { StepsShrink }
    ensures first { FirstAreTaken }
    ensures on { RunsGoOn }
    ensures over { NothingLeftIsOver }
{}

/// The laws of the states of a round, which hold at its start and go on to hold.
pub fn states_are_sound()
    ensures start { StartIsSound }
    ensures steps { StepsKeepSound }
    ensures start_classes { StartHasClasses }
    ensures steps_classes { StepsKeepClasses }
    ensures start_standing { StartStandsWell }
    ensures steps_standing { StepsKeepStanding }
    ensures by_facts { StandsByFacts }
{}

/// The laws of how steps change the degrees of the nodes that remain.
pub fn degrees_change()
    ensures taken_out { TakenOutIsLess }
    ensures merged { MergedIsLess }
    ensures kept { MergedIsMore }
{}

/// The law that the merged pairs are those of the start between classes.
pub fn pairs_are_of_classes()
    ensures { PairsAreOfClasses }
{}

/// The laws that a waiting move fails its test until one of its ends is woken, and that no more is
/// woken than what stands near a node that was merged, removed or spilled.
pub fn waiting_fails()
    ensures fails { WaitingFails }
    ensures woken { WokenAreDisturbed }
{}

/// The law that a round answers an alias and a colour of each node, and that the aliases are nodes
/// and what is spilled are nodes of temporaries.
pub fn rounds_are_of_nodes()
    ensures { RoundsAreOfNodes }
{}

/// The laws of which nodes come into one class: a class stays within a set of nodes that no move
/// leads out of, so a node without moves stands alone, and one whose moves all lead to one other
/// stands alone or with that. A register's class stands under the register, and nodes that
/// interfere are of two classes.
pub fn classes_follow_moves()
    ensures within { ClassesStayWithin }
    ensures untouched { UntouchedStandAlone }
    ensures joined { OneNeighbourIsJoined }
    ensures registers { RegistersStandAbove }
    ensures apart { ClassesAreApart }
{}

/// The laws of what is spilled: no temporary without moves and without pairs, which gets the first
/// colour; and each class that is spilled is named once.
pub fn spilled_are_classes()
    ensures bare { BareAreFirstColoured }
    ensures named { SpilledNameClasses }
{}

ghost use Rattle.tg_simulation.specs.laws.Laws.{
  PassesCompose,
  FollowingAgrees,
  FollowingFills,
  AgreementGoesOn,
  FullStackGoesOn,
  FollowsWriting,
  FollowsPaying,
  FollowsWorking,
  FollowsPassing,
  FollowsReaching,
  FollowsFull,
  FollowsTurn,
  FollowsTurnOfCode,
  FollowsStuck,
  FollowsLess,
  FollowsWithCredit,
  FollowsAlong,
};
ghost use Rattle.tg_simulation.specs.laws.Simulating.{
  SimulationPreserves,
  SimulatesStopping,
  SimulatesWriting,
  SimulatesTurn,
  SimulatesTurnBehind,
  SimulatesPaying,
  SimulatesWorking,
  SimulatesTrading,
  SimulatesUnpaid,
  SimulatesReworking,
  SimulatesWorkingLess,
  SimulatesUntraded,
  SimulatesWrong,
  SimulatesLess,
  SimulatesWithCredit,
  SimulatesAlong,
  SimulatesComing,
  FollowsComing,
  ComesItself,
  ComesOn,
  ComesWriting,
  ComesWorking,
  ComesTurn,
};

/// The law that what two passes promise holds of both, one after the other.
pub fn passes_compose()
    ensures { PassesCompose }
{}

/// The laws that code which follows a program agrees with it, both ways, and ends by a full stack
/// where the program's calls are too deep for it.
pub fn following_agrees()
    ensures agrees { FollowingAgrees }
    ensures fills { FollowingFills }
{}

/// The laws that code which agrees with a program, and ends by a full stack where its calls are too
/// deep, still does so after a pass.
pub fn agreement_goes_on()
    ensures agrees { AgreementGoesOn }
    ensures full { FullStackGoesOn }
{}

/// The laws of simulation, one for each step that a program and its code take.
pub fn steps_follow()
    ensures writing { FollowsWriting }
    ensures paying { FollowsPaying }
    ensures working { FollowsWorking }
    ensures passing { FollowsPassing }
    ensures reaching { FollowsReaching }
    ensures full { FollowsFull }
    ensures turn { FollowsTurn }
    ensures turn_of_code { FollowsTurnOfCode }
    ensures stuck { FollowsStuck }
    ensures less { FollowsLess }
    ensures credit { FollowsWithCredit }
    ensures along { FollowsAlong }
    ensures coming { FollowsComing }
{}

/// The laws of simulation after a pass: that it is what a pass promises, and one for each step
/// that the code before the pass and the code after it take.
pub fn passes_simulate()
    ensures preserves { SimulationPreserves }
    ensures stopping { SimulatesStopping }
    ensures writing { SimulatesWriting }
    ensures turn { SimulatesTurn }
    ensures turn_behind { SimulatesTurnBehind }
    ensures paying { SimulatesPaying }
    ensures working { SimulatesWorking }
    ensures wrong { SimulatesWrong }
    ensures less { SimulatesLess }
    ensures credit { SimulatesWithCredit }
    ensures along { SimulatesAlong }
    ensures coming { SimulatesComing }
{}

/// The laws of credit: both sides of a simulation work, and what was paid by the code before the
/// pass, or wasn't done by the code after it, is credit again.
pub fn credit_is_traded()
    ensures trading { SimulatesTrading }
    ensures unpaid { SimulatesUnpaid }
    ensures reworking { SimulatesReworking }
    ensures less { SimulatesWorkingLess }
    ensures untraded { SimulatesUntraded }
{}

/// The laws of a run that comes to another by steps of its own, as a loop of the runtime does round
/// by round.
pub fn runs_come()
    ensures itself { ComesItself }
    ensures on { ComesOn }
    ensures writing { ComesWriting }
    ensures working { ComesWorking }
    ensures turn { ComesTurn }
{}

ghost use Rattle.tg_machine.specs.laws.Laws.{
  CallsChain,
  EndsAgain,
  StepsEndAgain,
  WatchedCallsChain,
};

/// The law that calls can be chained, for sources `I` and sinks `O`: a call that makes all its
/// steps, and a call after it, leave what one call of as many steps together leaves.
pub fn calls_chain<I, O>()
    ensures { CallsChain I O }
{}

/// The same of calls with what they fetch: what the two fetch, in order, is what the call together
/// fetches.
pub fn watched_calls_chain<I, O>()
    ensures { WatchedCallsChain I O }
{}

/// The law of a machine that has ended: after a call that answered another end than the limit of
/// steps, a run and a step answer that end again, and leave the machine, the source and the sink as
/// they are.
pub fn ends_again<I, O>()
    ensures run { EndsAgain I O }
    ensures step { StepsEndAgain I O }
{}

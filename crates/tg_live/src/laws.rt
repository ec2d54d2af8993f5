ghost use Rattle.tg_live.specs.laws.Laws.{FlowHasEdges, LiveBeforeUse, LiveBeforeLive, LiveIsLeast};

/// The law that the flow of a code has the pairs of places at which its instructions go on alone.
pub fn flow_has_edges()
    ensures { FlowHasEdges }
{}

/// The laws that liveness by paths is the least solution of the equations of liveness: an operand
/// is live out of an instruction where it is used at a next place, or live out of one and not
/// defined there, and nowhere else (Appel, chapter 10).
pub fn liveness_is_least()
    ensures before_use { LiveBeforeUse }
    ensures before_live { LiveBeforeLive }
    ensures least { LiveIsLeast }
{}

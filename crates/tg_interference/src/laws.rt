ghost use Rattle.tg_interference.specs.laws.Laws.{NoOtherStands, NodesExist, OperandsStand};

/// The laws of nodes: exactly one operand stands at each, and an operand has a node exactly where
/// it may interfere with another.
pub fn nodes_are_operands()
    ensures stand { OperandsStand }
    ensures alone { NoOtherStands }
    ensures exist { NodesExist }
{}

ghost use Rattle.tg_graph.specs.laws.Laws.{
  MovesKeepPartition,
  MovesTell,
  RegistersInterfere,
  StartIsPartition,
};

/// The law of a new graph: two different registers interfere, and nothing else does.
pub fn registers_interfere()
    ensures { RegistersInterfere }
{}

/// Laws of worklists: each node is in exactly one list and there once, from the beginning and after
/// each move; a move changes where one node is.
pub fn lists_stay_apart()
    ensures start { StartIsPartition }
    ensures moves { MovesKeepPartition }
    ensures told { MovesTell }
{}

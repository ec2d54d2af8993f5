use crate::moves::{Move, MoveState};
use crate::steps::Step;
use tg_base::ListOf;

/// Moves, in the order of the code.
pub type Moves = ListOf<Move>;

/// Steps, in the order in which they were taken.
pub type Steps = ListOf<Step>;

/// One state for each move.
pub type States = ListOf<MoveState>;

/// Nodes: the registers by the places of their colours, 0 to 24, and temporary t as 25 + t.
pub type Nodes = ListOf<u32>;

/// A colour for each node, or none: the registers in the order `$v0 $v1`, `$a0` to `$a3`, `$t0` to
/// `$t9`, `$s0` to `$s7`, `$ra` are the colours 0 to 24.
pub type Colours = ListOf<Option<u8>>;

/// A round of the allocator. `moves` are those of the code, and `states` says what became of each.
/// `aliases` gives each node the node under which its class stands, and `colours` the colour of its
/// class, which is none exactly where the class is spilled. `spilled` names each spilled class once
/// by the node under which it stands, in the order in which they were popped.
#[derive(Drop)]
pub struct Round {
    pub moves: Moves,
    pub steps: Steps,
    pub states: States,
    pub aliases: Nodes,
    pub colours: Colours,
    pub spilled: Nodes,
}

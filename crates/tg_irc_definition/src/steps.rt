// A round is defined by its steps, and all freedom lies in which is taken: a step is taken only
// where no step of an earlier kind is possible. Ready and waiting moves are told apart by the
// code alone.

/// A step of a round (George and Appel 1996, section 4). Nodes are named by the node under which
/// their class stands, and moves by their place.
#[derive(Clone, Copy, Debug, PartialEq, Eq)]
pub enum Step {
    /// A temporary of degree below the number of colours, and with no unsettled move, is taken out.
    Simplify(u32),
    /// A move within one class is settled as coalesced.
    Same(u32),
    /// A move between classes that interfere, or between two registers, is settled as constrained.
    Constrain(u32),
    /// The two classes of a move become one, which stands under `kept`. The test was that of Briggs
    /// where neither is a register, else that of George.
    Coalesce {
        index: u32,
        kept: u32,
        gone: u32,
        briggs: bool,
    },
    /// The unsettled moves of a temporary of degree below the number of colours are given up.
    Freeze(u32),
    /// A temporary that the policy chose is taken out, and its unsettled moves are given up.
    Spill(u32),
}

/// A move instruction between two nodes.
#[derive(Clone, Copy)]
pub struct Move {
    pub to: u32,
    pub from: u32,
}

/// What has become of a move. A ready one is to be tried, and a waiting one has failed its test and
/// is tried again when something near it changes; both are unsettled. In a round's answer each move
/// is settled.
#[derive(Clone, Copy, Debug, PartialEq, Eq)]
pub enum MoveState {
    Ready,
    Waiting,
    /// Its ends are of one class.
    Coalesced,
    /// Its ends interfere, or are two registers.
    Constrained,
    /// It was given up.
    Frozen,
}

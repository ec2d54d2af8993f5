use crate::operators::Rel;
use crate::trees::{Ts, Tx};

/// An element of the flat form after tracing (Appel, chapter 8).
#[derive(Drop)]
pub enum Linear {
    Mark(u32),
    Do(Ts),
    Jump(u32),
    /// Goes on at a mark where the comparison holds, else at the next element.
    Branch(Rel, Tx, Tx, u32),
    Fault(u32),
    Return(Tx),
}

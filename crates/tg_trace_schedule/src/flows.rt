use tg_base::ListOf;
use tg_tree::{Rel, Stms, Tx};

/// Where control goes from a block's end, by the places of blocks in their list.
#[derive(Drop)]
pub enum End {
    Jump(u32),
    /// The place where the comparison holds, and then the one where it doesn't.
    Branch(Rel, Tx, Tx, u32, u32),
    Fault(u32),
    Return(Tx),
}

/// A basic block (Appel, chapter 8): flat statements, and an end.
#[derive(Drop)]
pub struct Block {
    pub body: Stms,
    pub end: End,
}

/// The blocks of a function, of which the first is the entry.
pub type Blocks = ListOf<Block>;

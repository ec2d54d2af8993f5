use crate::operators::{Bin, Rel};
use tg_base::{Label, Temp};

/// An expression, which gives a word (Appel, chapter 7).
#[cycle(tree)]
#[derive(Drop)]
pub enum Tx {
    Const(u32),
    /// The address of a literal.
    Address(Label),
    Temp(Temp),
    /// The frame address of the activation: slot k is the word 4·(k + 1) bytes below it.
    FrameAddress,
    Binary(Bin, Box<Tx>, Box<Tx>),
    /// The word, or the byte without sign, at an address.
    Load(Box<Tx>),
    LoadByte(Box<Tx>),
    Call(Label, Txs),
    /// A service of the machine by its number, with its argument.
    Service(u32, Box<Tx>),
    /// An expression after a statement.
    After(Box<Ts>, Box<Tx>),
}

/// Expressions.
#[cycle(tree)]
#[derive(Drop)]
pub struct Txs {
    pub items: Vec<Tx>,
}

/// A condition. `Both` and `Either` look at their right side only where it matters.
#[cycle(tree)]
#[derive(Drop)]
pub enum Cond {
    Compare(Rel, Box<Tx>, Box<Tx>),
    Not(Box<Cond>),
    Both(Box<Cond>, Box<Cond>),
    Either(Box<Cond>, Box<Cond>),
}

/// A statement.
#[cycle(tree)]
#[derive(Drop)]
pub enum Ts {
    Move(Temp, Tx),
    /// A word, or the low byte of one, is stored at an address.
    Store(Tx, Tx),
    StoreByte(Tx, Tx),
    Do(Tx),
    If(Cond, Box<Ts>, Box<Ts>),
    Loop(Box<Ts>),
    /// Leaves that many loops and one more.
    Break(u32),
    /// Ends the run with this code of a `break`.
    Fault(u32),
    Seq(Stms),
    Return(Tx),
}

/// Statements.
#[cycle(tree)]
#[derive(Drop)]
pub struct Stms {
    pub items: Vec<Ts>,
}

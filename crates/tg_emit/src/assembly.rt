use tg_base::{Bytes, ListOf};
use tg_isa::{Mips, Reg};

/// A line of assembly.
#[derive(Drop)]
pub enum Line {
    /// A label, without its colon.
    Label(Bytes),
    /// An instruction, with the label that it leads to where its form takes one; the field for it
    /// is 0 then.
    One(Mips, Bytes),
    /// The address of a label, which takes two words of code.
    La(Reg, Bytes),
    /// Bytes of the statics.
    Statics(Bytes),
}

/// Lines in the order of the text, code before statics.
pub type Assembly = ListOf<Line>;

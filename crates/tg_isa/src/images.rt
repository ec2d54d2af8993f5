use tg_base::{Bytes, Words};

/// A program in memory: the words of its code, the bytes of its statics, and the place of its first
/// instruction.
#[derive(Debug, PartialEq, Eq, Drop)]
pub struct Image {
    pub code: Words,
    pub statics: Bytes,
    pub entry: u32,
}

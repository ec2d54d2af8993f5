use tg_syntax::{Sign, Word};

/// A token that is known by itself.
#[derive(Clone, Copy)]
pub enum Mark {
    OfSign(Sign),
    OfWord(Word),
    OfEnd,
}

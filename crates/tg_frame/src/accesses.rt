use tg_base::{ListOf, Temp};

/// The home of a variable: a temporary, or a slot of the frame, which is a word. Slots are counted
/// from 0.
#[derive(Clone, Copy, Debug, PartialEq, Eq)]
pub enum Access {
    InTemp(Temp),
    InFrame(u32),
}

/// The homes of parameters, in the order of the parameters.
pub type Accesses = ListOf<Access>;

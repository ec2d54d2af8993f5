use crate::trees::Ts;
use tg_base::{Bytes, Label};
use tg_frame::Frame;

/// A literal: bytes that stand in the statics, at a multiple of 4.
#[derive(Drop)]
pub struct Literal {
    pub label: Label,
    pub text: Bytes,
}

/// A function: its frame and its body.
#[derive(Drop)]
pub struct Fragment {
    pub frame: Frame,
    pub body: Ts,
}

/// Functions and literals. Labels below 32 are the runtime's, and 32 is the program's body.
#[derive(Drop)]
pub struct Fragments {
    pub functions: Vec<Fragment>,
    pub literals: Vec<Literal>,
}

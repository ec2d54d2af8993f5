//! The instruction table of MIPS I: registers, instructions, their words, images of programs.
//!
//! Promises that `encode` and `decode` are inverse, and that `decode` answers None exactly outside
//! the table. One step and a run of the machine are defined in `specs/`.
#![tactic(auto)]

mod bits;
mod decoding;
mod encoding;
mod images;
mod laws;
mod mips;
mod names;
mod registers;

pub use bits::Bits;
pub use decoding::decode;
pub use encoding::encode;
pub use images::Image;
pub use laws::{effects_are_anywhere, machine_runs_by_fuel};
pub use mips::Mips;
pub use names::name;
pub use registers::Reg;

//! Delay slots: lines of assembly for a machine with delayed branches, each slot filled.
//!
//! Such a machine does the instruction behind a jump or branch before it goes on (MIPS I manual,
//! appendix A). The last pass of a compiler for it fills these slots from before. Promises exactly
//! the lines that the definition states, of any lines, or out of memory.
#![tactic(auto)]

mod delaying;
mod filling;
mod lines;
mod registers;
mod rows;
mod turning;

pub use delaying::delay;

//! Emission (Appel, chapters 9 and 12): functions over registers become lines of assembly.
//!
//! What stands for each instruction over registers, for the entry and the return of a function, and
//! for literals. Promises exactly the lines that the definition states, and their text.
#![tactic(auto)]

mod assembly;
mod bodies;
mod emitting;
mod frames;
mod names;
mod rows;
mod writing;

pub use assembly::{Assembly, Line};
pub use bodies::function;
pub use emitting::{are_far, emit};
pub use writing::{put_line, text};

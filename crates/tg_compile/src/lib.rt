//! All passes between a checked program and its assembly text (Appel, chapters 6 to 12).
//!
//! They work one after another. Promises the driver a text that stands to the program as the
//! passes' definitions say.
#![tactic(auto)]

mod bodies;
mod compiled;
mod laws;
mod passes;
mod programs;

pub use bodies::choose;
pub use compiled::Compiled;
pub use laws::{instructions_name_their_own, prepared_is_reduced};
pub use passes::Passes;
pub use programs::{compile_checked, compile_delayed, fragments};

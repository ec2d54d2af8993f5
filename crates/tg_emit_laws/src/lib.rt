//! Laws of emitted text: its labels are in the assembler's syntax, and it has an image.
//!
//! The text of a program is assembled without a fault (Appel, chapter 12).
#![tactic(auto)]

mod laws;

pub use laws::{emitted_has_labels, program_has_image};

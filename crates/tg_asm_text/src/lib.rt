//! What an assembly text is (definitions), and the text of an instruction (SPIM's syntax).
//!
//! Its lines, operands and items, where these are placed, and the image that they make, with the
//! laws of these; and the line of an instruction, which is read back as that instruction.
#![tactic(auto)]

mod keywords;
mod laws;
mod writing;

pub use keywords::{AsmRule, Keyword, Segment, Slot};
pub use laws::{lines_have_image, text_is_placed};
pub use writing::line;

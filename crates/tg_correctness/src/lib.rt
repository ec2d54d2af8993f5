//! What a correct compiler is (definitions): when an assembly text does what a source means.
//!
//! It says which texts are sources, when an image does what a program means, when an assembly text
//! does what a source means, and what the ends of its runs say. One relation over evaluation and
//! the machine alone, which names no pass. Promises it wherever each pass keeps its promise.
#![tactic(auto)]

mod laws;

pub use laws::{ends_tell, image_agrees, passes_agree};

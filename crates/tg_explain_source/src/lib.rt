//! The explanation of a source: the lines that tell what its first fault is about.
//!
//! Promises exactly the lines that the explanations of bytes, of syntax and of types give for the
//! first fault of a text, and none for a program.
#![tactic(auto)]

mod explaining;

pub use explaining::explain_source;

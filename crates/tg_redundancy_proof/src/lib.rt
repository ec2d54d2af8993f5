//! Correctness of known words and tests: known code does what the code did.
//!
//! What is known at a place holds whenever a run comes there, so a word that a temporary has may
//! be moved from there, and a test whose outcome is known may be left out (Appel, chapter 17). It
//! is a law of the definition of known code and of runs of instructions.
#![tactic(auto)]

mod laws;

pub use laws::{known_code_keeps, known_is_correct};

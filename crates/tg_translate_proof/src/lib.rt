//! Correctness of the translation: the trees of a program do what the program means.
//!
//! The trees are those of a checked program, with the runtime's.
#![tactic(auto)]

mod laws;

pub use laws::{assignments_find_their_activation, runs_are_alike, translate_is_correct};

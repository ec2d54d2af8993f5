//! Laws of the grammar: each list of tokens has one tree at most, and descent reads it.
//!
//! Descent by precedence is told as programs over the first token.
#![tactic(auto)]

mod laws;
mod marks;

pub use laws::{descent_is_exact, groups_are_longest, one_tree, places_are_apart, spans_are_exact};
pub use marks::Mark;

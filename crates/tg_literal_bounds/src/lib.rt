//! Bounds of the literals of a program, by the length of its text.
//!
//! How much of a text its strings take, and so how large the literals are that its program is
//! translated to; and that the ints and strings of its tree are words and bytes. They are laws of
//! the token relation, the grammar and `translated`.
#![tactic(auto)]

mod laws;

pub use laws::{literals_fit_text, strings_are_tokens, strings_fit_text, trees_are_of_words};

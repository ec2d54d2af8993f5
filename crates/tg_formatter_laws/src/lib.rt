//! Laws of canonical texts: same tokens, same tree, and formatting again changes nothing.
//!
//! They are laws of the token relation, the grammar and `canonical`.
#![tactic(auto)]

mod laws;

pub use laws::{formatting_again, lexed_are_writable, same_tokens, same_tree};

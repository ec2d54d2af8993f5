//! Correctness of instruction selection: instructions do what the flat code did.
//!
//! First those of expressions and comparisons, which come to the values of flat code; on these
//! stands the law of whole programs (Appel, chapter 9). It is a law of the definitions of that
//! choice and of both languages' runs.
#![tactic(auto)]

mod laws;

pub use laws::{code_keeps_counts, expressions_give_values, munch_is_correct};

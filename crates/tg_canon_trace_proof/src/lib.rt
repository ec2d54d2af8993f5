//! Correctness of the passes of chapter 8 together: flat code does what its trees did.
//!
//! These are laws of the definitions of the passes (Appel, chapter 8), which name one another
//! nowhere else.
#![tactic(auto)]

mod laws;

pub use laws::{flatten_is_bounded, flatten_is_correct, programs_end_alike};

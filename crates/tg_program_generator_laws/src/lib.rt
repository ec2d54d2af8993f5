//! Laws of generated programs: each is a source that the compiler accepts.
#![tactic(auto)]

mod laws;

pub use laws::generated_is_accepted;

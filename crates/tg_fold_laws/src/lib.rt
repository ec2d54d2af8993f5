//! Laws of folded bodies: no deeper, no more accesses one within another, and so small frames.
//!
//! They are laws of `folded` and of the measures that trees of a translated program keep within.
#![tactic(auto)]

mod laws;

pub use laws::depth_and_accesses_stay;

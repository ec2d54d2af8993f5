//! Bounds of the stack: the frames of compiled functions are within an activation's weight.
//!
//! That is the weight by which the meaning of a program counts its stack. Promises that the trees
//! of an accepted program are light, and that functions with light trees have frames within it,
//! whatever the policy of spilling.
#![tactic(auto)]

mod laws;

pub use laws::{frames_are_light, trees_are_light};

//! Correctness of the runtime: its functions do what the standard functions do.
//!
//! These are laws of its functions, by the meaning of trees and the meaning of programs.
#![tactic(auto)]

mod laws;

pub use laws::{linked_are_served, runtime_is_correct, trees_are_served};

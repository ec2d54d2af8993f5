//! Makes a round of iterated register coalescing (George and Appel 1996), by a spill policy.
//!
//! Graph, moves and a policy in; steps, classes and colours out.
#![tactic(auto)]

mod classes;
mod coloring;
mod freezing;
mod lists;
mod merging;
mod move_states;
mod removing;
mod safety;
mod selection;
mod spilling;
mod states;
mod tables;

pub use coloring::color;

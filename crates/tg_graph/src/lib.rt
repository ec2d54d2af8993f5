//! Interference graphs and worklists of register allocation (Appel, chapter 11).
//!
//! Promises the allocator exact pairs, degrees and neighbours, and that each node is in exactly one
//! list (George and Appel 1996).
#![tactic(auto)]

mod bits;
mod chains;
mod graphs;
mod laws;
mod lists;
mod matrices;
mod worklists;

pub use graphs::Graph;
pub use laws::{lists_stay_apart, registers_interfere};
pub use lists::{COLOURS, numbers};
pub use worklists::{Worklist, Worklists};

//! A code's interference graph and moves, for a round of allocation (Appel, chapter 11).
//!
//! What a round of the register allocator is given of a code (George and Appel 1996): its
//! interference graph, the moves between its nodes, and what is known of each node. Promises all
//! three exactly, and laws of nodes. The definitions stand in `specs/`.
#![tactic(auto)]

mod crossing;
mod edges;
mod facts;
mod laws;
mod moves;
mod nodes;

pub use edges::interference;
pub use facts::{FactsOfNodes, facts_of_nodes};
pub use laws::nodes_are_operands;
pub use moves::moves_of;
pub use nodes::node_of;

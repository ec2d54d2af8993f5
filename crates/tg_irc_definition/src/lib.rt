//! A round of iterated register coalescing (George and Appel 1996): data, definition, laws.
//!
//! Its moves, steps and answer, the policy that says which temporary is spilled, and in `specs/`
//! what a round is. Promises laws of every round, to the code that makes rounds and to those who
//! read one.
#![tactic(auto)]

mod candidates;
mod laws;
mod moves;
mod policies;
mod rounds;
mod steps;

pub use candidates::{Candidate, NodeFacts};
pub use laws::{
    classes_follow_moves, colourable_never_spills, colours_are_proper, degrees_change,
    moves_are_explained, pairs_are_of_classes, rounds_are_of_nodes, spilled_are_classes,
    states_are_sound, steps_are_taken, waiting_fails,
};
pub use moves::{Move, MoveState};
pub use policies::{LeastUse, SpillPolicy};
pub use rounds::{Colours, Moves, Nodes, Round, States, Steps};
pub use steps::Step;

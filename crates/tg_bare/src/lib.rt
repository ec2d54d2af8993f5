//! The simulator with delayed branches: what stands behind a branch is done before its target.
//!
//! It loads an image and runs it as SPIM does with `-delayed_branches`. Promises that each run is
//! that of the definition, and that a machine that has ended answers its end again.
#![tactic(auto)]

mod advancing;
mod cores;
mod laws;
mod loading;
mod machines;
mod pauses;
mod places;
mod steps;
mod ways;

pub use laws::{bare_ends_again, bare_runs_are_exact, bare_runs_by_fuel};
pub use loading::load_bare;
pub use machines::BareMachine;

//! Register allocation by rounds of coalescing and spilling (George and Appel 1996).
//!
//! Also with every temporary in the frame (Appel, chapter 11). Promises rounds that are of the
//! code, the code over registers that follows from them, and the location of each temporary.
#![tactic(auto)]

mod allocating;
mod allocations;
mod frames;
mod growth;
mod laws;
mod loading;
mod painting;
mod placing;
mod progress;
mod rewriting;
mod stages;

pub use allocating::allocate;
pub use allocations::{Allocation, Location, Locations, Rounds};
pub use frames::in_frame;
pub use growth::{
    allocations_are_short, allocations_keep_tests, colourable_needs_one_round,
    moves_stay_for_a_cause, regalloc_is_bounded,
};
pub use laws::in_frame_is_bounded;
pub use painting::register_of;
pub use progress::Progress;
pub use stages::slotted;

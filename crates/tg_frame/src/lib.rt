//! Frames (Appel, chapter 6): a home for each variable, in the frame or in a temporary.
//!
//! Promises the translation homes that are pairwise distinct, and in the frame exactly where that
//! is asked.
#![tactic(auto)]

mod accesses;
mod frames;
mod laws;
mod links;

pub use accesses::{Access, Accesses};
pub use frames::{Frame, new_frame};
pub use laws::homes_stay_apart;
pub use links::link_path;

#[cfg(test)]
mod tests;

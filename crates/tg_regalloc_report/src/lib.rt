//! The text of `tiger alloc`: each round's steps, and where each temporary came to stand.
//!
//! Promises exactly the lines of `specs/Listing.antt`.
#![tactic(auto)]

mod listing;
mod locations;
mod nodes;
mod steps;

pub use listing::list;

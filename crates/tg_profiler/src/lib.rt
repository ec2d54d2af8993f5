//! Watchers of a run: what each step of a machine fetches, told as profile, coverage or trace.
//!
//! Promises that a machine runs as if nobody watched, that each watcher stands for the fetches of
//! that very run, and that the profile, the coverage and the trace tell exactly their reports of
//! it.
#![tactic(auto)]

mod covering;
mod lines;
mod profiling;
mod reporting;
mod rows;
mod running;
mod tracing;
mod watchers;

pub use covering::Coverage;
pub use lines::word_in_hex;
pub use profiling::Profile;
pub use reporting::write_reports;
pub use running::{begin_all, run_watched};
pub use tracing::Trace;
pub use watchers::Watcher;

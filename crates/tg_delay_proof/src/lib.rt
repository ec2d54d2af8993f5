//! Correctness of filled delay slots: lines with their slots do what the lines before do.
//!
//! Runs are of lines, in which no address of code is known (`tg_emit_proof` has those without
//! slots): turned branches and filled slots each keep every run, for at most twice the rows.
#![tactic(auto)]

mod laws;

pub use laws::{
    delaying_keeps_calls, delaying_keeps_runs, filling_keeps_runs, lines_stay_over,
    slots_are_returns, turning_keeps_runs,
};

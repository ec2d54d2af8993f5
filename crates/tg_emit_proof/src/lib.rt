//! Correctness of emission: the machine does what the functions over registers do.
//!
//! The machine runs the image of what is emitted (Appel, chapter 12). The proof has two halves with
//! a run of lines between them, in which no address of code is known: frames, slots and large
//! offsets are in the first, addresses of code in the second.
#![tactic(auto)]

mod laws;

pub use laws::{
    emission_agrees, emission_keeps_runs, emit_is_correct, lines_run_on_the_machine,
    places_are_returns,
};

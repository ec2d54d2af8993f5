//! The theory of runs and simulation, on which each pass's proof stands (definitions).
//!
//! Runs by fuel, what comes of a program and of code, code that follows a program, what a pass from
//! code to code promises, and how agreement with a program goes on from pass to pass. Its functions
//! do nothing: each carries laws over the definitions of `specs/`.
#![tactic(auto)]

mod laws;

pub use laws::{
    agreement_goes_on, credit_is_traded, following_agrees, passes_compose, passes_simulate,
    runs_come, steps_follow,
};

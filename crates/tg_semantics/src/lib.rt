//! What Tiger programs mean (definitions): evaluation, with its heap, cost and stack weight.
//!
//! Evaluation of the plain tree stands in two forms, by results and by what comes next. The crate
//! holds definitions, in `specs/`, and laws of them; no program calls it.
#![tactic(auto)]

mod laws;
mod standards;

pub use laws::{
    forms_agree, fuel_is_a_bound, fuel_unfolds, nothing_is_taken_back, programs_as_sources,
};
pub use standards::Standard;

//! Folding on trees (Appel, chapter 17): constants, known conditions, copies of temporaries.
//!
//! Operators on constants, conditions that are known, and copies between temporaries. What the pass
//! makes of a body is defined in `specs/mirror/Folding.antt`, a function on plain trees; a folded
//! body does what the body did and is no larger. `--fold` switches it on.
#![tactic(auto)]

mod constants;
mod laws;
mod pass;
mod passing;
mod reading;
mod renaming;
mod tests;

pub use laws::{fold_is_bounded, fold_is_correct, folding_is_folded, shapes_stay};
pub use pass::fold;

//! The type checker (Appel, chapter 5): notes on a tree's uses, or its first fault.
//!
//! `check` answers notes on what the program's uses, fields and comparisons mean, or the first
//! fault with its rule and byte, exactly as the definition of typing in `specs/` does (appendix A).
//! Promises too that an accepted program is never stuck, and that a fault stands within its text.
#![tactic(auto)]

mod bindings;
mod chains;
mod checking;
mod faults;
mod groups;
mod headers;
mod kinds;
mod laws;
mod limits;
mod lookups;
mod notes;
mod operators;
mod records;
mod rules;
mod shapes;
mod standards;
mod states;
mod trees;

pub use checking::{Checked, Notes, check};
pub use faults::{TypeFault, TypeRule};
pub use laws::{checked_has_type, faults_stand_within, never_stuck, notes_are_found};
pub use notes::{Means, Note};
pub use tg_semantics::Standard;

//! The runtime of compiled programs, as trees (Appel, appendix A.4).
//!
//! What makes records, arrays and strings, the comparison of strings, and the standard functions,
//! as trees that go through the same passes as a program's own functions. Promises exactly the
//! functions of `specs/mirror/Routines.antt`.
#![tactic(auto)]

mod creation;
mod forms;
mod fragments;
mod laws;
mod routines;
mod standards;
mod strings;

pub use fragments::runtime;
pub use laws::routines_are_closed;
pub use routines::Routine;

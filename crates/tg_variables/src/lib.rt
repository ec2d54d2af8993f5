//! The variables of each function of a program, with their homes (Appel, chapter 6).
//!
//! What the source declares and uses is joined to where the translation keeps it. Promises exactly
//! the lists of `specs/Variables.antt`.
#![tactic(auto)]

mod functions;
mod homes;
mod parts;
mod placing;
mod sources;
mod users;

pub use functions::OwnText;
pub use homes::variables;
pub use parts::Part;
pub use placing::{place_at, places_of};

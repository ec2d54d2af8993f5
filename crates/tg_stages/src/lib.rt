//! The text of `tiger show`: of each function what each pass makes of it (Appel, chapters 6 to 12).
//!
//! Goes through the passes once more, and tells what each gives. Promises the driver exactly the
//! text of `specs/Programs.antt`.
#![tactic(auto)]

mod declared;
mod functions;
mod headings;
mod laws;
mod programs;
mod rounds;

pub use headings::Heading;
pub use programs::show_checked;

//! The formatter: a source's tokens become its canonical text, one layout for all.
//!
//! All sources that have the same tokens have one text. Promises exactly the text of
//! `specs/Canonical.antt`. Comments are no tokens, so they are lost.
#![tactic(auto)]

mod escapes;
mod formatting;
mod gaps;
mod kinds;
mod spellings;
mod strings;

pub use formatting::format;

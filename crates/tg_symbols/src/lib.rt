//! Scoped symbol tables (Appel, chapter 5): what a name has, by its newest open entry.
//!
//! Names are numbers, and the newest entry of a name hides the older ones until its scope ends.
//! Promises the passes over the syntax tree what a list of the open entries says, newest first,
//! while no look-up and no scope's end walks over it.
#![tactic(auto)]

mod tables;

pub use tables::Table;

#[cfg(test)]
mod tests;

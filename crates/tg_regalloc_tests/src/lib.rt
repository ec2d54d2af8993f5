//! Tests of allocations and of their text.
//!
//! The crate has nothing but tests. They stand apart from the crates that they call, since a crate
//! with tests is proved twice.
#![tactic(auto)]

#[cfg(test)]
mod copies;

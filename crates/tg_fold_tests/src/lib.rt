//! Tests of folding, by its definition and by runs of programs before and after it.
//!
//! The crate has nothing but tests. They stand apart from the crate that they call, since a crate
//! with tests is proved twice.
#![tactic(auto)]

#[cfg(test)]
mod bodies;

//! Tests of interference graphs and of worklists.
//!
//! The crate has nothing but tests. They stand apart from the crate that they call, since a crate
//! with tests is proved twice.
#![tactic(auto)]

#[cfg(test)]
mod graphs;
#[cfg(test)]
mod worklists;

//! Tests of the machine with delayed branches, beside the machine without.
//!
//! The crate has nothing but tests. They stand apart from the crate that they call, since a crate
//! with tests is proved twice.
#![tactic(auto)]

#[cfg(test)]
mod delayed;

//! Tests of watched runs, on images that no assembly text has.
//!
//! The crate has nothing but tests.
#![tactic(auto)]

#[cfg(test)]
mod words;

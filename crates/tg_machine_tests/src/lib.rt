//! Tests of the instruction table, of the assembler and of the machine.
//!
//! The crate has nothing but tests. They stand apart from the crates that they call, since a crate
//! with tests is proved twice.
#![tactic(auto)]

#[cfg(test)]
mod instructions;
#[cfg(test)]
mod runs;
#[cfg(test)]
mod texts;

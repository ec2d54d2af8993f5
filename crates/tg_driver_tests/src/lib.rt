//! Tests of the top call and of the command line, on objects in memory.
//!
//! Each table stands beside the test that goes through it; the expected lines and statuses come
//! from the product's tables.
#![tactic(auto)]

#[cfg(test)]
mod bare;
#[cfg(test)]
mod calls;
#[cfg(test)]
mod cut;
#[cfg(test)]
mod deep;
#[cfg(test)]
mod delayed;
#[cfg(test)]
mod explained;
#[cfg(test)]
mod failures;
#[cfg(test)]
mod faults;
#[cfg(test)]
mod folded;
#[cfg(test)]
mod formats;
#[cfg(test)]
mod languages;
#[cfg(test)]
mod large;
#[cfg(test)]
mod policies;
#[cfg(test)]
mod programs;
#[cfg(test)]
mod rooms;
#[cfg(test)]
mod runs;
#[cfg(test)]
mod shown;
#[cfg(test)]
mod texts;
#[cfg(test)]
mod watching;
#[cfg(test)]
mod words;

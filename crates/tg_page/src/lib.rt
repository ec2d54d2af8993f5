//! The compiler and the simulator in a web page: exports that answer over texts in memory.
//!
//! Promises that a command is answered as the top call answers it, and that a look at a machine
//! tells what the run of the definition comes to.
#![tactic(auto)]

mod asking;
mod buffers;
mod looking;
mod stopping;
mod viewing;

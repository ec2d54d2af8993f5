//! The machine's state and the system's services (definitions), ends of runs, memory regions.
//!
//! What programs mean at the machine is said by these, for trees, for instructions and for MIPS
//! alike.
#![tactic(auto)]

mod ends;
mod regions;

pub use ends::RunEnd;
pub use regions::{
    CODE_BASE, HEAP_BASE, MOST_BYTES, MOST_WORDS, STACK_REACH, STACK_TOP, STATICS_BASE,
};

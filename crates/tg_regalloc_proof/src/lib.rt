//! Correctness of register allocation: allocated code does what the code before it did.
//!
//! Whatever a policy answers, the code of an allocation does what the code did that was handed in,
//! with no more work than is counted for it, and so does the code with every temporary in the frame
//! (George and Appel 1996; Appel, chapter 11). First the law of replaced functions: where a block
//! of instructions stands for each instruction of a function, with operands in places of their own,
//! the function may stand in the place of the other in every program.
#![tactic(auto)]

mod laws;

pub use laws::{allocations_keep, programs_are_kept, regalloc_is_correct, replaced_functions_keep};

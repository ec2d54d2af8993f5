//! Correctness of `bare` (the headline): what is built with delay slots does what the source means.
//!
//! On the machine with delayed branches, whatever passes are switched on, the policy, the input and
//! the sizes. It says when an image does what a program means there, with so many times the steps,
//! and of which texts; the laws of the passes are those of `tg_compile_proof`, and slots come last.
#![tactic(auto)]

mod laws;

pub use laws::{
    bare_compile_is_correct, bare_ends_are_as_meant, bare_image_agrees, bare_is_as_meant,
    delayed_agrees, delayed_is_short, delayed_text_has_image, once_is_as_meant,
};

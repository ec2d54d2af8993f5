//! Correctness of filled delay slots on the machine: it does what the lines before them do.
//!
//! The machine with delayed branches runs the image of lines with their slots as `tg_delay_proof`
//! runs the lines, word by word. What is emitted may be given slots, and has an image then.
#![tactic(auto)]

mod laws;

pub use laws::{
    delayed_has_image, delayed_lines_agree, delayed_run_on_the_machine, emitted_may_be_delayed,
    filled_has_image, lines_are_delayed, lines_keep_on_the_machine,
};

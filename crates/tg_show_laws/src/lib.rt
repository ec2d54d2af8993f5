//! Laws of the texts of stages: what `show` writes tells the tree or the code that it shows.
//!
//! They are laws of the definitions of `tg_show`: no two values have one text.
#![tactic(auto)]

mod laws;

pub use laws::{codes_are_told, instructions_are_told, trees_are_told};

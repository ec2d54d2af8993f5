//! Bounds of how large a compiled program is: the words of its code, the bytes of its frames.
//!
//! The words of code and the frame of each function are bounded by the tree that it is translated
//! to and by its text, and the code of the whole program fits its segment whatever is spilled.
//! Where a function's tree is small, each pass after the translation gets what it asks for.
#![tactic(auto)]

mod laws;

pub use laws::{
    emit_is_bounded, functions_are_bounded, functions_are_few, programs_are_bounded,
    small_is_enough,
};

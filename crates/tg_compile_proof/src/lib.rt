//! Correctness of the compiler (the headline): what is built of a source does what it means.
//!
//! Whatever passes are switched on, the policy, the input and the sizes. The laws of the passes stand
//! one after another, over the forms that a program has between source and machine, and then of
//! texts.
#![tactic(auto)]

mod laws;

pub use laws::{
    allocation_is_kept, build_is_correct, choice_is_kept, compile_is_correct, compiled_agrees,
    compiled_may_run, ends_are_as_meant, exits_are_words, fragments_have_words,
    lowering_is_correct, prepare_is_correct, programs_are_translated, runtime_frames_fit,
};

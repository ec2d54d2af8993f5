//! Instruction selection by maximal munch (Appel, chapter 9): flat code becomes instructions.
//!
//! They stand over temporaries and registers. Promises exactly the code that `specs/` computes.
#![tactic(auto)]

mod arguments;
mod bodies;
mod comparing;
mod drafts;
mod expressions;
mod finishing;
mod laws;
mod munching;
mod operators;
mod orders;
mod products;
mod statements;
mod tiles;
mod tiling;

pub use laws::{
    code_is_kept, code_is_marked, code_names_its_own, munch_is_bounded, temporaries_are_few,
};
pub use munching::munch;

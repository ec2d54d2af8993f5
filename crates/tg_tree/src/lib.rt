//! The tree language (Appel, chapter 7) and its flat form (chapter 8): data and meaning.
//!
//! It is the data of the passes in the middle of the compiler, with its meaning over the memory of
//! the machine in `specs/`. Its functions make trees, or do nothing and carry laws of that meaning.
#![tactic(auto)]

mod fragments;
mod laws;
mod linear;
mod making;
mod operators;
mod trees;

pub use fragments::{Fragment, Fragments, Literal};
pub use laws::{
    flat_code_runs, flat_expressions_run, full_stack_ends_the_call, functions_carry,
    linked_trees_run, nothing_else_is_read, trees_run,
};
pub use linear::Linear;
pub use making::{
    after, binary, both, call, compare, either, if_else, load, load_byte, negate, repeat,
    repeat_until, sequence, service, when,
};
pub use operators::{Bin, Rel, opposite};
pub use trees::{Cond, Stms, Ts, Tx, Txs};

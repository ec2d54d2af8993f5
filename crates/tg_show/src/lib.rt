//! The texts of the stages of compilation, in the book's notation (Appel, chapters 6 to 12).
//!
//! Trees, code, what is live, graphs and registers become lines. Promises exactly the texts of
//! `specs/`.
#![tactic(auto)]

mod assembly;
mod blocks;
mod flat;
mod graphs;
mod instructions;
mod layouts;
mod liveness;
mod modes;
mod names;
mod registers;
mod runs;
mod stages;
mod trees;
mod variables;
mod words;

pub use names::names_of;
pub use stages::{
    put_assembly, put_blocks, put_canonical, put_code, put_folded, put_function, put_graph,
    put_live, put_registers, put_round, put_traces, put_tree, put_variables,
};
pub use variables::{FunctionVariables, Variable};

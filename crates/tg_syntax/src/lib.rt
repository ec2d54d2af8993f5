//! Tokens and abstract syntax of Tiger as data, with the definition of its grammar.
//!
//! Promises exact counts of nodes, and which tree each call here makes. The token relation, the
//! grammar relation, the measures and the plain tree by which contracts speak stand in `specs/`.
#![tactic(auto)]

mod faults;
mod making;
mod measures;
mod programs;
mod tokens;
mod trees;

pub use faults::LexRule;
pub use making::{
    assign, break_out, call, call_of_one, field, int, let_in, make, negate, nil, read, sequence,
    sequence_of_one, text,
};
pub use measures::nodes;
pub use programs::program_nodes;
pub use tokens::{Ident, Sign, Spanned, Token, Word};
pub use trees::{
    Dec, Decs, Exp, Exps, Form, FunDec, FunDecs, Init, Inits, Kind, Op, Param, Params, Program,
    TypeDec, TypeDecs, Var,
};

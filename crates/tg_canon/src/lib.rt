//! Canonical trees (Appel, chapter 8): hoists statements and calls out of expressions.
//!
//! Services are hoisted like calls. What the pass makes of a body is defined in
//! `specs/mirror/Canon.antt`, a function on plain trees; each step of the code is proved to do what
//! its step of the definition does.
#![tactic(auto)]

mod bodies;
mod breaks;
mod hoisted;
mod laws;
mod opened;
mod parts;
mod pass;
mod statements;
mod supply;
mod tested;

pub use bodies::linearize;
pub use laws::{canon_is_bounded, canon_is_correct, canonical_statements, names_stay};

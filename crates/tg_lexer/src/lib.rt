//! The lexer (Appel, chapter 2): a text's tokens and names, or its first lexical fault.
//!
//! Promises that the tokens are those of the token relation, that the fault is the first one in
//! reading from the front, and that names keep their places (appendix A). The relations stand in
//! `specs/` of `tg_syntax`.
#![tactic(auto)]

mod bytes;
mod comments;
mod escapes;
mod faults;
mod ints;
mod laws;
mod lexemes;
mod lexing;
mod signs;
mod strings;
mod words;

pub use faults::LexFault;
pub use laws::{fault_excludes_tokens, faults_once, lexes_once, spans_cover_bytes};
pub use lexing::lex;
pub use tg_syntax::LexRule;

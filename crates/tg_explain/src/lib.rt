//! Explanations of faults of bytes and syntax: what was found, what is expected, what is open.
//!
//! Promises exactly the kinds of tokens with which some program goes on behind those before a
//! fault, the last opener of them that no token closes, and the lines that tell these. The
//! definitions stand in `specs/Expected.antt`, `specs/Openers.antt`, `specs/Details.antt`,
//! `specs/Lines.antt` and `specs/Lexical.antt`.
#![tactic(auto)]

mod details;
mod expecting;
mod kinds;
mod laws;
mod lexical;
mod lines;
mod openers;
mod putting;
mod words;

pub use details::{SyntaxDetail, explain_syntax};
pub use expecting::expected;
pub use kinds::{TokenKind, kind_of};
pub use laws::{escapes_are_whole, expected_is_all};
pub use lexical::lexical_lines;
pub use lines::{place_in, put_open, syntax_lines};
pub use openers::{Opener, Opening, last_open};
pub use putting::{put, put_count, put_line, put_place, put_quoted};

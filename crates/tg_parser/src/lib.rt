//! The parser (Appel, chapter 3): tokens become their tree, or their first fault of syntax.
//!
//! It descends by precedence. Promises that the tree is the one that the grammar relation of
//! `tg_syntax` gives, that an unexpected token is the first with which no program can go on, and
//! that nesting above 256 is refused; and that no tree is deeper than `MOST_DEPTH`. `parsing` has
//! the call, `nesting` finds the first token that is too deep, `depths` bounds trees, and each part
//! of `reading` does exactly what the descent in `tg_syntax_laws` does.
#![tactic(auto)]

mod building;
mod depths;
mod ends;
mod faults;
mod forms;
mod groups;
mod heads;
mod laws;
mod nesting;
mod parsing;
mod ranks;
mod reading;
mod taking;

pub use depths::MOST_DEPTH;
pub use faults::{SyntaxFault, SyntaxRule};
pub use laws::{fault_excludes_program, faults_once};
pub use parsing::parse;

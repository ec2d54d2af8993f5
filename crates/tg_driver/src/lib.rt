//! The top call `tiger`: the words of a command become a status, by all passes together.
//!
//! Promises every answer with its cause, that what it builds does what the source means, and that a
//! run ends by that meaning.
#![tactic(auto)]

mod answers;
mod checking;
mod compiling;
mod delaying;
mod endings;
mod executing;
mod explaining;
mod faults;
mod formatting;
mod generating;
mod images;
mod laws;
mod reading;
mod refusals;
mod running;
mod showing;
mod streams;
mod telling;
mod tools;
mod top;
mod writing;

pub use answers::usage;
pub use compiling::compile;
pub use faults::Rule;
pub use laws::{
    answers_are_complete, answers_are_exact, answers_are_safe, bare_runs_are_as_meant,
    commands_are_as_meant, expected_are_told, formats_once, one_answer, reports_are_exact,
    runs_are_as_meant, runs_are_exact, sources_are_never_stuck,
};
pub use refusals::Refusal;
pub use tg_compile::{Compiled, Passes};
pub use tg_program_generator::generate;
pub use tools::Tools;
pub use top::tiger;

//! Instructions over temporaries and registers (Appel, chapter 9): data and meaning.
//!
//! With them the code that register allocation makes of them. Promises what each instruction uses
//! and defines, and code that keeps in its type what every later pass asks of it. The meaning of
//! instructions stands in `specs/`, with the laws that uses and definitions are those of its
//! effect, and of runs.
#![tactic(auto)]

mod building;
mod codes;
mod instr;
mod laws;
mod operands;
mod renaming;
mod uses;

pub use building::push_instr;
pub use codes::{Allocated, Code};
pub use instr::{Instr, Instrs, Test};
pub use laws::{code_runs, effects_are_told};
pub use operands::Opnd;
pub use renaming::Named;

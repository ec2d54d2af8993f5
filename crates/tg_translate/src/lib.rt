//! The translation of checked programs to trees (Appel, chapters 6 and 7).
//!
//! It makes static links, homes of variables, checks of nil, of indices and of divisors, and
//! arithmetic that ends the program by overflow. Promises the passes after it exactly the trees of
//! `specs/mirror/Translate.antt`.
#![tactic(auto)]

mod calls;
mod constructs;
mod creation;
mod expressions;
mod findings;
mod finishing;
mod functions;
mod held;
mod homes;
mod loops;
mod operands;
mod operators;
mod places;
mod programs;
mod purity;
mod returning;
mod states;
mod updates;
mod wants;

pub use held::HeldAddress;
pub use homes::{Callee, Home, TranslatedProgram, Within};
pub use operands::Operand;
pub use programs::{translate, translate_with_homes};
pub use wants::Want;

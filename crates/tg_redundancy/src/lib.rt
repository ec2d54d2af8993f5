//! Known words and tests (Appel, chapter 17): nothing is computed or tested twice on a path.
//!
//! On each extended basic block a word that a temporary has already is moved from there, a branch
//! that is known to fall through goes, and one that is known to be taken is a jump. Promises
//! exactly the known code of `specs/`, or out of memory, and the laws that known code is code, names
//! what the code named, and is hardly longer.
#![tactic(auto)]

mod changes;
mod copies;
mod facts;
mod laws;
mod pass;
mod readings;
mod walks;
mod ways;

pub use facts::Fact;
pub use laws::{known_is_bounded, known_is_code, known_names_its_own};
pub use pass::known;
pub use readings::Reading;

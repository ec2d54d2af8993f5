//! Escape analysis (Appel, chapter 6): variables that escape, and static links in use.
//!
//! What nested functions use of the functions around them: their variables, and the functions
//! through whose static links they go. Promises the translation exactly these sets, each found in
//! one walk over the tree. The definitions stand in `specs/Uses.antt`, `specs/Escaping.antt` and
//! `specs/Links.antt`.
#![tactic(auto)]

mod declarations;
mod finding;
mod found;
mod laws;
mod searches;
mod sets;

pub use finding::{escapes, links};
pub use laws::uses_join;
pub use sets::{Escapes, Links};

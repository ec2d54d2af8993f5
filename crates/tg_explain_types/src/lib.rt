//! Explanations of faults of types: names near a wrong one, counts, types that were asked for.
//!
//! Promises exactly the declarations that can be seen at a byte of a program, and the lines that
//! tell what a fault is about. The definitions stand in `specs/Parts.antt`, `specs/Scopes.antt`,
//! `specs/Telling.antt` and `specs/Lines.antt`; types come from `tg_explain_typing`.
#![tactic(auto)]

mod declarations;
mod details;
mod laws;
mod lines;
mod names;
mod parts;
mod scopes;
mod spelling;
mod telling;
mod type_texts;

pub use declarations::{Declaration, Part, Sort};
pub use details::{Limit, TypeDetail, explain_types};
pub use laws::{one_edit_is_exact, two_edits_are_exact, types_are_told};
pub use lines::type_lines;
pub use names::{Near, Wanted, near_text, nearest, spelled};
pub use parts::parts_of;
pub use scopes::seen_at;

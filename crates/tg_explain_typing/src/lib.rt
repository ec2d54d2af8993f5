//! What each place of a program asks of the type that stands there, for explanations of faults.
//!
//! Promises exactly the facts of a program: what its names are declared as and where they are seen,
//! with their types, and what is asked where a part begins at a byte. A second walk, since the
//! checker stops with a rule and a byte alone. It carries no scopes, only the facts so far: a name
//! is looked for by its place. The definitions stand in `specs/Facts.antt`,
//! `specs/Synthesis.antt` and `specs/Lookups.antt`.
#![tactic(auto)]

mod asking;
mod declaring;
mod facts;
mod finding;
mod lookups;
mod standards;
mod synthesis;
mod types;
mod walk;

pub use facts::{Demand, Fact, Meaning};
pub use finding::{
    Breach, Declared, Difference, Judgement, breaks, field_names, first_broken, first_declared,
    first_difference, function_around, given_names, judged_record, loop_around,
};
pub use lookups::{covers, named_type, spelled};
pub use synthesis::exp_type;
pub use types::{Ty, are_alike, fits, has_order, is_same};
pub use walk::facts_of;

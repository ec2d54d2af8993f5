//! Laws that explanations rest on: spans nest, and the types told are those that typing asks of.
//!
//! Explanations look a name up by the span in which its declaration is seen, and tell the first
//! types that break what is asked of them. They are laws of the grammar, of these and of typing.
#![tactic(auto)]

mod laws;

pub use laws::{declared_within, faults_are_asked, first_stays, spans_nest, told_types_are_asked};

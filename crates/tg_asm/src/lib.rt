//! The assembler: an assembly text becomes the image of a program, or its first fault.
//!
//! Two passes over the text's lines. Promises to `tiger exec` the text's image exactly where the
//! definition gives it, else its first fault with its line. The definition stands in `specs/` of
//! `tg_asm_text`: lines to items, items to places, labels to places, places to words.
#![tactic(auto)]

mod assembling;
mod bytes;
mod cuts;
mod entries;
mod faults;
mod fields;
mod items;
mod labels;
mod layouts;
mod makers;
mod making;
mod numbers;
mod readings;
mod registers;
mod rows;
mod spots;
mod words;

pub use assembling::assemble;
pub use faults::{AsmFault, AsmRule};

//! What every crate shares: places, names, words of 32 bits, and the outside as traits.
//!
//! Promises exact numbers and texts, and objects in memory that fail only where they were told to.
//! The definitions of words stand in `specs/`.
#![tactic(auto)]

mod arithmetic;
mod decimals;
mod faults;
mod faulty;
mod holding;
mod ids;
mod lines;
mod lists;
mod numbering;
mod outside;
mod places;
mod products;
mod shelves;
mod sinks;
mod sources;
mod tallies;

pub use arithmetic::{
    add, exact_difference, exact_sum, less_signed, less_unsigned, mul, product, quot, sub,
};
pub use decimals::decimal;
pub use faults::{Failed, Memory};
pub use faulty::Faulty;
pub use holding::keep_with;
pub use ids::{Label, Name, Span, Temp};
pub use lines::place;
pub use lists::{Bytes, ListOf, Words};
pub use numbering::Names;
pub use outside::{Shelf, ShelfFault, Sink, Source, write_all};
pub use places::Place;
pub use products::product_in_range;
pub use shelves::{MapShelf, PlainShelf};
pub use sinks::RoomSink;
pub use sources::{ListSource, PlainSource};

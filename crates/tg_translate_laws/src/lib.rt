//! Laws of the trees of a program: labels, temporaries, literals, slots, closed bodies, sizes.
//!
//! Which labels, temporaries and literals stand in them, how many slots frames have, and that
//! bodies are closed. They are laws of the definition `translated`, so that the passes after the
//! translation need not test what they ask for.
#![tactic(auto)]

mod laws;

pub use laws::{
    bodies_are_closed, constants_are_words, literals_are_strings, programs_are_linked,
    temporaries_are_drawn, translate_is_bounded, values_are_given_back,
};

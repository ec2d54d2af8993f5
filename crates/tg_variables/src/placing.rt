ghost use Rattle.std.specs.Prelude.{◌≡◌, ◌<◌, ◌^◌, length, IfOk};
ghost use Rattle.tg_base.specs.Lines.{place_of};
ghost use Rattle.tg_variables.specs.Places as spec;

use std::alloc::Global;
use tg_base::{Memory, Place};

/// The places of a text's bytes, and of its end: many are told in one walk over the text.
pub fn places_of(alloc: Global, text: &[u8]) -> Result<Vec<Place>, Memory>
    requires { length text.now < 2 ^ 31 }
    ensures { IfOk result (λ places. spec.ArePlaces text.now places.items) }
{
    let mut places = Vec::new(alloc);
    let mut line = 1;
    let mut column = 1;
    for &byte in text.iter() {
        places.push(Place { line, column })?;
        if byte == b'\n' {
            line += 1;
            column = 1;
        } else {
            column += 1;
        }
    }
    places.push(Place { line, column })?;
    Ok(places)
}

/// The place of a byte of a text, or of the text's end where the byte is beyond.
pub fn place_at(text: &[u8], places: &[Place], at: u32) -> Place
    requires { spec.ArePlaces text.now places.now }
    ensures { result ≡ place_of text.now at }
{
    places[text.len().min(at as usize)]
}

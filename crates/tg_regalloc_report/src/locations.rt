ghost use Rattle.std.specs.Prelude.{◌≡◌, ◌++◌, OnOk};
ghost use Rattle.tg_regalloc_report.specs.Listing.{location_line, location_lines, placed_lines};

use crate::nodes::{put_decimal, put_temp};
use tg_base::Memory;
use tg_isa::name;
use tg_regalloc::{Location, register_of};

/// Puts a line for each temporary at the end, or one that says that all stand in the frame.
pub fn put_locations(
    text: &mut Vec<u8>,
    all_in_frame: bool,
    locations: &[Location],
) -> Result<(), Memory>
    ensures { OnOk result (text.new.items
        ≡ text.old.items ++ placed_lines all_in_frame locations.now) }
{
    if all_in_frame {
        text.extend_from_slice(b"all in frame\n")?;
        Ok(())
    } else {
        put_each_location(text, locations)
    }
}

fn put_each_location(text: &mut Vec<u8>, locations: &[Location]) -> Result<(), Memory>
    ensures { OnOk result (text.new.items ≡ text.old.items ++ location_lines 0 locations.now) }
{
    for at in 0..locations.len() {
        put_location(text, at, &locations[at])?;
    }
    Ok(())
}

/// Puts the line of a temporary's location at the end.
fn put_location(text: &mut Vec<u8>, temp: usize, location: &Location) -> Result<(), Memory>
    ensures { OnOk result (text.new.items ≡ text.old.items ++ location_line temp location.now) }
{
    match location {
        Location::Colour(colour) => {
            text.extend_from_slice(b"colour ")?;
            put_temp(text, temp)?;
            text.push(b' ')?;
            text.extend_from_slice(name(register_of(*colour)).as_bytes())?;
        }
        Location::Slot(slot) => {
            text.extend_from_slice(b"slot ")?;
            put_temp(text, temp)?;
            text.push(b' ')?;
            put_decimal(text, *slot as usize)?;
        }
    }
    text.push(b'\n')?;
    Ok(())
}

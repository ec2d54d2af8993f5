ghost use Rattle.std.specs.Prelude.{◌≡◌, ◌++◌, OnOk};
ghost use Rattle.tg_show.specs.Registers as registers;

use crate::instructions::{instruction_margin, put_instruction};
use crate::layouts::put_blanks;
use crate::words::{put, put_byte, put_number, put_temp_at};
use tg_base::{Bytes, Memory};
use tg_instr::Instr;
use tg_isa::name;
use tg_regalloc::{Allocation, Location, register_of};

/// Puts the lines of an allocation at the end: where each temporary stands, and the code.
pub fn put_allocation_lines(
    text: &mut Vec<u8>,
    names: &[Bytes],
    one: &Allocation,
) -> Result<(), Memory>
    ensures { OnOk result (text.new.items
        ≡ text.old.items ++ registers.allocation_lines names.now one.now) }
{
    put_placed_lines(text, names, one.all_in_frame, one.registers.as_slice())?;
    put_code_lines(text, names, one.done.code.list.as_slice())
}

fn put_placed_lines(
    text: &mut Vec<u8>,
    names: &[Bytes],
    all_in_frame: bool,
    locations: &[Location],
) -> Result<(), Memory>
    ensures { OnOk result (text.new.items
        ≡ text.old.items ++ registers.placed_lines names.now all_in_frame locations.now) }
{
    if all_in_frame {
        put(text, b"  all in frame\n")
    } else {
        put_location_lines(text, names, locations)
    }
}

fn put_location_lines(
    text: &mut Vec<u8>,
    names: &[Bytes],
    locations: &[Location],
) -> Result<(), Memory>
    ensures { OnOk result (text.new.items
        ≡ text.old.items ++ registers.location_lines names.now 0 locations.now) }
{
    for temp in 0..locations.len() {
        put_location_line(text, names, temp, locations[temp])?;
    }
    Ok(())
}

fn put_location_line(
    text: &mut Vec<u8>,
    names: &[Bytes],
    temp: usize,
    location: Location,
) -> Result<(), Memory>
    ensures { OnOk result (text.new.items
        ≡ text.old.items ++ registers.location_line names.now temp location) }
{
    match location {
        Location::Colour(colour) => {
            put(text, b"  colour ")?;
            put_temp_at(text, names, temp)?;
            put_byte(text, b' ')?;
            put(text, name(register_of(colour)).as_bytes())?;
            put_byte(text, b'\n')
        }
        Location::Slot(slot) => {
            put(text, b"  slot ")?;
            put_temp_at(text, names, temp)?;
            put_byte(text, b' ')?;
            put_number(text, slot)?;
            put_byte(text, b'\n')
        }
    }
}

fn put_code_lines(text: &mut Vec<u8>, names: &[Bytes], list: &[Instr]) -> Result<(), Memory>
    ensures { OnOk result (text.new.items
        ≡ text.old.items ++ registers.code_lines names.now list.now) }
{
    for one in list {
        put_code_line(text, names, one)?;
    }
    Ok(())
}

fn put_code_line(text: &mut Vec<u8>, names: &[Bytes], one: &Instr) -> Result<(), Memory>
    ensures { OnOk result (text.new.items
        ≡ text.old.items ++ registers.code_line names.now one.now) }
{
    put_blanks(text, instruction_margin(one))?;
    put_instruction(text, names, one)?;
    put_byte(text, b'\n')
}

ghost use Rattle.std.specs.Prelude.{◌≡◌, ◌<◌, ◌+◌, ◌∷◌, ◌++◌, [], OnOk};
ghost use Rattle.std.specs.Fmt.{decimal};
ghost use Rattle.tg_regalloc_report.specs.Listing.{node_line, node_text, number_line, temp_text};

use itoa::Buffer;
use tg_base::Memory;
use tg_graph::COLOURS;
use tg_isa::name;
use tg_regalloc::register_of;

/// Puts the name of a node at the end: a register's name, or `t` and a temporary's number.
pub fn put_node(text: &mut Vec<u8>, node: u32) -> Result<(), Memory>
    ensures { OnOk result (text.new.items ≡ text.old.items ++ node_text node) }
{
    if node < COLOURS {
        text.extend_from_slice(name(register_of(node as u8)).as_bytes())?;
        Ok(())
    } else {
        put_temp(text, (node - COLOURS) as usize)
    }
}

/// Puts `t` and a temporary's number at the end.
pub fn put_temp(text: &mut Vec<u8>, temp: usize) -> Result<(), Memory>
    ensures { OnOk result (text.new.items ≡ text.old.items ++ temp_text temp) }
{
    text.push(b't')?;
    put_decimal(text, temp)
}

/// Puts a word, a node's name and a newline at the end.
pub fn put_node_line(text: &mut Vec<u8>, word: &[u8], node: u32) -> Result<(), Memory>
    ensures { OnOk result (text.new.items ≡ text.old.items ++ node_line word.now node) }
{
    text.extend_from_slice(word)?;
    put_node(text, node)?;
    text.push(b'\n')?;
    Ok(())
}

/// Puts a word, a number and a newline at the end.
pub fn put_number_line(text: &mut Vec<u8>, word: &[u8], number: usize) -> Result<(), Memory>
    ensures { OnOk result (text.new.items ≡ text.old.items ++ number_line word.now number) }
{
    text.extend_from_slice(word)?;
    put_decimal(text, number)?;
    text.push(b'\n')?;
    Ok(())
}

/// Puts a number's decimal digits at the end.
pub fn put_decimal(text: &mut Vec<u8>, number: usize) -> Result<(), Memory>
    ensures { OnOk result (text.new.items ≡ text.old.items ++ decimal number) }
{
    let mut digits = Buffer::new();
    text.extend_from_slice(digits.format(number).as_bytes())?;
    Ok(())
}

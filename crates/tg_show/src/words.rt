ghost use Rattle.std.specs.Prelude.{◌≡◌, ◌∷◌, [], ◌++◌, OnOk};
ghost use Rattle.std.specs.Fmt.{decimal};
ghost use Rattle.tg_show.specs.Words as words;

use itoa::Buffer;
use tg_base::{Bytes, Memory, Temp};
use tg_tree::{Bin, Rel};

/// Puts bytes at the end.
pub fn put(text: &mut Vec<u8>, bytes: &[u8]) -> Result<(), Memory>
    ensures { OnOk result (text.new.items ≡ text.old.items ++ bytes.now) }
{
    text.extend_from_slice(bytes)?;
    Ok(())
}

/// Puts a byte at the end.
pub fn put_byte(text: &mut Vec<u8>, byte: u8) -> Result<(), Memory>
    ensures { OnOk result (text.new.items ≡ text.old.items ++ byte ∷ []) }
{
    text.push(byte)?;
    Ok(())
}

/// Puts a number's decimal digits at the end.
pub fn put_number(text: &mut Vec<u8>, number: u32) -> Result<(), Memory>
    ensures { OnOk result (text.new.items ≡ text.old.items ++ decimal number) }
{
    let mut digits = Buffer::new();
    put(text, digits.format(number).as_bytes())
}

/// Puts a count's decimal digits at the end.
pub fn put_count(text: &mut Vec<u8>, count: usize) -> Result<(), Memory>
    ensures { OnOk result (text.new.items ≡ text.old.items ++ decimal count) }
{
    let mut digits = Buffer::new();
    put(text, digits.format(count).as_bytes())
}

/// Puts the int that a word stands for at the end.
pub fn put_word(text: &mut Vec<u8>, word: u32) -> Result<(), Memory>
    ensures { OnOk result (text.new.items ≡ text.old.items ++ words.int_text word) }
{
    let mut digits = Buffer::new();
    put(text, digits.format(word.cast_signed()).as_bytes())
}

/// Puts a word and a number at the end.
pub fn put_numbered(text: &mut Vec<u8>, word: &[u8], number: u32) -> Result<(), Memory>
    ensures { OnOk result (text.new.items ≡ text.old.items ++ (word.now ++ decimal number)) }
{
    text.extend_from_slice(word)?;
    put_number(text, number)
}

/// Puts a temporary at the end: `t`, its number, and its name where it has one.
pub fn put_temp(text: &mut Vec<u8>, names: &[Bytes], temp: Temp) -> Result<(), Memory>
    ensures { OnOk result (text.new.items ≡ text.old.items ++ words.temp_text names.now temp.0) }
{
    put_temp_at(text, names, temp.0 as usize)
}

/// Puts the temporary of a number at the end.
pub fn put_temp_at(text: &mut Vec<u8>, names: &[Bytes], temp: usize) -> Result<(), Memory>
    ensures { OnOk result (text.new.items ≡ text.old.items ++ words.temp_text names.now temp) }
{
    put_byte(text, b't')?;
    put_count(text, temp)?;
    match names.get(temp) {
        Some(name) => put_name(text, name.as_slice()),
        None => Ok(()),
    }
}

fn put_name(text: &mut Vec<u8>, name: &[u8]) -> Result<(), Memory>
    ensures { OnOk result (text.new.items ≡ text.old.items ++ words.name_text name.now) }
{
    if name.is_empty() {
        return Ok(());
    }
    text.push(b':')?;
    put(text, name)
}

/// The word of an operator.
pub fn bin_word(op: Bin) -> &'static [u8]
    ensures { result.now ≡ words.bin_word op }
{
    match op {
        Bin::Add => b"PLUS",
        Bin::Sub => b"MINUS",
        Bin::Mul => b"MUL",
        Bin::Div => b"DIV",
        Bin::And => b"AND",
        Bin::Or => b"OR",
        Bin::Xor => b"XOR",
        Bin::ShiftLeft => b"LSHIFT",
        Bin::ShiftRight => b"RSHIFT",
        Bin::ShiftSigned => b"ARSHIFT",
        Bin::AddTrap => b"PLUSTRAP",
        Bin::SubTrap => b"MINUSTRAP",
        Bin::MulHigh => b"MULHIGH",
    }
}

/// The word of a comparison.
pub fn rel_word(rel: Rel) -> &'static [u8]
    ensures { result.now ≡ words.rel_word rel }
{
    match rel {
        Rel::Equal => b"EQ",
        Rel::NotEqual => b"NE",
        Rel::Less => b"LT",
        Rel::LessEqual => b"LE",
        Rel::Greater => b"GT",
        Rel::GreaterEqual => b"GE",
        Rel::Below => b"ULT",
        Rel::NotBelow => b"UGE",
    }
}

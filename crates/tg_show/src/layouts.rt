ghost use Rattle.std.specs.Prelude.{◌≡◌, ◌<◌, ◌≤◌, ◌+◌, ◌^◌, ◌++◌, OnOk};
ghost use Rattle.tg_show.specs.Layout as layout;
ghost use Rattle.tg_show.specs.Layout.{
  blanks,
  capped,
  deeper,
  ends_at,
  kept,
  laid,
  mode_of,
  new_line,
  next_depth,
  next_mode,
  written,
};

use crate::modes::Mode;
use tg_base::Memory;

/// The most bytes of a part that stands on one line.
pub const WIDTH: usize = 72;

/// The most levels by which a line is indented.
const MOST_LEVELS: usize = 32;

/// Puts a nested text at the end, on lines that are indented by two blanks a level, and by at most
/// 64: a part of at most 72 bytes stands on one line, and of a longer one each part begins a line,
/// a level deeper.
pub fn put_laid(text: &mut Vec<u8>, margin: u8, line: &[u8]) -> Result<(), Memory>
    ensures { OnOk result (text.new.items ≡ text.old.items ++ laid margin line.now) }
{
    let mut depth = margin as usize;
    let mut mode = mode_of(line);
    put_blanks(text, capped(depth))?;
    for at in 0..line.len() {
        let byte = line[at];
        put_byte(text, depth, mode, byte)?;
        depth = next_depth(depth, mode, byte);
        mode = next_mode(mode, byte, &line[at + 1..]);
    }
    text.push(b'\n')?;
    Ok(())
}

/// Puts what stands for a byte at the end.
fn put_byte(text: &mut Vec<u8>, depth: usize, mode: Mode, byte: u8) -> Result<(), Memory>
    requires { depth + 1 < 2 ^ 64 }
    ensures { OnOk result (text.new.items ≡ text.old.items ++ written depth mode byte) }
{
    match mode {
        Mode::Kept(_) => {
            text.push(byte)?;
            Ok(())
        }
        Mode::Between => put_new_line(text, depth),
        Mode::Broken => put_broken(text, depth, byte),
    }
}

/// Puts a byte of a part that takes more than a line.
fn put_broken(text: &mut Vec<u8>, depth: usize, byte: u8) -> Result<(), Memory>
    requires { depth + 1 < 2 ^ 64 }
    ensures { OnOk result (text.new.items
        ≡ text.old.items ++ written depth Mode.Broken byte) }
{
    text.push(byte)?;
    if byte == b'(' {
        return put_new_line(text, depth + 1);
    }
    Ok(())
}

/// Ends a line, and indents the next one.
fn put_new_line(text: &mut Vec<u8>, depth: usize) -> Result<(), Memory>
    ensures { OnOk result (text.new.items ≡ text.old.items ++ new_line depth) }
{
    text.push(b'\n')?;
    put_blanks(text, capped(depth))
}

/// The levels by which a line is indented.
fn capped(depth: usize) -> usize
    ensures { result ≡ capped depth }
{
    if depth > MOST_LEVELS {
        MOST_LEVELS
    } else {
        depth
    }
}

/// Puts an indentation of so many levels at the end.
pub fn put_blanks(text: &mut Vec<u8>, depth: usize) -> Result<(), Memory>
    ensures { OnOk result (text.new.items ≡ text.old.items ++ blanks depth) }
{
    for level in 0..depth {
        text.extend_from_slice(b"  ")?;
    }
    Ok(())
}

fn next_depth(depth: usize, mode: Mode, byte: u8) -> usize
    requires { depth + 1 < 2 ^ 64 }
    ensures depth { result ≡ next_depth depth mode byte }
    ensures step { result ≤ depth + 1 }
{
    match mode {
        Mode::Broken => deeper(depth, byte),
        _ => depth,
    }
}

fn next_mode(mode: Mode, byte: u8, rest: &[u8]) -> Mode
    ensures { result ≡ next_mode mode byte rest.now }
{
    match mode {
        Mode::Kept(count) => kept(count.saturating_sub(1)),
        Mode::Between => mode_of(rest),
        Mode::Broken => after_broken(byte, rest),
    }
}

fn after_broken(byte: u8, rest: &[u8]) -> Mode
    ensures { result ≡ layout.after_broken byte rest.now }
{
    if byte == b'(' {
        mode_of(rest)
    } else if byte == b',' {
        Mode::Between
    } else {
        Mode::Broken
    }
}

/// How the part in front of a text is laid. At most 73 bytes are read.
fn mode_of(text: &[u8]) -> Mode
    ensures { result ≡ mode_of text.now }
{
    let mut inner: usize = 0;
    for at in 0..text.len() {
        let byte = text[at];
        if ends_at(inner, byte) {
            return kept(at);
        }
        if at == WIDTH {
            return Mode::Broken;
        }
        inner = deeper(inner, byte);
    }
    kept(text.len())
}

fn kept(count: usize) -> Mode
    ensures { result ≡ kept count }
{
    if count == 0 {
        Mode::Broken
    } else {
        Mode::Kept(count)
    }
}

fn ends_at(inner: usize, byte: u8) -> bool
    ensures { result ≡ ends_at inner byte }
{
    inner == 0 && (byte == b')' || byte == b',')
}

fn deeper(count: usize, byte: u8) -> usize
    requires { count + 1 < 2 ^ 64 }
    ensures depth { result ≡ deeper count byte }
    ensures step { result ≤ count + 1 }
{
    if byte == b'(' {
        count + 1
    } else if byte == b')' {
        count.saturating_sub(1)
    } else {
        count
    }
}

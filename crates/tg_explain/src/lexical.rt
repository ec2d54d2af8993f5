ghost use Rattle.std.specs.Prelude.{◌≡◌, ◌≤◌, ◌++◌, OnOk, IfOk, codes, drop, length, map};
ghost use Rattle.std.specs.List.{prefix_len};
ghost use Rattle.tg_syntax.specs.Spellings.{is_digit as is_plain_digit, is_white_space};
ghost use Rattle.tg_explain.specs.Words as words;
ghost use Rattle.tg_explain.specs.Lines as lines;
ghost use Rattle.tg_explain.specs.Lexical as lexical;

use crate::lines::{place_in, put_open};
use crate::putting::{put, put_line, put_number, put_quoted};
use std::alloc::Global;
use tg_base::Memory;
use tg_syntax::LexRule;

/// The lines that explain a lexical fault at a byte of a text: the byte, the escape or the digits
/// that were found, and what is still open. The only error is out of memory.
pub fn lexical_lines(alloc: Global, text: &[u8], rule: LexRule, at: u32) -> Result<Vec<u8>, Memory>
    requires { length text.now ≤ 262144 }
    ensures { IfOk result (λ all. all.items ≡ lexical.lexical_lines text.now rule at) }
{
    let mut all = Vec::new(alloc);
    let rest = rest_from(text, at as usize);
    match rule {
        LexRule::L1 | LexRule::L6 => put_byte_line(alloc, &mut all, rest)?,
        LexRule::L2 => put_open(alloc, &mut all, b"/*", place_in(text, at))?,
        LexRule::L3 => put_open(alloc, &mut all, b"\"", place_in(text, at))?,
        LexRule::L4 => put_escape_line(alloc, &mut all, rest)?,
        LexRule::L5 => {
            put_digits_line(alloc, &mut all, rest)?;
            put_line(&mut all, b"expected at most 2147483647")?;
        }
        LexRule::L7 => put_line(&mut all, b"expected at most 262144 bytes")?,
    }
    Ok(all)
}

/// A text from a byte on.
fn rest_from(text: &[u8], at: usize) -> &[u8]
    ensures { result.now ≡ drop at text.now }
{
    if at <= text.len() { &text[at..] } else { &[] }
}

fn put_byte_line(alloc: Global, out: &mut Vec<u8>, text: &[u8]) -> Result<(), Memory>
    ensures { OnOk result (out.new.items ≡ out.old.items ++ lexical.byte_line text.now) }
{
    match text {
        [] => Ok(()),
        [byte, ..] => {
            let mut line = Vec::new(alloc);
            put(&mut line, b"found ")?;
            put_byte(&mut line, *byte)?;
            put_line(out, &line)
        }
    }
}

fn put_byte(line: &mut Vec<u8>, byte: u8) -> Result<(), Memory>
    ensures { OnOk result (line.new.items ≡ line.old.items ++ lexical.byte_text byte) }
{
    if byte >= 33 && byte <= 126 {
        put_quoted(line, &[byte])
    } else {
        put(line, b"byte ")?;
        put_number(line, u32::from(byte))
    }
}

fn put_escape_line(alloc: Global, out: &mut Vec<u8>, text: &[u8]) -> Result<(), Memory>
    ensures { OnOk result (out.new.items ≡ out.old.items
        ++ lines.line_of (codes "found "
        ++ words.quoted (map lexical.shown_byte (lexical.bad_escape text.now)))) }
{
    let mut line = Vec::new(alloc);
    put(&mut line, b"found '")?;
    put_shown(&mut line, bad_escape(text))?;
    put(&mut line, b"'")?;
    put_line(out, &line)
}

fn put_shown(line: &mut Vec<u8>, bytes: &[u8]) -> Result<(), Memory>
    ensures { OnOk result (line.new.items ≡ line.old.items ++ map lexical.shown_byte bytes.now) }
{
    for byte in bytes {
        line.push(shown_byte(*byte))?;
    }
    Ok(())
}

fn shown_byte(byte: u8) -> u8
    ensures { result ≡ lexical.shown_byte byte }
{
    if byte >= 32 && byte <= 126 {
        byte
    } else {
        b'?'
    }
}

/// The bad escape with which a text begins.
fn bad_escape(text: &[u8]) -> &[u8]
    ensures { result.now ≡ lexical.bad_escape text.now }
{
    let length = begun_length(rest_from(text, 1)).saturating_add(2);
    if length <= text.len() {
        &text[..length]
    } else {
        text
    }
}

fn begun_length(text: &[u8]) -> usize
    ensures within { result ≤ length text.now }
    ensures value { result ≡ lexical.begun_length text.now }
{
    match text {
        [] => 0,
        [b'^', ..] => 1,
        [byte, ..] => {
            if is_digit(*byte) {
                digits_length(text).min(2)
            } else {
                blanks_length(text)
            }
        }
    }
}

fn put_digits_line(alloc: Global, out: &mut Vec<u8>, text: &[u8]) -> Result<(), Memory>
    ensures { OnOk result (out.new.items ≡ out.old.items
        ++ lines.line_of (codes "found " ++ lexical.digits text.now)) }
{
    let mut line = Vec::new(alloc);
    put(&mut line, b"found ")?;
    put(&mut line, &text[..digits_length(text)])?;
    put_line(out, &line)
}

fn is_digit(byte: u8) -> bool
    ensures { result ≡ is_plain_digit byte }
{
    byte >= b'0' && byte <= b'9'
}

fn is_blank(byte: u8) -> bool
    ensures { result ≡ is_white_space byte }
{
    byte == 9 || byte == 10 || byte == 12 || byte == 13 || byte == 32
}

/// How many digits a text begins with.
fn digits_length(text: &[u8]) -> usize
    ensures within { result ≤ length text.now }
    ensures value { result ≡ prefix_len is_plain_digit text.now }
{
    for (length, byte) in text.iter().enumerate() {
        if !is_digit(*byte) {
            return length;
        }
    }
    text.len()
}

/// How many blanks a text begins with.
fn blanks_length(text: &[u8]) -> usize
    ensures within { result ≤ length text.now }
    ensures value { result ≡ prefix_len is_white_space text.now }
{
    for (length, byte) in text.iter().enumerate() {
        if !is_blank(*byte) {
            return length;
        }
    }
    text.len()
}

ghost use Rattle.std.specs.Prelude.{◌≡◌, ◌++◌, ◌-◌, ◌==◌, OnOk, length, not};
ghost use Rattle.std.specs.List.{suffix_len};
ghost use Rattle.std.specs.Fmt.{decimal};
ghost use Rattle.tg_explain.specs.Words as words;
ghost use Rattle.tg_explain.specs.Lines as lines;

use crate::kinds::TokenKind;
use crate::words::{sign_text, word_text};
use itoa::Buffer;
use tg_base::{Memory, Place};

/// The most bytes that a line's text may have.
const MOST: usize = 400;

/// Puts bytes at the end.
pub fn put(out: &mut Vec<u8>, bytes: &[u8]) -> Result<(), Memory>
    ensures { OnOk result (out.new.items ≡ out.old.items ++ bytes.now) }
{
    out.extend_from_slice(bytes)?;
    Ok(())
}

/// Puts bytes in quotation marks at the end.
pub fn put_quoted(out: &mut Vec<u8>, bytes: &[u8]) -> Result<(), Memory>
    ensures { OnOk result (out.new.items ≡ out.old.items ++ words.quoted bytes.now) }
{
    put(out, b"'")?;
    put(out, bytes)?;
    put(out, b"'")
}

/// Puts a number's decimal digits at the end.
pub fn put_number(out: &mut Vec<u8>, number: u32) -> Result<(), Memory>
    ensures { OnOk result (out.new.items ≡ out.old.items ++ decimal number) }
{
    let mut digits = Buffer::new();
    put(out, digits.format(number).as_bytes())
}

/// Puts a count's decimal digits at the end.
pub fn put_count(out: &mut Vec<u8>, count: usize) -> Result<(), Memory>
    ensures { OnOk result (out.new.items ≡ out.old.items ++ decimal count) }
{
    let mut digits = Buffer::new();
    put(out, digits.format(count).as_bytes())
}

/// Puts a place at the end: its line, a colon and its column.
pub fn put_place(out: &mut Vec<u8>, place: Place) -> Result<(), Memory>
    ensures { OnOk result (out.new.items ≡ out.old.items ++ lines.place_text place) }
{
    put_number(out, place.line)?;
    put(out, b":")?;
    put_number(out, place.column)
}

/// Puts what a kind of tokens is called at the end.
pub(crate) fn put_kind(out: &mut Vec<u8>, kind: TokenKind) -> Result<(), Memory>
    ensures { OnOk result (out.new.items ≡ out.old.items ++ words.kind_text kind) }
{
    match kind {
        TokenKind::Word(word) => put_quoted(out, word_text(word)),
        TokenKind::Sign(sign) => put_quoted(out, sign_text(sign)),
        TokenKind::Ident => put(out, b"identifier"),
        TokenKind::Int => put(out, b"integer"),
        TokenKind::Text => put(out, b"string"),
        TokenKind::End => put(out, b"end of text"),
    }
}

/// Puts the line of a text at the end. A text of more than 400 bytes is cut behind a whole word.
pub fn put_line(out: &mut Vec<u8>, text: &[u8]) -> Result<(), Memory>
    ensures { OnOk result (out.new.items ≡ out.old.items ++ lines.line_of text.now) }
{
    put(out, b"tiger:   ")?;
    put_cut(out, text)?;
    put(out, b"\n")
}

fn put_cut(out: &mut Vec<u8>, text: &[u8]) -> Result<(), Memory>
    ensures { OnOk result (out.new.items ≡ out.old.items ++ lines.cut text.now) }
{
    if text.len() <= MOST {
        return put(out, text);
    }
    let front = &text[..MOST + 1];
    put(out, &front[..words_length(front)])?;
    put(out, b" ..")
}

/// The length of what stands before the last blank of a text, or 0 where it has none.
fn words_length(text: &[u8]) -> usize
    ensures { result ≡ length text.now - suffix_len (λ b. not (b == 32)) text.now - 1 }
{
    let mut end = 0;
    for (at, byte) in text.iter().enumerate() {
        if *byte == b' ' {
            end = at;
        }
    }
    end
}

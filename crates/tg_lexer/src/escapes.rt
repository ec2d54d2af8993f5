ghost use Rattle.std.specs.Prelude.{◌≡◌, ◌||◌, [], ◌∷◌, IsTrue, Some, slice_get};
ghost use Rattle.std.specs.Str.Parse.{digits_value};
ghost use Rattle.tg_syntax.specs.Spellings.{is_white_space as blank, is_digit as digit, is_between};
ghost use Rattle.tg_lexer.specs.glue.Lexemes.{IsEscape, IsMisfit};

use crate::bytes::{Class, byte_at, count_run, is_blank, is_digit};

/// What stands after a backslash.
#[derive(Clone, Copy)]
pub(crate) enum Escaped {
    /// An escape of so many bytes that means a byte.
    Byte(u8, usize),
    /// An escape of so many bytes that means nothing.
    Nothing(usize),
    /// The end or a newline, where the escape goes on.
    Cut,
    /// No escape.
    Bad,
}

// What a byte makes of an escape that doesn't go on with it.
fn misfit(byte: u8) -> Escaped
    ensures { IsMisfit byte result }
{
    if byte == b'\n' {
        Escaped::Cut
    } else {
        Escaped::Bad
    }
}

// A byte from `@` to `_` or from `a` to `z`.
fn is_control_name(byte: u8) -> bool
    ensures { result ≡ (is_between 64 95 byte || is_between 97 122 byte) }
{
    b'@' <= byte && byte <= b'_' || b'a' <= byte && byte <= b'z'
}

// An escape that begins with a caret.
fn control(text: &[u8]) -> Escaped
    requires { slice_get text.now 0 ≡ Some 94 }
    ensures { IsEscape text.now result }
{
    let Some(byte) = byte_at(text, 1) else {
        return Escaped::Cut;
    };
    if is_control_name(byte) {
        return Escaped::Byte(byte % 32, 2);
    }
    misfit(byte)
}

// The number that three digits stand for.
fn number(a: u8, b: u8, c: u8) -> u32
    requires first { IsTrue (digit a) }
    requires second { IsTrue (digit b) }
    requires third { IsTrue (digit c) }
    ensures { result ≡ digits_value 10 (a ∷ b ∷ c ∷ []) }
{
    let tens = 10 * (a - b'0') as u32 + (b - b'0') as u32;
    10 * tens + (c - b'0') as u32
}

// An escape that begins with a digit.
fn decimal(first: u8, text: &[u8]) -> Escaped
    requires is_first { slice_get text.now 0 ≡ Some first }
    requires is_digit { IsTrue (digit first) }
    ensures { IsEscape text.now result }
{
    let Some(second) = byte_at(text, 1) else {
        return Escaped::Cut;
    };
    if !is_digit(second) {
        return misfit(second);
    }
    let Some(third) = byte_at(text, 2) else {
        return Escaped::Cut;
    };
    if !is_digit(third) {
        return misfit(third);
    }
    let value = number(first, second, third);
    if value > 255 {
        return Escaped::Bad;
    }
    Escaped::Byte(value as u8, 3)
}

// An escape that begins with a blank.
fn gap(first: u8, text: &[u8]) -> Escaped
    requires is_first { slice_get text.now 0 ≡ Some first }
    requires is_blank { IsTrue (blank first) }
    ensures { IsEscape text.now result }
{
    let size = count_run(Class::Blank, text);
    let Some(byte) = byte_at(text, size) else {
        return Escaped::Cut;
    };
    if byte == b'\\' {
        Escaped::Nothing(size + 1)
    } else {
        Escaped::Bad
    }
}

// What a text begins with after a backslash.
pub(crate) fn escape(text: &[u8]) -> Escaped
    ensures { IsEscape text.now result }
{
    let Some(first) = byte_at(text, 0) else {
        return Escaped::Cut;
    };
    match first {
        b'n' => Escaped::Byte(b'\n', 1),
        b't' => Escaped::Byte(b'\t', 1),
        b'"' => Escaped::Byte(b'"', 1),
        b'\\' => Escaped::Byte(b'\\', 1),
        b'^' => control(text),
        byte if is_digit(byte) => decimal(byte, text),
        byte if is_blank(byte) => gap(byte, text),
        _ => Escaped::Bad,
    }
}

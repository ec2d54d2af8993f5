ghost use Rattle.std.specs.Prelude.{◌≡◌, slice_get};
ghost use Rattle.tg_syntax.specs.Spellings.{
  is_white_space as blank,
  is_digit as digit,
  is_letter as letter,
  is_name_byte as name_byte,
};
ghost use Rattle.tg_lexer.specs.glue.Lexemes.{IsStretch, in_class};

// A tab, a newline, a form feed, a carriage return or a space.
pub(crate) fn is_blank(byte: u8) -> bool
    ensures { result ≡ blank byte }
{
    byte == b'\t' || byte == b'\n' || byte == 12 || byte == b'\r' || byte == b' '
}

pub(crate) fn is_digit(byte: u8) -> bool
    ensures { result ≡ digit byte }
{
    b'0' <= byte && byte <= b'9'
}

pub(crate) fn is_letter(byte: u8) -> bool
    ensures { result ≡ letter byte }
{
    b'A' <= byte && byte <= b'Z' || b'a' <= byte && byte <= b'z'
}

fn is_name_byte(byte: u8) -> bool
    ensures { result ≡ name_byte byte }
{
    is_letter(byte) || is_digit(byte) || byte == b'_'
}

// The byte at a place, if there is one.
pub(crate) fn byte_at(text: &[u8], at: usize) -> Option<u8>
    ensures { result ≡ slice_get text.now at }
{
    text.get(at).copied()
}

// A class of bytes that stand one after another.
#[derive(Clone, Copy)]
pub(crate) enum Class {
    Blank,
    Digit,
    // A letter, a digit or an underscore.
    NameByte,
}

fn is_in(class: Class, byte: u8) -> bool
    ensures { result ≡ in_class class byte }
{
    match class {
        Class::Blank => is_blank(byte),
        Class::Digit => is_digit(byte),
        Class::NameByte => is_name_byte(byte),
    }
}

// How many bytes of a class a text begins with.
pub(crate) fn count_run(class: Class, text: &[u8]) -> usize
    ensures { IsStretch (in_class class) text.now result }
{
    for (size, byte) in text.iter().enumerate() {
        if !is_in(class, *byte) {
            return size;
        }
    }
    text.len()
}

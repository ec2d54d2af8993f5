ghost use Rattle.std.specs.Prelude.{◌≡◌, ◌<◌, IfSome, MatchOption, ◌∷◌, [], length};
ghost use Rattle.tg_asm_text.specs.Lines as lines;
ghost use Rattle.tg_asm_text.specs.Lines.{front, back};
ghost use Rattle.tg_asm.specs.glue.Classes.{in_class};

/// A class of bytes at which a text is split.
#[derive(Clone, Copy)]
pub(crate) enum Class {
    /// What ends a line.
    Newline,
    /// What is no blank.
    Solid,
    /// What ends an item's word or an operand.
    End,
    /// What can't go on a label.
    PastLabel,
    /// `(`.
    Open,
    /// `)`.
    Close,
}

pub(crate) fn is_blank(byte: u8) -> bool
    ensures { result ≡ lines.is_blank byte }
{
    byte == b' ' || byte == b'\t' || byte == b'\r'
}

fn is_end(byte: u8) -> bool
    ensures { result ≡ lines.is_end byte }
{
    is_blank(byte) || byte == b',' || byte == b'"' || byte == b'#'
}

pub(crate) fn begins_label(byte: u8) -> bool
    ensures { result ≡ lines.begins_label byte }
{
    b'A' <= byte && byte <= b'Z' || b'a' <= byte && byte <= b'z' || byte == b'_'
}

pub(crate) fn is_in_label(byte: u8) -> bool
    ensures { result ≡ lines.is_in_label byte }
{
    begins_label(byte) || b'0' <= byte && byte <= b'9' || byte == b'.'
}

fn is_in(class: Class, byte: u8) -> bool
    ensures { result ≡ in_class class byte }
{
    match class {
        Class::Newline => byte == b'\n',
        Class::Solid => !is_blank(byte),
        Class::End => is_end(byte),
        Class::PastLabel => !is_in_label(byte),
        Class::Open => byte == b'(',
        Class::Close => byte == b')',
    }
}

/// A text before and from its first byte of a class.

pub(crate) fn split(text: &[u8], class: Class) -> (&[u8], &[u8])
    ensures front { result.0.now ≡ front (in_class class) text.now }
    ensures back { result.1.now ≡ back (in_class class) text.now }
{
    let mut at = 0;
    while at < text.len() {
        if is_in(class, text[at]) {
            return text.split_at(at);
        }
        at += 1;
    }
    text.split_at(at)
}

/// A text without the blanks in front.
pub(crate) fn skip(text: &[u8]) -> &[u8]
    ensures { result.now ≡ lines.skip text.now }
{
    split(text, Class::Solid).1
}

/// The first line of a text, and the text after its newline, if it has one.

pub(crate) fn split_line(text: &[u8]) -> (&[u8], Option<&[u8]>)
    ensures lines { MatchOption result.1 (lines.lines text.now ≡ result.0.now ∷ [])
        (λ more. lines.lines text.now ≡ result.0.now ∷ lines.lines more.now) }
    ensures shorter { IfSome result.1 (λ more. length more.now < length text.now) }
{
    let (line, rest) = split(text, Class::Newline);
    match rest.split_first() {
        Some((_, more)) => (line, Some(more)),
        None => (line, None),
    }
}

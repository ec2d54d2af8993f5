ghost use Rattle.std.specs.Prelude.{[], ◌∷◌};
ghost use Rattle.tg_lexer.specs.glue.Lexemes.{FoundSign, IsSign};

use crate::bytes::byte_at;
use tg_syntax::Sign;

// The sign of two bytes.
fn pair(first: u8, second: u8) -> Option<Sign>
    ensures { IsSign (first ∷ second ∷ []) result }
{
    match (first, second) {
        (b'<', b'>') => Some(Sign::NotEqual),
        (b'<', b'=') => Some(Sign::LessEqual),
        (b'>', b'=') => Some(Sign::GreaterEqual),
        (b':', b'=') => Some(Sign::Assign),
        _ => None,
    }
}

// The sign of one byte.
fn single(byte: u8) -> Option<Sign>
    ensures { IsSign (byte ∷ []) result }
{
    match byte {
        b',' => Some(Sign::Comma),
        b':' => Some(Sign::Colon),
        b';' => Some(Sign::Semicolon),
        b'(' => Some(Sign::LeftParen),
        b')' => Some(Sign::RightParen),
        b'[' => Some(Sign::LeftBracket),
        b']' => Some(Sign::RightBracket),
        b'{' => Some(Sign::LeftBrace),
        b'}' => Some(Sign::RightBrace),
        b'.' => Some(Sign::Dot),
        b'+' => Some(Sign::Plus),
        b'-' => Some(Sign::Minus),
        b'*' => Some(Sign::Times),
        b'/' => Some(Sign::Divide),
        b'=' => Some(Sign::Equal),
        b'<' => Some(Sign::Less),
        b'>' => Some(Sign::Greater),
        b'&' => Some(Sign::And),
        b'|' => Some(Sign::Or),
        _ => None,
    }
}

// The longest sign that a text begins with, and the number of its bytes.
pub(crate) fn sign(text: &[u8]) -> Option<(Sign, usize)>
    ensures { FoundSign text.now result }
{
    let Some(first) = byte_at(text, 0) else {
        return None;
    };
    if let Some(second) = byte_at(text, 1) {
        if let Some(sign) = pair(first, second) {
            return Some((sign, 2));
        }
    }
    match single(first) {
        Some(sign) => Some((sign, 1)),
        None => None,
    }
}

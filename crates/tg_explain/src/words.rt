ghost use Rattle.std.specs.Prelude.{◌≡◌};
ghost use Rattle.tg_syntax.specs.Spellings as spelled;
ghost use Rattle.tg_explain.specs.Words as words;

use crate::openers::Opener;
use tg_syntax::{Sign, Word};

/// How a reserved word is written.
pub(crate) fn word_text(word: Word) -> &'static [u8]
    ensures { result.now ≡ spelled.word_text word }
{
    match word {
        Word::WArray => b"array",
        Word::WBreak => b"break",
        Word::WDo => b"do",
        Word::WElse => b"else",
        Word::WEnd => b"end",
        Word::WFor => b"for",
        Word::WFunction => b"function",
        Word::WIf => b"if",
        Word::WIn => b"in",
        Word::WLet => b"let",
        Word::WNil => b"nil",
        Word::WOf => b"of",
        Word::WThen => b"then",
        Word::WTo => b"to",
        Word::WType => b"type",
        Word::WVar => b"var",
        Word::WWhile => b"while",
    }
}

/// How a sign is written.
pub(crate) fn sign_text(sign: Sign) -> &'static [u8]
    ensures { result.now ≡ spelled.sign_text sign }
{
    match sign {
        Sign::Comma => b",",
        Sign::Colon => b":",
        Sign::Semicolon => b";",
        Sign::LeftParen => b"(",
        Sign::RightParen => b")",
        Sign::LeftBracket => b"[",
        Sign::RightBracket => b"]",
        Sign::LeftBrace => b"{",
        Sign::RightBrace => b"}",
        Sign::Dot => b".",
        Sign::Plus => b"+",
        Sign::Minus => b"-",
        Sign::Times => b"*",
        Sign::Divide => b"/",
        Sign::Equal => b"=",
        Sign::NotEqual => b"<>",
        Sign::Less => b"<",
        Sign::LessEqual => b"<=",
        Sign::Greater => b">",
        Sign::GreaterEqual => b">=",
        Sign::And => b"&",
        Sign::Or => b"|",
        Sign::Assign => b":=",
    }
}

/// How an opener is written.
pub(crate) fn opener_text(opener: Opener) -> &'static [u8]
    ensures { result.now ≡ words.opener_text opener }
{
    match opener {
        Opener::Paren => b"(",
        Opener::Bracket => b"[",
        Opener::Brace => b"{",
        Opener::Let => b"let",
        Opener::If => b"if",
        Opener::While => b"while",
        Opener::For => b"for",
    }
}

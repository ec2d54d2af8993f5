ghost use Rattle.std.specs.Prelude.{◌≡◌, ◌++◌, OnOk};
ghost use Rattle.std.specs.Fmt.{decimal};
ghost use Rattle.tg_syntax.specs.Spellings as spelled;
ghost use Rattle.tg_formatter.specs.Canonical as canonical;
ghost use Rattle.tg_formatter.specs.glue.Reached.{IsNamed};

use crate::strings::put_string;
use itoa::Buffer;
use tg_base::{Memory, Names};
use tg_syntax::{Sign, Token, Word};

/// Puts a token at the end, as it is written.
pub(crate) fn put_spelling(text: &mut Vec<u8>, names: &Names, one: &Token) -> Result<(), Memory>
    requires { IsNamed names.now one.now }
    ensures { OnOk result (text.new.items
        ≡ text.old.items ++ canonical.spelling names.now one.now) }
{
    match one {
        Token::Word(word) => text.extend_from_slice(word_text(*word))?,
        Token::Sign(sign) => text.extend_from_slice(sign_text(*sign))?,
        Token::Ident(name) => text.extend_from_slice(names.text(*name).as_bytes())?,
        Token::Int(number) => put_decimal(text, *number)?,
        Token::Text(bytes) => put_string(text, bytes.as_slice())?,
        Token::End => {}
    }
    Ok(())
}

/// Puts a number's decimal digits at the end.
fn put_decimal(text: &mut Vec<u8>, number: u32) -> Result<(), Memory>
    ensures { OnOk result (text.new.items ≡ text.old.items ++ decimal number) }
{
    let mut digits = Buffer::new();
    text.extend_from_slice(digits.format(number).as_bytes())?;
    Ok(())
}

/// The text of a reserved word.
fn word_text(word: Word) -> &'static [u8]
    ensures { result.now ≡ spelled.word_text word }
{
    match word {
        Word::WArray => b"array",
        Word::WBreak => b"break",
        Word::WDo => b"do",
        Word::WElse => b"else",
        Word::WEnd => b"end",
        Word::WFor => b"for",
        Word::WFunction => b"function",
        Word::WIf => b"if",
        Word::WIn => b"in",
        Word::WLet => b"let",
        Word::WNil => b"nil",
        Word::WOf => b"of",
        Word::WThen => b"then",
        Word::WTo => b"to",
        Word::WType => b"type",
        Word::WVar => b"var",
        Word::WWhile => b"while",
    }
}

/// The text of a punctuation sign.
fn sign_text(sign: Sign) -> &'static [u8]
    ensures { result.now ≡ spelled.sign_text sign }
{
    match sign {
        Sign::Comma => b",",
        Sign::Colon => b":",
        Sign::Semicolon => b";",
        Sign::LeftParen => b"(",
        Sign::RightParen => b")",
        Sign::LeftBracket => b"[",
        Sign::RightBracket => b"]",
        Sign::LeftBrace => b"{",
        Sign::RightBrace => b"}",
        Sign::Dot => b".",
        Sign::Plus => b"+",
        Sign::Minus => b"-",
        Sign::Times => b"*",
        Sign::Divide => b"/",
        Sign::Equal => b"=",
        Sign::NotEqual => b"<>",
        Sign::Less => b"<",
        Sign::LessEqual => b"<=",
        Sign::Greater => b">",
        Sign::GreaterEqual => b">=",
        Sign::And => b"&",
        Sign::Or => b"|",
        Sign::Assign => b":=",
    }
}

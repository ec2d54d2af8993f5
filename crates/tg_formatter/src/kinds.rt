ghost use Rattle.std.specs.Prelude.{◌≡◌};
ghost use Rattle.tg_formatter.specs.Canonical as canonical;

use tg_syntax::{Sign, Token, Word};

/// A line begins with the token.
pub(crate) fn begins_line(one: &Token) -> bool
    ensures { result ≡ canonical.begins_line one.now }
{
    match one {
        Token::Word(word) => matches!(
            word,
            Word::WType | Word::WVar | Word::WFunction | Word::WIn | Word::WEnd
        ),
        _ => false,
    }
}

/// A line begins after the token.
pub(crate) fn ends_line(one: &Token) -> bool
    ensures { result ≡ canonical.ends_line one.now }
{
    match one {
        Token::Word(word) => matches!(word, Word::WIn),
        Token::Sign(sign) => matches!(sign, Sign::Semicolon),
        _ => false,
    }
}

/// Nothing stands before the token.
pub(crate) fn is_close_before(one: &Token) -> bool
    ensures { result ≡ canonical.is_close_before one.now }
{
    match one {
        Token::Sign(sign) => matches!(
            sign,
            Sign::RightParen
                | Sign::RightBracket
                | Sign::RightBrace
                | Sign::Comma
                | Sign::Semicolon
                | Sign::Colon
                | Sign::Dot
        ),
        _ => false,
    }
}

/// Nothing stands after the token.
pub(crate) fn is_close_behind(one: &Token) -> bool
    ensures { result ≡ canonical.is_close_behind one.now }
{
    match one {
        Token::Sign(sign) => matches!(
            sign,
            Sign::LeftParen | Sign::LeftBracket | Sign::LeftBrace | Sign::Dot
        ),
        _ => false,
    }
}

/// The token opens a bracket.
pub(crate) fn is_bracket(one: &Token) -> bool
    ensures { result ≡ canonical.is_bracket one.now }
{
    match one {
        Token::Sign(sign) => matches!(sign, Sign::LeftParen | Sign::LeftBracket | Sign::LeftBrace),
        _ => false,
    }
}

/// What stands in brackets after the token belongs to it.
pub(crate) fn takes_bracket(one: &Token) -> bool
    ensures { result ≡ canonical.takes_bracket one.now }
{
    match one {
        Token::Ident(_) => true,
        Token::Sign(sign) => matches!(sign, Sign::RightBracket),
        _ => false,
    }
}

/// The token is a minus.
pub(crate) fn is_minus(one: &Token) -> bool
    ensures { result ≡ canonical.is_minus one.now }
{
    match one {
        Token::Sign(sign) => matches!(sign, Sign::Minus),
        _ => false,
    }
}

/// An operand ends with the token.
pub(crate) fn ends_operand(one: &Token) -> bool
    ensures { result ≡ canonical.ends_operand one.now }
{
    match one {
        Token::Ident(_) | Token::Int(_) | Token::Text(_) => true,
        Token::Word(word) => matches!(word, Word::WNil | Word::WBreak | Word::WEnd),
        Token::Sign(sign) => matches!(
            sign,
            Sign::RightParen | Sign::RightBracket | Sign::RightBrace
        ),
        Token::End => false,
    }
}

/// Lines begin further in while the token is open.
pub(crate) fn opens(one: &Token) -> bool
    ensures { result ≡ canonical.opens one.now }
{
    match one {
        Token::Word(word) => matches!(word, Word::WLet),
        _ => is_bracket(one),
    }
}

/// The token closes what was open.
pub(crate) fn closes(one: &Token) -> bool
    ensures { result ≡ canonical.closes one.now }
{
    match one {
        Token::Word(word) => matches!(word, Word::WEnd),
        Token::Sign(sign) => matches!(
            sign,
            Sign::RightParen | Sign::RightBracket | Sign::RightBrace
        ),
        _ => false,
    }
}

/// Before the token its own `let` isn't counted.
pub(crate) fn is_in_or_end(one: &Token) -> bool
    ensures { result ≡ canonical.is_in_or_end one.now }
{
    match one {
        Token::Word(word) => matches!(word, Word::WIn | Word::WEnd),
        _ => false,
    }
}

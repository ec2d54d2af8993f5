ghost use Rattle.std.specs.Prelude.{◌≡◌};
ghost use Rattle.tg_explain.specs.Kinds.{kind_of as plain_kind_of, sample as plain_sample};

use std::alloc::Global;
use tg_base::{ListOf, Name, Span};
use tg_syntax::{Sign, Spanned, Token, Word};

/// A kind of tokens: each reserved word and each sign is one, and all identifiers, all ints, all
/// strings and the end are one each.
#[derive(Clone, Copy)]
pub enum TokenKind {
    Word(Word),
    Sign(Sign),
    Ident,
    Int,
    Text,
    End,
}

/// All kinds: the reserved words, the signs, and then the others.
pub(crate) static TABLE: [TokenKind; 44] = [
    TokenKind::Word(Word::WArray),
    TokenKind::Word(Word::WBreak),
    TokenKind::Word(Word::WDo),
    TokenKind::Word(Word::WElse),
    TokenKind::Word(Word::WEnd),
    TokenKind::Word(Word::WFor),
    TokenKind::Word(Word::WFunction),
    TokenKind::Word(Word::WIf),
    TokenKind::Word(Word::WIn),
    TokenKind::Word(Word::WLet),
    TokenKind::Word(Word::WNil),
    TokenKind::Word(Word::WOf),
    TokenKind::Word(Word::WThen),
    TokenKind::Word(Word::WTo),
    TokenKind::Word(Word::WType),
    TokenKind::Word(Word::WVar),
    TokenKind::Word(Word::WWhile),
    TokenKind::Sign(Sign::Comma),
    TokenKind::Sign(Sign::Colon),
    TokenKind::Sign(Sign::Semicolon),
    TokenKind::Sign(Sign::LeftParen),
    TokenKind::Sign(Sign::RightParen),
    TokenKind::Sign(Sign::LeftBracket),
    TokenKind::Sign(Sign::RightBracket),
    TokenKind::Sign(Sign::LeftBrace),
    TokenKind::Sign(Sign::RightBrace),
    TokenKind::Sign(Sign::Dot),
    TokenKind::Sign(Sign::Plus),
    TokenKind::Sign(Sign::Minus),
    TokenKind::Sign(Sign::Times),
    TokenKind::Sign(Sign::Divide),
    TokenKind::Sign(Sign::Equal),
    TokenKind::Sign(Sign::NotEqual),
    TokenKind::Sign(Sign::Less),
    TokenKind::Sign(Sign::LessEqual),
    TokenKind::Sign(Sign::Greater),
    TokenKind::Sign(Sign::GreaterEqual),
    TokenKind::Sign(Sign::And),
    TokenKind::Sign(Sign::Or),
    TokenKind::Sign(Sign::Assign),
    TokenKind::Ident,
    TokenKind::Int,
    TokenKind::Text,
    TokenKind::End,
];

/// The kind of a token.
pub fn kind_of(token: &Token) -> TokenKind
    ensures { result ≡ plain_kind_of token.now }
{
    match token {
        Token::Word(word) => TokenKind::Word(*word),
        Token::Sign(sign) => TokenKind::Sign(*sign),
        Token::Ident(_) => TokenKind::Ident,
        Token::Int(_) => TokenKind::Int,
        Token::Text(_) => TokenKind::Text,
        Token::End => TokenKind::End,
    }
}

/// A token of a kind, with an empty span at the front.
pub(crate) fn sample(alloc: Global, kind: TokenKind) -> Spanned
    ensures { result ≡ plain_sample kind }
{
    let token = match kind {
        TokenKind::Word(word) => Token::Word(word),
        TokenKind::Sign(sign) => Token::Sign(sign),
        TokenKind::Ident => Token::Ident(Name(0)),
        TokenKind::Int => Token::Int(0),
        TokenKind::Text => Token::Text(ListOf::from_vec(Vec::new(alloc))),
        TokenKind::End => Token::End,
    };
    Spanned {
        token,
        span: Span { from: 0, to: 0 },
    }
}

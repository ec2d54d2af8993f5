use tg_base::{Bytes, Name, Span};

/// A reserved word (Appel, appendix A).
#[derive(Clone, Copy, PartialEq, Eq)]
pub enum Word {
    WArray,
    WBreak,
    WDo,
    WElse,
    WEnd,
    WFor,
    WFunction,
    WIf,
    WIn,
    WLet,
    WNil,
    WOf,
    WThen,
    WTo,
    WType,
    WVar,
    WWhile,
}

/// A punctuation sign (Appel, appendix A).
#[derive(Clone, Copy, PartialEq, Eq)]
pub enum Sign {
    Comma,
    Colon,
    Semicolon,
    LeftParen,
    RightParen,
    LeftBracket,
    RightBracket,
    LeftBrace,
    RightBrace,
    Dot,
    Plus,
    Minus,
    Times,
    Divide,
    Equal,
    NotEqual,
    Less,
    LessEqual,
    Greater,
    GreaterEqual,
    And,
    Or,
    Assign,
}

/// A token: an int is at most 2147483647, and a text holds its bytes without quotes and escapes.
#[derive(Drop)]
pub enum Token {
    Word(Word),
    Sign(Sign),
    Ident(Name),
    Int(u32),
    Text(Bytes),
    /// The end of the text, whose span is empty.
    End,
}

/// A token with the span of its bytes.
#[derive(Drop)]
pub struct Spanned {
    pub token: Token,
    pub span: Span,
}

/// An identifier with the span of its bytes.
#[derive(Clone, Copy)]
pub struct Ident {
    pub name: Name,
    pub span: Span,
}

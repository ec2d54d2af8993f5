ghost use Rattle.std.specs.Prelude.{◌≡◌, ◌↔◌, IsTrue, IfOk, MatchOption};
ghost use Rattle.tg_explain.specs.Openers.{
  opener_of as plain_opener_of,
  is_closer as plain_is_closer,
  HasNoOpen,
  IsLastOpen,
};
ghost use Rattle.tg_explain.specs.mirror.Stacks.{
  closes as plain_closes,
  after_one,
  after_closer,
  IsTop,
};

use std::alloc::{AllocFailed, Global};
use std::marker::Model;
use tg_base::{Memory, Span};
use tg_syntax::{Sign, Spanned, Token, Word};

/// What waits for a token that closes it: a bracket for its other one, `let` for `end`, `if` for
/// `then`, `while` and `for` for `do`.
#[derive(Clone, Copy)]
pub enum Opener {
    Paren,
    Bracket,
    Brace,
    Let,
    If,
    While,
    For,
}

/// An opener, and where it stands.
#[derive(Clone, Copy)]
pub struct Opening {
    pub opener: Opener,
    pub span: Span,
}

/// The openers that no token closes so far.
#[derive(Drop)]
struct Stack {
    openings: Vec<Opening>,
}

impl Model for Stack {
    ghost use Rattle.std.specs.Prelude.{List, reverse};
    ghost use Rattle.tg_explain.specs.declared.openers.Opening.{Opening};

    ghost Value = { List Opening };

    ghost view = { λ s. reverse s.openings.items };
}

impl Stack {
    ghost use Rattle.std.specs.Prelude.{[], ◌∷◌, OnOk};

    fn new(alloc: Global) -> Stack
        ensures { result ≡ [] }
    {
        Stack {
            openings: Vec::new(alloc),
        }
    }

    fn push(&mut self, opening: Opening) -> Result<(), AllocFailed<Opening>>
        ensures { OnOk result (self.new ≡ opening ∷ self.old) }
    {
        self.openings.push(opening)
    }

    fn take(&mut self, one: &Spanned) -> Result<(), AllocFailed<Opening>>
        ensures { OnOk result (self.new ≡ after_one one.now self.old) }
    {
        match opener_of(&one.token) {
            Some(opener) => {
                let span = one.span;
                self.push(Opening { opener, span })?;
            }
            None => {
                if is_closer(&one.token) {
                    self.close(&one.token);
                }
            }
        }
        Ok(())
    }

    /// Takes the last opener away, or all where the token doesn't close that one.
    fn close(&mut self, token: &Token)
        ensures { self.new ≡ after_closer token.now self.old }
    {
        match self.openings.pop() {
            None => {}
            Some(opening) => {
                if !closes(opening.opener, token) {
                    self.openings.clear();
                }
            }
        }
    }

    fn last(&self) -> Option<Opening>
        ensures { MatchOption result (self.now ≡ []) (λ opening. IsTop opening self.now) }
    {
        self.openings.last().copied()
    }
}

/// What a token opens.
fn opener_of(token: &Token) -> Option<Opener>
    ensures { result ≡ plain_opener_of token.now }
{
    match token {
        Token::Sign(Sign::LeftParen) => Some(Opener::Paren),
        Token::Sign(Sign::LeftBracket) => Some(Opener::Bracket),
        Token::Sign(Sign::LeftBrace) => Some(Opener::Brace),
        Token::Word(Word::WLet) => Some(Opener::Let),
        Token::Word(Word::WIf) => Some(Opener::If),
        Token::Word(Word::WWhile) => Some(Opener::While),
        Token::Word(Word::WFor) => Some(Opener::For),
        _ => None,
    }
}

/// Whether a token closes an opener.
fn is_closer(token: &Token) -> bool
    ensures { result ≡ plain_is_closer token.now }
{
    match token {
        Token::Sign(sign) => matches!(
            sign,
            Sign::RightParen | Sign::RightBracket | Sign::RightBrace
        ),
        Token::Word(word) => matches!(word, Word::WEnd | Word::WThen | Word::WDo),
        _ => false,
    }
}

/// Whether a token closes this opener.
fn closes(opener: Opener, token: &Token) -> bool
    ensures { result ≡ plain_closes opener token.now }
{
    match (opener, token) {
        (Opener::Paren, Token::Sign(Sign::RightParen)) => true,
        (Opener::Bracket, Token::Sign(Sign::RightBracket)) => true,
        (Opener::Brace, Token::Sign(Sign::RightBrace)) => true,
        (Opener::Let, Token::Word(Word::WEnd)) => true,
        (Opener::If, Token::Word(Word::WThen)) => true,
        (Opener::While | Opener::For, Token::Word(Word::WDo)) => true,
        _ => false,
    }
}

/// The last opener that no token closes, or none, in time linear in the tokens. The only error is
/// out of memory.
pub fn last_open(alloc: Global, tokens: &[Spanned]) -> Result<Option<Opening>, Memory>
    ensures { IfOk result (λ found. MatchOption found (HasNoOpen tokens.now)
        (λ opening. IsLastOpen tokens.now opening)) }
{
    let mut stack = Stack::new(alloc);
    for one in tokens {
        stack.take(one)?;
    }
    Ok(stack.last())
}

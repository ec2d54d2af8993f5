ghost use Rattle.std.specs.Prelude.{◌≡◌, ◌≤◌, ◌<◌, [], ◌∷◌, IfOk, OnOk, MatchOption};
ghost use Rattle.tg_syntax.specs.Nesting.{
  nesting_of,
  pushed,
  popped,
  reset,
  raised,
  after_word,
  after_sign,
  after_token,
};
ghost use Rattle.tg_syntax.specs.SyntaxFaults.{IsShallow};
ghost use Rattle.tg_parser.specs.glue.Deep.{IsFirstDeep};

use std::alloc::{AllocFailed, Global};
use std::marker::Model;
use tg_base::Memory;
use tg_syntax::{Sign, Spanned, Token, Word};

/// The greatest nesting of a program.
const LIMIT: u32 = 256;

/// The counts of open constructs: one for each bracket that is open, and one before them.
#[derive(Drop)]
struct Counts {
    /// All counts but the innermost one, the outermost first.
    outer: Vec<u32>,
    innermost: u32,
    nesting: u32,
}

impl Model for Counts {
    ghost use Rattle.std.specs.Prelude.{◌≡◌, List, ℕ, ◌∷◌, reverse};
    ghost use Rattle.tg_syntax.specs.Nesting.{nesting_of};

    ghost Value = { List ℕ };

    ghost view = { λ c. c.innermost ∷ reverse c.outer.items };

    ghost invariant = { λ c. c.nesting ≡ nesting_of (c.innermost ∷ reverse c.outer.items) };
}

impl Counts {
    fn new(alloc: Global) -> Counts
        ensures { result ≡ 0 ∷ [] }
    {
        Counts {
            outer: Vec::new(alloc),
            innermost: 0,
            nesting: 0,
        }
    }

    fn nesting(&self) -> u32
        ensures { result ≡ nesting_of self.now }
    {
        self.nesting
    }

    fn push(&mut self) -> Result<(), AllocFailed<u32>>
        requires { nesting_of self.old ≤ 256 }
        ensures { OnOk result (self.new ≡ pushed self.old) }
    {
        self.outer.push(self.innermost)?;
        self.innermost = 0;
        self.nesting += 1;
        Ok(())
    }

    fn pop(&mut self)
        ensures popped { self.new ≡ popped self.old }
        ensures fewer { nesting_of self.new ≤ nesting_of self.old }
    {
        if let Some(count) = self.outer.pop() {
            self.nesting -= self.innermost + 1;
            self.innermost = count;
        }
    }

    fn reset(&mut self)
        ensures { self.new ≡ reset self.old }
    {
        self.nesting -= self.innermost;
        self.innermost = 0;
    }

    fn raise(&mut self)
        requires { nesting_of self.old ≤ 256 }
        ensures { self.new ≡ raised self.old }
    {
        self.innermost += 1;
        self.nesting += 1;
    }

    fn take_word(&mut self, word: Word) -> Result<(), AllocFailed<u32>>
        requires { nesting_of self.old ≤ 256 }
        ensures { OnOk result (self.new ≡ after_word word self.old) }
    {
        match word {
            Word::WLet => self.push()?,
            Word::WEnd => self.pop(),
            Word::WIn | Word::WType | Word::WVar | Word::WFunction => self.reset(),
            Word::WIf | Word::WWhile | Word::WFor | Word::WOf => self.raise(),
            _ => {}
        }
        Ok(())
    }

    fn take_sign(&mut self, sign: Sign) -> Result<(), AllocFailed<u32>>
        requires { nesting_of self.old ≤ 256 }
        ensures { OnOk result (self.new ≡ after_sign sign self.old) }
    {
        match sign {
            Sign::LeftParen | Sign::LeftBracket | Sign::LeftBrace => self.push()?,
            Sign::RightParen | Sign::RightBrace => self.pop(),
            Sign::RightBracket => {
                self.pop();
                self.raise();
            }
            Sign::Semicolon | Sign::Comma => self.reset(),
            Sign::Colon => {}
            _ => self.raise(),
        }
        Ok(())
    }

    fn take(&mut self, token: &Token) -> Result<(), AllocFailed<u32>>
        requires { nesting_of self.old ≤ 256 }
        ensures { OnOk result (self.new ≡ after_token token.now self.old) }
    {
        match token {
            Token::Word(word) => self.take_word(*word),
            Token::Sign(sign) => self.take_sign(*sign),
            _ => Ok(()),
        }
    }
}

/// The place of the first token after which the nesting is above 256, in time linear in the tokens,
/// and with memory for at most 256 counts.
pub(crate) fn first_deep(alloc: Global, tokens: &[Spanned]) -> Result<Option<usize>, Memory>
    ensures { IfOk result (λ found. MatchOption found (IsShallow tokens.now)
        (λ place. IsFirstDeep tokens.now place)) }
{
    let mut counts = Counts::new(alloc);
    for (place, one) in tokens.iter().enumerate() {
        counts.take(&one.token)?;
        if counts.nesting() > LIMIT {
            return Ok(Some(place));
        }
    }
    Ok(None)
}

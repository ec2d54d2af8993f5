ghost use Rattle.std.specs.Prelude.{◌≡◌, ◌≢◌, ◌≤◌, ◌<◌, ◌+◌, ◌++◌, ◌^◌, ℕ, List, length, IfOk};
ghost use Rattle.tg_base.specs.FirstFaults.{OnBad};
ghost use Rattle.tg_syntax.specs.Lexing.{Lexes, spanned as spans};
ghost use Rattle.tg_syntax.specs.LexicalFaults.{HasLexicalFault};
ghost use Rattle.tg_syntax.specs.SyntaxFaults.{EndsOnce};
ghost use Rattle.tg_lexer.specs.Numbering.{all_named, idents};

use crate::faults::LexFault;
use crate::lexemes::{Lexeme, read};
use std::alloc::Global;
use tg_base::{Names, Span};
use tg_syntax::{LexRule, Spanned, Token};

/// The most bytes that a text may have.
const MOST: usize = 262144;

// A token with its span.
fn spanned(token: Token, from: usize, to: usize) -> Spanned
    requires from { from ≤ 262144 }
    requires to { to ≤ 262144 }
    ensures { result ≡ spans token from to }
{
    let span = Span {
        from: from as u32,
        to: to as u32,
    };
    Spanned { token, span }
}

/// The tokens of a text, with its end as the last one. Names that aren't there yet go last, in the
/// order in which they first come. The time is that of one pass over the text, and of a look-up for
/// each identifier.
pub fn lex(alloc: Global, text: &[u8], names: &mut Names) -> Result<Vec<Spanned>, LexFault>
    requires { length names.old < 2 ^ 30 }
    ensures lexed { IfOk result (λ tokens. Lexes names.new 0 text.now tokens.items) }
    ensures ends { IfOk result (λ tokens. EndsOnce tokens.items) }
    ensures short { IfOk result (λ tokens. length text.now ≤ 262144) }
    ensures named { IfOk result
        (λ tokens. names.new ≡ all_named names.old (idents text.now tokens.items)) }
    ensures kept { (more : List (List ℕ)) × (names.new ≡ names.old ++ more) }
    ensures bad { OnBad result (λ rule at. HasLexicalFault text.now rule at) }
{
    if text.len() > MOST {
        return Err(LexFault::Bad {
            rule: LexRule::L7,
            at: 0,
        });
    }
    let mut tokens = Vec::new(alloc);
    let mut at = 0;
    while at < text.len() {
        let front = read(alloc, &text[at..], at, names)?;
        match front {
            Lexeme::Gap(size) => at += size,
            Lexeme::One(token, size) => {
                tokens.push(spanned(token, at, at + size))?;
                at += size;
            }
        }
    }
    tokens.push(spanned(Token::End, at, at))?;
    Ok(tokens)
}

ghost use Rattle.std.specs.Prelude.{◌≡◌, IfOk, nat_lt};
ghost use Rattle.tg_syntax.specs.SyntaxFaults.{EndsOnce};
ghost use Rattle.tg_syntax_laws.specs.laws.Places.{StandFrom};
ghost use Rattle.tg_parser.specs.Answers.{HasSyntaxFault};
ghost use Rattle.tg_explain.specs.Details.{IsExplained};
ghost use Rattle.tg_explain.specs.glue.Fronts.{IsFirstFrom};

use crate::expecting::expected;
use crate::kinds::{TokenKind, kind_of};
use crate::openers::{Opening, last_open};
use std::alloc::Global;
use tg_base::{ListOf, Memory};
use tg_parser::SyntaxRule;
use tg_syntax::Spanned;

/// What a fault of syntax is about: the kind of the token where it stands, the kinds with which the
/// tokens before it can go on, and the last opener of them that no token closes.
#[derive(Drop)]
pub struct SyntaxDetail {
    pub found: TokenKind,
    pub expected: ListOf<TokenKind>,
    pub opening: Option<Opening>,
}

/// What the first fault of syntax of a text's tokens is about, by its byte. It parses the tokens
/// before the fault once for each kind, and the only error is out of memory.
pub fn explain_syntax(
    alloc: Global,
    tokens: Vec<Spanned>,
    rule: SyntaxRule,
    at: u32,
) -> Result<SyntaxDetail, Memory>
    requires stand { StandFrom 0 tokens.items }
    requires ends { EndsOnce tokens.items }
    requires fault { HasSyntaxFault tokens.items rule at }
    ensures { IfOk result (λ d. IsExplained tokens.items at d) }
{
    let first = first_from(&tokens, at);
    let mut before = tokens;
    before.truncate(first.0);
    let expected = expected(alloc, &mut before)?;
    let opening = last_open(alloc, &before)?;
    Ok(SyntaxDetail {
        found: first.1,
        expected,
        opening,
    })
}

/// How many tokens begin before a byte, and the kind of the one behind them.
fn first_from(tokens: &[Spanned], at: u32) -> (usize, TokenKind)
    ensures { IsFirstFrom at tokens.now result.0 result.1 }
{
    for (count, one) in tokens.iter().enumerate() {
        if !begins_before(one, at) {
            return (count, kind_of(&one.token));
        }
    }
    (tokens.len(), TokenKind::End)
}

fn begins_before(one: &Spanned, at: u32) -> bool
    ensures { result ≡ nat_lt one.now.span.from at }
{
    one.span.from < at
}

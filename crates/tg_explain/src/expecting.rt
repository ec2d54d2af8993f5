// What is expected at a fault S1 doesn't count nesting, as S1 doesn't: a kind is expected where
// some program of the grammar goes on with it, though with the nesting at 256 that token would
// have S2. Whether a program within the nesting goes on is another question, which the parser
// doesn't answer: behind `array` at 256 every program goes on too deep.

ghost use Rattle.std.specs.Prelude.{◌≡◌, ◌++◌, IfOk, OnOk, take};
ghost use Rattle.tg_syntax.specs.SyntaxFaults.{EndsOnce};
ghost use Rattle.tg_explain.specs.Expected.{IsFaultless, AreExpected, ArePicked};
ghost use Rattle.tg_explain.specs.glue.Asking.{asked, Shows, shown_by, Decides};

use crate::kinds::{TABLE, TokenKind, sample};
use std::alloc::Global;
use tg_base::{ListOf, Memory, Span};
use tg_parser::{SyntaxFault, SyntaxRule, parse};
use tg_syntax::{Spanned, Token};

/// The kinds of tokens with which a list of tokens can go on, in the order of the table of tokens:
/// exactly those with which some program begins behind these tokens. The list, which has no fault
/// so far, stays as it is, and is parsed once for each kind. The only error is out of memory.
pub fn expected(alloc: Global, before: &mut Vec<Spanned>) -> Result<ListOf<TokenKind>, Memory>
    requires { IsFaultless before.old.items }
    ensures kinds { IfOk result (λ kinds. AreExpected before.old.items kinds) }
    ensures same { IfOk result (λ kinds. before.new.items ≡ before.old.items) }
{
    let kinds = pick(alloc, before, &TABLE)?;
    Ok(ListOf::from_vec(kinds))
}

/// Those of a table's kinds that can follow, in its order.
fn pick(
    alloc: Global,
    before: &mut Vec<Spanned>,
    table: &[TokenKind],
) -> Result<Vec<TokenKind>, Memory>
    requires { IsFaultless before.old.items }
    ensures kinds { IfOk result (λ kinds. ArePicked before.old.items table.now kinds.items) }
    ensures same { IfOk result (λ kinds. before.new.items ≡ before.old.items) }
{
    let mut kinds = Vec::new(alloc);
    for kind in table {
        if can_follow(alloc, before, *kind)? {
            kinds.push(*kind)?;
        }
    }
    Ok(kinds)
}

/// Whether a token of a kind can follow.
fn can_follow(alloc: Global, before: &mut Vec<Spanned>, kind: TokenKind) -> Result<bool, Memory>
    requires { IsFaultless before.old.items }
    ensures decided { IfOk result (λ can. Decides before.old.items kind can) }
    ensures same { IfOk result (λ can. before.new.items ≡ before.old.items) }
{
    let count = before.len();
    push_asked(alloc, before, kind)?;
    let can = shows(alloc, before)?;
    before.truncate(count);
    Ok(can)
}

/// Puts a token of a kind at the end, and behind it the end of a text, whose span begins at 1.
fn push_asked(alloc: Global, tokens: &mut Vec<Spanned>, kind: TokenKind) -> Result<(), Memory>
    ensures { OnOk result (tokens.new.items ≡ tokens.old.items ++ asked kind) }
{
    tokens.push(sample(alloc, kind))?;
    if !matches!(kind, TokenKind::End) {
        let span = Span { from: 1, to: 1 };
        tokens.push(Spanned {
            token: Token::End,
            span,
        })?;
    }
    Ok(())
}

/// Whether the tokens are a program, or their first fault comes by nesting, or at byte 1.
fn shows(alloc: Global, tokens: &[Spanned]) -> Result<bool, Memory>
    requires { EndsOnce tokens.now }
    ensures { IfOk result (λ can. Shows tokens.now can) }
{
    let _program = match parse(alloc, tokens) {
        Ok(program) => program,
        Err(SyntaxFault::Memory) => return Err(Memory),
        Err(SyntaxFault::Bad { rule, at }) => return Ok(shows_by(rule, at)),
    };
    Ok(true)
}

/// Whether a first fault is by nesting, or at byte 1.
fn shows_by(rule: SyntaxRule, at: u32) -> bool
    ensures { result ≡ shown_by rule at }
{
    match rule {
        SyntaxRule::S1 => at == 1,
        SyntaxRule::S2 => true,
    }
}

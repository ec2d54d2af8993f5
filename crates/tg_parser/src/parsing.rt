ghost use Rattle.std.specs.Prelude.{◌≤◌, IfOk};
ghost use Rattle.tg_base.specs.FirstFaults.{OnBad};
ghost use Rattle.tg_syntax.specs.Grammar.{IsProgram};
ghost use Rattle.tg_syntax.specs.SyntaxFaults.{EndsOnce, IsShallow};
ghost use Rattle.tg_syntax.specs.glue.Plain.{plain};
ghost use Rattle.tg_parser.specs.Answers.{HasSyntaxFault};
ghost use Rattle.tg_parser.specs.Depth.{depth, most_depth};
ghost use Rattle.tg_parser.specs.glue.Deep.{IsReadable};

use crate::depths::bounded_program;
use crate::faults::{Stop, SyntaxFault, SyntaxRule};
use crate::nesting::first_deep;
use crate::reading::program;
use std::alloc::Global;
use tg_base::Memory;
use tg_syntax::{Program, Spanned};
use tg_syntax_laws::descent_is_exact;

/// The program that the tokens are. A tree that is deeper than `MOST_DEPTH` is out of memory.
pub fn parse(alloc: Global, tokens: &[Spanned]) -> Result<Program, SyntaxFault>
    requires ends { EndsOnce tokens.now }
    ensures program { IfOk result (λ p. IsProgram tokens.now (plain p.body)) }
    ensures shallow { IfOk result (λ p. IsShallow tokens.now) }
    ensures depth { IfOk result (λ p. depth (plain p.body) ≤ most_depth) }
    ensures bad { OnBad result (λ rule at. HasSyntaxFault tokens.now rule at) }
{
    descent_is_exact();
    let part = readable(alloc, tokens)?;
    match program(alloc, part) {
        Ok((body, _)) => Ok(bounded_program(body)?),
        Err(Stop::Wrong(at)) => Err(SyntaxFault::Bad {
            rule: SyntaxRule::S1,
            at,
        }),
        // Only a list that is cut off can want more, and it ends by the token that is too deep.
        Err(Stop::More) => Err(SyntaxFault::Bad {
            rule: SyntaxRule::S2,
            at: part[part.len() - 1].span.from,
        }),
        Err(Stop::Memory) => Err(SyntaxFault::Memory),
    }
}

/// The tokens up to the first one that is too deep, or all.
fn readable(alloc: Global, tokens: &[Spanned]) -> Result<&[Spanned], Memory>
    ensures { IfOk result (λ part. IsReadable tokens.now part.now) }
{
    match first_deep(alloc, tokens)? {
        None => Ok(tokens),
        Some(place) => Ok(&tokens[..place + 1]),
    }
}

ghost use Rattle.std.specs.Prelude.{ℕ, List};
ghost use Rattle.tg_correctness.specs.Sources.{HasTokens};
ghost use Rattle.tg_driver.specs.glue.Readings.{
  IsLexFaultOf,
  IsLexed,
  IsParsed,
  IsParsedFrom,
  IsRefusalOf,
  IsSyntaxFaultOf,
  IsTypeFaultOf,
  IsUntypedRefusalOf,
};

use crate::faults::Rule;
use crate::refusals::Refusal;
use std::alloc::Global;
use tg_base::Names;
use tg_lexer::{LexFault, lex};
use tg_parser::{SyntaxFault, parse};
use tg_syntax::{Program, Spanned};
use tg_typecheck::TypeFault;

/// The most bytes of a source.
pub(crate) const LONGEST: usize = 262_144;

/// A program with its names.
#[derive(Drop)]
pub(crate) struct NamedProgram {
    pub(crate) program: Program,
    /// The texts of its identifiers, which the tree has by their numbers.
    pub(crate) names: Names,
}

/// The tokens of a text with its names.
#[derive(Drop)]
pub(crate) struct NamedTokens {
    pub(crate) tokens: Vec<Spanned>,
    /// The texts of its identifiers, which the tokens have by their numbers.
    pub(crate) names: Names,
}

/// The tree of a text, whose types aren't looked at, or its first fault of lexemes or syntax.
pub(crate) fn parse_source(alloc: Global, text: &[u8]) -> Result<NamedProgram, Refusal>
    ensures { IsParsed text.now result }
{
    let source = lex_source(alloc, text)?;
    let program = parse_tokens(alloc, &source)?;
    Ok(NamedProgram {
        program,
        names: source.names,
    })
}

/// The tokens of a text, or its first fault of lexemes.
pub(crate) fn lex_source(alloc: Global, text: &[u8]) -> Result<NamedTokens, Refusal>
    ensures { IsLexed text.now result }
{
    let mut names = Names::new(alloc);
    match lex(alloc, text, &mut names) {
        Ok(tokens) => Ok(NamedTokens { tokens, names }),
        Err(fault) => Err(lexical(fault)),
    }
}

/// The tree of the tokens of a text, or its first fault of syntax.
pub(crate) fn parse_tokens(alloc: Global, source: &NamedTokens) -> Result<Program, Refusal>
    requires { (text : List ℕ) × HasTokens text source.now.names source.now.tokens.items }
    ensures { (text : List ℕ) → HasTokens text source.now.names source.now.tokens.items
        → IsParsedFrom text source.now result }
{
    match parse(alloc, &source.tokens) {
        Ok(program) => Ok(program),
        Err(fault) => Err(syntactic(fault)),
    }
}

/// The refusal of a text that has a lexical fault.
fn lexical(fault: LexFault) -> Refusal
    ensures { (text : List ℕ) → IsLexFaultOf text fault → IsUntypedRefusalOf text result }
{
    match fault {
        LexFault::Bad { rule, at } => Refusal::Bad {
            rule: Rule::Lexical(rule),
            at,
        },
        LexFault::Memory => Refusal::Memory,
    }
}

/// The refusal of a text whose tokens have a fault of syntax.
fn syntactic(fault: SyntaxFault) -> Refusal
    ensures { (text : List ℕ) → IsSyntaxFaultOf text fault → IsUntypedRefusalOf text result }
{
    match fault {
        SyntaxFault::Bad { rule, at } => Refusal::Bad {
            rule: Rule::Syntactic(rule),
            at,
        },
        SyntaxFault::Memory => Refusal::Memory,
    }
}

/// The refusal of a text whose tree has a fault of types.
pub(crate) fn ill_typed(fault: TypeFault) -> Refusal
    ensures { (text : List ℕ) → IsTypeFaultOf text fault → IsRefusalOf text result }
{
    match fault {
        TypeFault::Bad { rule, at } => Refusal::Bad {
            rule: Rule::Typed(rule),
            at,
        },
        TypeFault::Memory => Refusal::Memory,
    }
}

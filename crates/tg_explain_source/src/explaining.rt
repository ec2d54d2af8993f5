// The text is read once more, from its bytes on: who asks for an explanation has only the answer.

ghost use Rattle.std.specs.Prelude.{◌≡◌, IfOk, List};
ghost use Rattle.tg_syntax.specs.LexicalFaults.{HasLexicalFault};
ghost use Rattle.tg_syntax.specs.declared.tokens.Spanned.{Spanned as Token};
ghost use Rattle.tg_syntax.specs.glue.Plain.{plain};
ghost use Rattle.tg_explain.specs.Lexical as lexical;
ghost use Rattle.tg_correctness.specs.Sources.{HasTokens, HasTree};
ghost use Rattle.tg_explain_source.specs.Explained.{Explains};

use std::alloc::Global;
use tg_base::{Memory, Names};
use tg_explain::{explain_syntax, lexical_lines, syntax_lines};
use tg_explain_types::{explain_types, type_lines};
use tg_lexer::{LexFault, LexRule, lex};
use tg_parser::{SyntaxFault, parse};
use tg_syntax::{Program, Spanned};
use tg_typecheck::{TypeFault, check};

/// The lines that explain the first fault of a text; a program has none. The only error is out of
/// memory.
pub fn explain_source(alloc: Global, text: &[u8]) -> Result<Vec<u8>, Memory>
    ensures { IfOk result (λ lines. Explains text.now lines.items) }
{
    let mut names = Names::new(alloc);
    match lex(alloc, text, &mut names) {
        Ok(tokens) => explain_tokens(alloc, text, tokens, &names),
        Err(LexFault::Bad { rule, at }) => explain_bytes(alloc, text, rule, at),
        Err(LexFault::Memory) => Err(Memory),
    }
}

/// The lines of the lexical fault of a text. Those of one that is too long tell nothing of it.
fn explain_bytes(alloc: Global, text: &[u8], rule: LexRule, at: u32) -> Result<Vec<u8>, Memory>
    requires { HasLexicalFault text.now rule at }
    ensures { IfOk result (λ lines. lines.items ≡ lexical.lexical_lines text.now rule at) }
{
    match rule {
        LexRule::L7 => lexical_lines(alloc, &[], LexRule::L7, at),
        _ => lexical_lines(alloc, text, rule, at),
    }
}

/// The lines of the first fault of the tokens of a text, which may be one of their tree.
fn explain_tokens(
    alloc: Global,
    text: &[u8],
    tokens: Vec<Spanned>,
    names: &Names,
) -> Result<Vec<u8>, Memory>
    requires { HasTokens text.now names.now tokens.items }
    ensures { IfOk result (λ lines. Explains text.now lines.items) }
{
    match parse(alloc, &tokens) {
        Ok(program) => explain_program(alloc, text, &program, names),
        Err(SyntaxFault::Bad { rule, at }) => {
            let detail = explain_syntax(alloc, tokens, rule, at)?;
            syntax_lines(alloc, text, rule, &detail)
        }
        Err(SyntaxFault::Memory) => Err(Memory),
    }
}

/// The lines of the first fault of types of the tree of a text.
fn explain_program(
    alloc: Global,
    text: &[u8],
    program: &Program,
    names: &Names,
) -> Result<Vec<u8>, Memory>
    requires { (tokens : List Token)
        × HasTree text.now names.now tokens (plain program.now.body) }
    ensures { IfOk result (λ lines. Explains text.now lines.items) }
{
    match check(alloc, program, names) {
        Ok(_checked) => Ok(Vec::new(alloc)),
        Err(TypeFault::Bad { rule, at }) => {
            let detail = explain_types(alloc, text, program, rule, at)?;
            type_lines(alloc, text, at, &detail)
        }
        Err(TypeFault::Memory) => Err(Memory),
    }
}

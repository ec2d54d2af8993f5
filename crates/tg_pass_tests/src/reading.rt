ghost use Rattle.std.specs.Prelude.{IfOk};
ghost use Rattle.tg_pass_tests.specs.glue.Texts.{IsCheckable};
ghost use Rattle.tg_syntax.specs.glue.Plain.{plain};

use std::alloc::Global;
use std::test::Fail;
use tg_base::Names;
use tg_lexer::lex;
use tg_parser::parse;
use tg_syntax::Program;

/// The tree of a text, with the texts of its identifiers.
#[derive(Drop)]
pub(crate) struct Source {
    pub(crate) program: Program,
    pub(crate) names: Names,
}

/// The tree of a text, whose types aren't looked at. In a box, which a check lets go by a call.
pub(crate) fn read(alloc: Global, text: &str) -> Result<Box<Source>, Fail>
    ensures { IfOk result (λ s. IsCheckable s.value.names (plain s.value.program.body)) }
{
    Ok(Box::new(alloc, source_of(alloc, text)?)?)
}

fn source_of(alloc: Global, text: &str) -> Result<Source, Fail>
    ensures { IfOk result (λ s. IsCheckable s.names (plain s.program.body)) }
{
    let mut names = Names::new(alloc);
    let tokens = lex(alloc, text.as_bytes(), &mut names)?;
    let program = parse(alloc, &tokens)?;
    Ok(Source { program, names })
}

/// The program that a text is.
pub(crate) fn program_of(alloc: Global, text: &str) -> Result<Box<Program>, Fail> {
    let Source { program, names: _ } = source_of(alloc, text)?;
    Ok(Box::new(alloc, program)?)
}

ghost use Rattle.std.specs.Prelude.{◌≡◌, ℕ, List, IfOk};
ghost use Rattle.tg_syntax.specs.glue.Plain.{plain};
ghost use Rattle.tg_command.specs.Commands.{asked_of};
ghost use Rattle.tg_compile_proof.specs.Builds.{CompilesTo};
ghost use Rattle.tg_correctness.specs.Sources.{IsSource};
ghost use Rattle.tg_driver.specs.Passes.{passes_of};
ghost use Rattle.tg_driver.specs.glue.Readings.{HasNamedTree, IsCompiled};

use crate::reading::{NamedProgram, ill_typed, parse_source};
use crate::refusals::Refusal;
use std::alloc::Global;
use tg_base::Memory;
use tg_command::Command;
use tg_compile::{Compiled, Passes, compile_checked};
use tg_irc_definition::SpillPolicy;
use tg_literal_bounds::literals_fit_text;
use tg_typecheck::check;

/// The passes that a command switches on.
pub(crate) fn passes_of(command: &Command) -> Passes
    ensures { result ≡ passes_of (asked_of command.now) }
{
    Passes {
        fold: command.flags.fold,
    }
}

/// Compiles a source, with the passes that are switched on: the code of its functions and its
/// assembly text. The policy is asked what to spill in each function in turn.
///
/// It is refused by its first fault exactly where it has one; `Memory` may come in place of any
/// answer, and the policy may have been asked then.
pub fn compile(
    alloc: Global,
    text: &[u8],
    passes: Passes,
    policy: &mut dyn SpillPolicy,
) -> Result<Compiled, Refusal>
    ensures compiled { IsCompiled passes (rule policy.old) text.now result }
    ensures same { rule policy.new ≡ rule policy.old }
{
    let source = parse_source(alloc, text)?;
    compile_program(alloc, &source, passes, policy)
}

/// Compiles a text that is a program, as a generated one is. The policy is asked as by `compile`.
#[tactic(auto, using(crate::proofs::FaultsOnce::never_refused))]
pub(crate) fn compile_accepted(
    alloc: Global,
    text: &[u8],
    passes: Passes,
    policy: &mut dyn SpillPolicy,
) -> Result<Compiled, Memory>
    requires { IsSource text.now }
    ensures compiled { IfOk result
        (λ c. CompilesTo passes (rule policy.old) text.now c.allocations.items c.text.items) }
    ensures same { rule policy.new ≡ rule policy.old }
{
    match compile(alloc, text, passes, policy) {
        Ok(compiled) => Ok(compiled),
        Err(Refusal::Bad { rule: _, at: _ }) => unreachable!(),
        Err(Refusal::Memory) => Err(Memory),
    }
}

/// Types the tree of a source and compiles it.
fn compile_program(
    alloc: Global,
    source: &NamedProgram,
    passes: Passes,
    policy: &mut dyn SpillPolicy,
) -> Result<Compiled, Refusal>
    requires { (text : List ℕ)
        × HasNamedTree text source.now.names (plain source.now.program.body) }
    ensures compiled { (text : List ℕ)
        → HasNamedTree text source.now.names (plain source.now.program.body)
        → IsCompiled passes (rule policy.old) text result }
    ensures same { rule policy.new ≡ rule policy.old }
{
    literals_fit_text();
    match check(alloc, &source.program, &source.names) {
        Ok(checked) => Ok(compile_checked(alloc, &checked, passes, policy)?),
        Err(fault) => Err(ill_typed(fault)),
    }
}

ghost use Rattle.std.specs.Prelude.{◌≡◌, ◌<◌, ◌^◌, length, IsTrue, IfOk};
ghost use Rattle.std.specs.List.{list_all};
ghost use Rattle.tg_syntax.specs.glue.Plain.{plain};
ghost use Rattle.tg_regalloc.specs.Allocations.{codes_of};
ghost use Rattle.tg_emit.specs.Conditions.{is_emittable};
ghost use Rattle.tg_emit.specs.mirror.Lines.{is_long};
ghost use Rattle.tg_compile.specs.Compiling.{LiteralsFit, fragments_of};
ghost use Rattle.tg_compile.specs.Prepared.{prepared};
ghost use Rattle.tg_stages.specs.Programs.{IsShown, ShowsCompiled};
ghost use Rattle.tg_stages.specs.glue.Allocating.{HaveAllocations};

use crate::functions::put_stages;
use crate::headings::{heading_at, headings, undeclared};
use std::alloc::Global;
use tg_base::Memory;
use tg_compile::{Passes, compile_checked, fragments};
use tg_emit::{are_far, function};
use tg_irc_definition::SpillPolicy;
use tg_regalloc::Allocation;
use tg_tree::Fragments;
use tg_typecheck::Checked;
use tg_variables::variables;

/// Compiles a program that has no fault, with the passes that are switched on, and gives the text of
/// what each pass made of each function. The policy is asked as by `compile_checked`.
pub fn show_checked(
    alloc: Global,
    text: &[u8],
    checked: &Checked,
    passes: Passes,
    policy: &mut dyn SpillPolicy,
) -> Result<Vec<u8>, Memory>
    requires small { length text.now < 2 ^ 31 }
    requires fit { LiteralsFit checked.now.notes (plain checked.now.program.body) }
    ensures shows { IfOk result (λ shown. ShowsCompiled passes (rule policy.old) text.now
        checked.now.names checked.now.notes (plain checked.now.program.body) shown.items) }
    ensures same { rule policy.new ≡ rule policy.old }
{
    let compiled = compile_checked(alloc, checked, passes, policy)?;
    Ok(show(alloc, text, checked, passes, &compiled.allocations)?)
}

/// The text of what each pass makes of each function of a program, by the allocations of what it is
/// compiled to.
fn show(
    alloc: Global,
    text: &[u8],
    checked: &Checked,
    passes: Passes,
    allocations: &[Allocation],
) -> Result<Vec<u8>, Memory>
    requires small { length text.now < 2 ^ 31 }
    requires each { length allocations.now ≡
        length (fragments_of checked.now.notes (plain checked.now.program.body)).functions }
    requires emittable { IsTrue (list_all is_emittable (codes_of allocations.now)) }
    requires allocated { HaveAllocations (prepared passes (fragments_of checked.now.notes
        (plain checked.now.program.body))).functions allocations.now }
    ensures { IfOk result (λ shown. IsShown passes text.now checked.now.names checked.now.notes
        (plain checked.now.program.body) allocations.now shown.items) }
{
    let all = headings(alloc, text, checked)?;
    let own = variables(alloc, text, checked)?;
    let own = own.as_slice();
    let long = are_long(alloc, allocations)?;
    let Fragments {
        functions,
        literals: _,
    } = fragments(alloc, checked)?;
    let other = undeclared(alloc, b"")?;
    let mut shown = Vec::new(alloc);
    let mut at = 0;
    for one in functions {
        let heading = heading_at(&all, &other, at);
        put_stages(
            alloc,
            &mut shown,
            heading,
            own,
            at,
            one,
            passes,
            &allocations[at],
            long,
        )?;
        at += 1;
    }
    Ok(shown)
}

/// Whether the code of a program is so long that each branch in it is turned.
fn are_long(alloc: Global, allocations: &[Allocation]) -> Result<bool, Memory>
    requires { IsTrue (list_all is_emittable (codes_of allocations.now)) }
    ensures { IfOk result (λ long. long ≡ is_long (codes_of allocations.now)) }
{
    let mut lines = Vec::new(alloc);
    for at in 0..allocations.len() {
        function(alloc, &mut lines, false, &allocations[at].done)?;
    }
    Ok(are_far(&lines))
}

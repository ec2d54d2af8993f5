ghost use Rattle.std.specs.Prelude.{◌≡◌, ◌≤◌, All, IfOk, map};
ghost use Rattle.std.specs.List.{zip};
ghost use Rattle.tg_machine_state.specs.State.{most_bytes};
ghost use Rattle.tg_syntax.specs.glue.Plain.{plain};
ghost use Rattle.tg_tree.specs.glue.Plain.{plain_fragment, plain_fragments};
ghost use Rattle.tg_tree.specs.Named.{IsLinked};
ghost use Rattle.tg_translate_laws.specs.laws.Laws.{names};
ghost use Rattle.tg_emit.specs.mirror.Lines.{assembly_of};
ghost use Rattle.tg_emit.specs.mirror.Text.{text_of};
ghost use Rattle.tg_emit_laws.specs.Programs.{AreTyped, IsWholeProgram, bytes_of};
ghost use Rattle.tg_delay.specs.Filling.{delayed};
ghost use Rattle.tg_compile.specs.Compiling.{Compiles, LiteralsFit, fragments_of};
ghost use Rattle.tg_compile.specs.Slots.{CompilesDelayed};
ghost use Rattle.tg_compile.specs.glue.Passes.{
  AreLinked,
  AreSmall,
  CompileApart,
  IsWellFormed,
  allocation_of,
  prepared_fragment,
};

use crate::bodies::compile_function;
use crate::compiled::Compiled;
use crate::laws::{
    code_names_no_more, compiled_is_small, functions_are_well_formed, prepared_is_reduced,
};
use crate::passes::Passes;
use std::alloc::Global;
use tg_base::Memory;
use tg_delay::delay;
use tg_emit::{emit, text};
use tg_escape::escapes;
use tg_instr::Allocated;
use tg_irc_definition::SpillPolicy;
use tg_regalloc::{Allocation, Locations, Rounds};
use tg_runtime::runtime;
use tg_translate::translate;
use tg_translate_laws::programs_are_linked;
use tg_tree::{Fragment, Fragments, Literal};
use tg_typecheck::Checked;

/// What an allocation tells besides its code.
#[derive(Drop)]
struct Placement {
    registers: Locations,
    rounds: Rounds,
    all_in_frame: bool,
    slots: u32,
}

/// Compiled functions: their codes, and where the temporaries of each stand.
#[derive(Drop)]
struct Functions {
    codes: Vec<Allocated>,
    placements: Vec<Placement>,
}

/// Compiles a program that has no fault, with the passes that are switched on: its functions and
/// the runtime's become assembly text. The policy is asked in each function in turn; after `Memory`
/// it may have been asked. The literals of a text's program fit their segment by a law of texts; a
/// checked tree alone may stand for none.
pub fn compile_checked(
    alloc: Global,
    checked: &Checked,
    passes: Passes,
    policy: &mut dyn SpillPolicy,
) -> Result<Compiled, Memory>
    requires { LiteralsFit checked.now.notes (plain checked.now.program.body) }
    ensures compiles { IfOk result
        (λ c. Compiles passes (rule policy.old) checked.now.notes
        (plain checked.now.program.body) c.allocations.items c.text.items) }
    ensures same { rule policy.new ≡ rule policy.old }
{
    let Fragments {
        functions: bodies,
        literals,
    } = fragments(alloc, checked)?;
    let functions = compile_functions(alloc, bodies, passes, policy)?;
    code_names_no_more();
    prepared_is_reduced();
    compiled_is_small(checked, passes);
    let written = write(alloc, &functions.codes, &literals)?;
    Ok(Compiled {
        allocations: join(alloc, functions)?,
        text: written,
    })
}

/// Compiles a program that has no fault as `compile_checked` does, for the machine with delayed
/// branches: the text is that of the same assembly with its delay slots.
pub fn compile_delayed(
    alloc: Global,
    checked: &Checked,
    passes: Passes,
    policy: &mut dyn SpillPolicy,
) -> Result<Compiled, Memory>
    requires { LiteralsFit checked.now.notes (plain checked.now.program.body) }
    ensures compiles { IfOk result
        (λ c. CompilesDelayed passes (rule policy.old) checked.now.notes
        (plain checked.now.program.body) c.allocations.items c.text.items) }
    ensures same { rule policy.new ≡ rule policy.old }
{
    let Fragments {
        functions: bodies,
        literals,
    } = fragments(alloc, checked)?;
    let functions = compile_functions(alloc, bodies, passes, policy)?;
    code_names_no_more();
    prepared_is_reduced();
    compiled_is_small(checked, passes);
    let written = write_delayed(alloc, &functions.codes, &literals)?;
    Ok(Compiled {
        allocations: join(alloc, functions)?,
        text: written,
    })
}

/// The functions and literals of a program, its body first, and after them the runtime's (Appel,
/// chapter 7).
pub fn fragments(alloc: Global, checked: &Checked) -> Result<Fragments, Memory>
    ensures fragments { IfOk result (λ f. plain_fragments f ≡
        fragments_of checked.now.notes (plain checked.now.program.body)) }
    ensures formed { IfOk result (λ f. All IsWellFormed (plain_fragments f).functions) }
    ensures linked { IfOk result (λ f. IsLinked names (plain_fragments f)) }
{
    functions_are_well_formed(checked);
    programs_are_linked();
    let escaping = escapes(alloc, checked)?;
    let mut program = translate(alloc, checked, &escaping)?;
    let mut below = runtime(alloc)?;
    program.functions.append(&mut below.functions)?;
    program.literals.append(&mut below.literals)?;
    Ok(program)
}

/// Compiles functions one after another.
fn compile_functions(
    alloc: Global,
    bodies: Vec<Fragment>,
    passes: Passes,
    policy: &mut dyn SpillPolicy,
) -> Result<Functions, Memory>
    requires { All IsWellFormed (map plain_fragment bodies.items) }
    ensures compile { IfOk result (λ f. CompileApart (rule policy.old)
        (map (prepared_fragment passes) bodies.items) f.codes.items f.placements.items) }
    ensures same { rule policy.new ≡ rule policy.old }
{
    let mut codes = Vec::new(alloc);
    let mut placements = Vec::new(alloc);
    for one in bodies {
        let Allocation {
            done,
            registers,
            rounds,
            all_in_frame,
            slots,
        } = compile_function(alloc, one, passes, policy)?;
        codes.push(done)?;
        placements.push(Placement {
            registers,
            rounds,
            all_in_frame,
            slots,
        })?;
    }
    Ok(Functions { codes, placements })
}

/// The assembly text of functions and literals.
fn write(alloc: Global, codes: &[Allocated], literals: &[Literal]) -> Result<Vec<u8>, Memory>
    requires linked { AreLinked codes.now literals.now }
    requires small { AreSmall codes.now }
    requires fit { bytes_of literals.now ≤ most_bytes }
    ensures text { IfOk result (λ t. t.items ≡ text_of (assembly_of codes.now literals.now)) }
    ensures program { IfOk result (λ t. IsWholeProgram codes.now literals.now) }
    ensures typed { IfOk result (λ t. AreTyped codes.now literals.now) }
{
    let assembly = emit(alloc, codes, literals)?;
    Ok(text(alloc, &assembly)?)
}

/// The assembly text of functions and literals, with delay slots.
fn write_delayed(
    alloc: Global,
    codes: &[Allocated],
    literals: &[Literal],
) -> Result<Vec<u8>, Memory>
    requires linked { AreLinked codes.now literals.now }
    requires small { AreSmall codes.now }
    requires fit { bytes_of literals.now ≤ most_bytes }
    ensures text { IfOk result
        (λ t. t.items ≡ text_of (delayed (assembly_of codes.now literals.now))) }
    ensures program { IfOk result (λ t. IsWholeProgram codes.now literals.now) }
    ensures typed { IfOk result (λ t. AreTyped codes.now literals.now) }
{
    let plain = emit(alloc, codes, literals)?;
    let slots = delay(alloc, &plain)?;
    Ok(text(alloc, &slots)?)
}

/// The allocations of compiled functions.
fn join(alloc: Global, functions: Functions) -> Result<Vec<Allocation>, Memory>
    ensures { IfOk result (λ all. all.items ≡
        map allocation_of (zip functions.codes.items functions.placements.items)) }
{
    let Functions { codes, placements } = functions;
    let all = codes
        .into_iter()
        .zip(placements)
        .map(|(done, placement)| allocation(done, placement))
        .collect(alloc)?;
    Ok(all)
}

/// The allocation of a function.
fn allocation(done: Allocated, placement: Placement) -> Allocation
    ensures { result ≡ allocation_of (done, placement) }
{
    let Placement {
        registers,
        rounds,
        all_in_frame,
        slots,
    } = placement;
    Allocation {
        done,
        registers,
        rounds,
        all_in_frame,
        slots,
    }
}

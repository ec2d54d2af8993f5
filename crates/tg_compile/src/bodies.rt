ghost use Rattle.std.specs.Prelude.{◌≡◌, IfOk};
ghost use Rattle.tg_tree.specs.glue.Lists.{code_of};
ghost use Rattle.tg_tree.specs.glue.Plain.{plain_fragment, plain_function, plain_ts};
ghost use Rattle.tg_fold.specs.laws.Laws.{folded_function};
ghost use Rattle.tg_canon_trace_proof.specs.Flattened.{flattened};
ghost use Rattle.tg_code_bounds.specs.Allocating.{Chooses, IsAllocationOf};
ghost use Rattle.tg_compile.specs.glue.Passes.{IsWellFormed, prepared_fragment};

use crate::laws::{flat_code_is_well_marked, instructions_name_their_own, prepared_is_well_formed};
use crate::passes::Passes;
use std::alloc::Global;
use tg_base::Memory;
use tg_canon::linearize;
use tg_fold::fold;
use tg_frame::Frame;
use tg_instr::Code;
use tg_irc_definition::SpillPolicy;
use tg_munch::munch;
use tg_redundancy::known;
use tg_regalloc::{Allocation, allocate};
use tg_trace_schedule::{blocks, trace};
use tg_tree::{Fragment, Linear, Ts};

/// The code of a function over registers, with the passes that are switched on; what is spilled is
/// the policy's choice. After `Memory` the policy may have been asked.
pub(crate) fn compile_function(
    alloc: Global,
    one: Fragment,
    passes: Passes,
    policy: &mut dyn SpillPolicy,
) -> Result<Allocation, Memory>
    requires { IsWellFormed (plain_fragment one) }
    ensures compiles { IfOk result
        (λ a. IsAllocationOf (rule policy.old) (prepared_fragment passes one) a) }
    ensures same { rule policy.new ≡ rule policy.old }
{
    prepared_is_well_formed();
    let prepared = prepare(alloc, one, passes)?;
    let Fragment { frame, body } = prepared;
    let mut frame = frame;
    let code = choose(alloc, &mut frame, body)?;
    instructions_name_their_own();
    Ok(allocate(alloc, &code, frame, policy)?)
}

/// A function as the passes over trees leave it.
#[tactic(auto, using(crate::proofs::Preparing::left_as_it_is, crate::proofs::Preparing::folded_where_asked))]
fn prepare(alloc: Global, one: Fragment, passes: Passes) -> Result<Fragment, Memory>
    ensures { IfOk result (λ f. plain_fragment f ≡ prepared_fragment passes one) }
{
    if passes.fold {
        return Ok(fold_body(alloc, one)?);
    }
    Ok(one)
}

/// A function with its body folded.
fn fold_body(alloc: Global, one: Fragment) -> Result<Fragment, Memory>
    ensures { IfOk result (λ f. plain_fragment f ≡ folded_function (plain_fragment one)) }
{
    let Fragment { frame, body } = one;
    let folded = fold(alloc, body)?;
    Ok(Fragment {
        frame,
        body: folded,
    })
}

/// The instructions of a body, over temporaries: those of its canonical statements, cut into basic
/// blocks and laid in traces (Appel, chapters 8 and 9), with known words moved and known tests left
/// out (chapter 17). The frame draws temporaries and gets its outgoing words.
pub fn choose(alloc: Global, frame: &mut Frame, body: Ts) -> Result<Code, Memory>
    requires { IsWellFormed (plain_function frame.old (plain_ts body)) }
    ensures { IfOk result (Chooses (plain_function frame.old (plain_ts body)) frame.new) }
{
    let flat = flatten(alloc, frame, body)?;
    let code = flat.as_slice();
    flat_code_is_well_marked();
    let chosen = munch(alloc, code, frame)?;
    Ok(known(alloc, &chosen)?)
}

/// The flat code of a body: canonical statements, cut into blocks and laid in traces.
fn flatten(alloc: Global, frame: &mut Frame, body: Ts) -> Result<Vec<Linear>, Memory>
    ensures { IfOk result (λ flat. plain_function frame.new (code_of flat.items) ≡
        flattened (plain_function frame.old (plain_ts body))) }
{
    let statements = linearize(alloc, frame, body)?;
    let cut = blocks(alloc, statements)?;
    Ok(trace(alloc, cut)?)
}

ghost use Rattle.std.specs.Prelude.{◌≡◌, IfOk, OnOk};
ghost use Rattle.tg_tree.specs.glue.Plain.{plain_tx};
ghost use Rattle.tg_tree.specs.glue.Lists.{txs_of};
ghost use Rattle.tg_tree.specs.Memory as memory;
ghost use Rattle.tg_translate.specs.mirror.States.{drawn, state_of};
ghost use Rattle.tg_translate.specs.mirror.Wants.{plain_made};
ghost use Rattle.tg_translate.specs.mirror.Scopes as scopes;

use crate::finishing::put;
use crate::homes::{Callee, Within};
use crate::places::frame_at;
use crate::states::TranslationState;
use crate::wants::Made;
use std::alloc::Global;
use tg_base::{Bytes, Memory};
use tg_runtime::Routine;
use tg_tree::{Literal, Tx, call};
use tg_typecheck::{Means, Standard};

fn routine_of(standard: Standard) -> Routine
    ensures { result ≡ scopes.routine_of standard }
{
    match standard {
        Standard::Print => Routine::Print,
        Standard::Flush => Routine::Flush,
        Standard::Getchar => Routine::Getchar,
        Standard::Ord => Routine::Ord,
        Standard::Chr => Routine::Chr,
        Standard::Size => Routine::Size,
        Standard::Substring => Routine::Substring,
        Standard::Concat => Routine::Concat,
        Standard::Not => Routine::Not,
        Standard::Exit => Routine::Exit,
    }
}

/// A call, by what it means. Its arguments are handed in after room for the static link.
pub(crate) fn call_by(
    state: &TranslationState,
    within: Within,
    meaning: Option<Means>,
    arguments: Vec<Tx>,
) -> Result<Tx, Memory>
    ensures { IfOk result (λ x.
        scopes.call within meaning (txs_of arguments.items) (state_of state.now) ≡
        drawn (plain_tx x) (state_of state.now)) }
{
    match meaning {
        Some(Means::Standard(standard)) => Ok(call(routine_of(standard).label(), arguments)),
        Some(Means::Function(at)) => {
            let callee = state.callees.get(at).copied();
            Ok(call_declared(state.alloc, within, arguments, callee)?)
        }
        _ => Ok(Tx::Const(0)),
    }
}

/// A call of a declared function. The first argument is the frame address of the function that
/// declares it.
fn call_declared(
    alloc: Global,
    within: Within,
    mut arguments: Vec<Tx>,
    callee: Option<Callee>,
) -> Result<Tx, Memory>
    ensures { IfOk result (λ x. plain_tx x ≡
        scopes.call_declared within (txs_of arguments.items) callee) }
{
    match callee {
        Some(callee) => {
            arguments.insert(0, frame_at(alloc, within, callee.level)?)?;
            Ok(call(callee.label, arguments))
        }
        None => Ok(Tx::Const(0)),
    }
}

/// A string that stands in the program, a word of length and the bytes, is put where what is made
/// comes.
#[inline(never)]
pub(crate) fn literal(
    state: &mut TranslationState,
    bytes: &Bytes,
    made: &mut Made,
) -> Result<(), Memory>
    ensures { OnOk result (scopes.literal bytes.now (state_of state.old) ≡
        drawn (plain_made made.new) (state_of state.new)) }
{
    let label = state.draw_label()?;
    let text = string_text(state.alloc, bytes.as_slice())?;
    state.literals.push(Literal { label, text })?;
    put(made, Made::Value(Tx::Address(label)));
    Ok(())
}

fn string_text(alloc: Global, bytes: &[u8]) -> Result<Bytes, Memory>
    ensures { IfOk result (λ text. text ≡ memory.string_text bytes.now) }
{
    let length = u32::try_from(bytes.len()).map_err(|_| Memory)?;
    let mut text = Vec::from_slice(alloc, &length.to_le_bytes())?;
    text.extend_from_slice(bytes)?;
    Ok(Bytes::from_vec(text))
}

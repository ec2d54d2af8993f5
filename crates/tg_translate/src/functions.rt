// A static link stands in a slot only where a nested function goes through it, and then in the
// first one.

ghost use Rattle.std.specs.Prelude.{◌≡◌, ◌+◌, length, IfOk, OnOk};
ghost use Rattle.tg_syntax.specs.glue.Plain.{plain_functions};
ghost use Rattle.tg_tree.specs.glue.Plain.{plain_ts};
ghost use Rattle.tg_translate.specs.mirror.States.{drawn, state_of};
ghost use Rattle.tg_translate.specs.mirror.Wants.{plain_made};
ghost use Rattle.tg_translate.specs.mirror.Scopes.{findings_of};
ghost use Rattle.tg_translate.specs.mirror.Functions as functions;

use crate::findings::Findings;
use crate::homes::{Callee, Home, Within};
use crate::returning::give_back;
use crate::states::{Outer, TranslationState, frame_of, next};
use crate::wants::{Made, Want, dropped, value_of};
use std::alloc::Global;
use tg_base::{Label, Memory};
use tg_frame::Access;
use tg_symbols::Table;
use tg_syntax::{FunDecs, Param};
use tg_tree::{Ts, Tx, sequence};

/// Which parameters of a function go into the frame: the static link, which is the first, and its
/// own.
fn asked(
    alloc: Global,
    findings: &Findings,
    link_in_slot: bool,
    params: &[Param],
) -> Result<Vec<bool>, Memory>
    ensures { IfOk result (λ v. v.items ≡
        functions.asked (findings_of findings.now).escapes link_in_slot params.now) }
{
    let mut asked = vec![in alloc; link_in_slot]?;
    for param in params {
        asked.push(findings.escapes(param.name.span.from))?;
    }
    Ok(asked)
}

/// A function's text begins: with a frame of its own, and with its parameters declared.
#[inline(never)]
pub(crate) fn begin(
    findings: &Findings,
    state: &mut TranslationState,
    label: Label,
    link_in_slot: bool,
    params: &[Param],
    level: u32,
) -> Result<Box<Outer>, Memory>
    ensures begun { OnOk result (
        functions.begun (findings_of findings.now).escapes label.0 link_in_slot level params.now
        (state_of state.old) ≡ state_of state.new) }
    ensures functions { IfOk result (λ o. o.value.functions ≡ state.old.functions) }
    ensures frame { IfOk result (λ o. o.value.frame ≡ state.old.frame) }
{
    let alloc = state.alloc;
    let asked = asked(alloc, findings, link_in_slot, params)?;
    let frame = frame_of(alloc, label, &asked)?;
    declare_params(&mut state.homes, level, params, frame.params.as_slice())?;
    Ok(Box::new(alloc, state.open(frame))?)
}

// The homes of parameters are those after the static link's.
fn declare_params(
    table: &mut Table<Home>,
    level: u32,
    params: &[Param],
    homes: &[Access],
) -> Result<(), Memory>
    requires { length homes.now ≡ length params.now + 1 }
    ensures { OnOk result (table.new ≡
        functions.parameters level params.now (functions.own_homes homes.now) table.old) }
{
    let mut at = 1;
    for param in params {
        let access = homes[at];
        table.push(param.name.span.from, Home { level, access })?;
        at += 1;
    }
    Ok(())
}

/// The functions of a group may call each other. Each draws a label, and the group's functions are
/// declared in a function of this level.
#[inline(never)]
pub(crate) fn declare_functions(
    state: &mut TranslationState,
    level: u32,
    group: &FunDecs,
) -> Result<(), Memory>
    ensures { OnOk result (functions.declare_functions level (plain_functions group.now)
        (state_of state.old) ≡ drawn tt (state_of state.new)) }
{
    for function in &group.items {
        let label = state.draw_label()?;
        state
            .callees
            .push(function.name.span.from, Callee { level, label })?;
    }
    Ok(())
}

/// Where the text of a function stands that is declared here.
pub(crate) fn inside(within: Within, link_in_slot: bool) -> Result<Within, Memory>
    ensures { IfOk result (λ w. w ≡ functions.inside within link_in_slot) }
{
    Ok(Within {
        level: next(within.level)?,
        link_in_slot,
        leave: 0,
    })
}

/// What a function wants of its body.
pub(crate) fn result_want(has_result: bool) -> Want
    ensures { result ≡ functions.result_want has_result }
{
    if has_result {
        Want::Value
    } else {
        Want::Dropped
    }
}

/// The statement of a function's body: what has a result gives it back, and anything else gives 0
/// back.
pub(crate) fn closing(
    state: &mut TranslationState,
    has_result: bool,
    made: Made,
) -> Result<Ts, Memory>
    ensures { IfOk result (λ s.
        functions.closing has_result (plain_made made) (state_of state.old) ≡
        drawn (plain_ts s) (state_of state.new)) }
{
    if has_result {
        let value = value_of(state, made)?;
        return Ok(give_back(state.alloc, value)?);
    }
    let alloc = state.alloc;
    let done = dropped(alloc, made)?;
    Ok(sequence(vec![in alloc; done, Ts::Return(Tx::Const(0))]?))
}

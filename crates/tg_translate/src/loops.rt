ghost use Rattle.std.specs.Prelude.{◌≡◌, IfOk};
ghost use Rattle.tg_tree.specs.glue.Plain.{plain_tx, plain_cond, plain_ts};
ghost use Rattle.tg_tree.specs.glue.Lists.{stms_of};
ghost use Rattle.tg_translate.specs.mirror.States.{drawn, state_of};
ghost use Rattle.tg_translate.specs.mirror.Constructs as constructs;

use crate::homes::Within;
use crate::operands::{Operand, hold, keep};
use crate::places::{assign_value, own_place, read};
use crate::returning::in_turn;
use crate::states::{TranslationState, next};
use crate::wants::{nothing, push};
use std::alloc::Global;
use tg_base::{Memory, keep_with, sub};
use tg_frame::Access;
use tg_tree::{Bin, Cond, Rel, Ts, Tx, binary, compare, if_else, repeat, sequence, when};

/// Where a loop's body stands.
pub(crate) fn in_body(within: Within) -> Within
    ensures { result ≡ constructs.in_body within }
{
    Within {
        level: within.level,
        link_in_slot: within.link_in_slot,
        leave: 0,
    }
}

/// Where a loop's test stands: a `break` in it ends the loop outside.
pub(crate) fn in_test(within: Within) -> Result<Within, Memory>
    ensures { IfOk result (λ w. w ≡ constructs.in_test within) }
{
    Ok(Within {
        level: within.level,
        link_in_slot: within.link_in_slot,
        leave: next(within.leave)?,
    })
}

/// A turn again and again, while a condition holds.
pub(crate) fn repeat_while(alloc: Global, test: Cond, turn: Ts) -> Result<Ts, Memory>
    ensures { IfOk result (λ s. plain_ts s ≡
        constructs.repeat_while (plain_cond test) (plain_ts turn)) }
{
    Ok(repeat(alloc, if_else(alloc, test, turn, Ts::Break(0))?)?)
}

/// One below the first value of a loop's variable, by the wrapping forms.
fn first_minus_one(alloc: Global, low: Operand) -> Result<Tx, Memory>
    ensures { IfOk result (λ x. plain_tx x ≡ constructs.first_minus_one low) }
{
    match low {
        Operand::Number(number) => Ok(Tx::Const(sub(number, 1))),
        Operand::Kept(temp) => Ok(binary(alloc, Bin::Sub, Tx::Temp(temp), Tx::Const(1))?),
    }
}

/// The value of a variable of the function at work.
fn read_home(alloc: Global, variable: Access) -> Result<Tx, Memory>
    ensures { IfOk result (λ x. plain_tx x ≡
        constructs.read (constructs.own_place variable)) }
{
    Ok(read(alloc, own_place(alloc, variable)?)?)
}

/// A variable of the function at work becomes a value.
fn assign_home(alloc: Global, variable: Access, value: Tx) -> Result<Ts, Memory>
    ensures { IfOk result (λ s. plain_ts s ≡
        constructs.assign_value (constructs.own_place variable) (plain_tx value)) }
{
    Ok(assign_value(own_place(alloc, variable)?, value)?)
}

/// The turns of a loop that counts, of which there is one at least. The test for the last turn
/// comes before the addition, so the bound may be the greatest int. The variable starts one below
/// its first value, and each turn begins with the addition: so a turn's end is one branch back.
fn turns(
    alloc: Global,
    variable: Access,
    low: Operand,
    high: Operand,
    turn: Ts,
) -> Result<Ts, Memory>
    ensures { IfOk result (λ s. plain_ts s ≡
        constructs.turns variable low high (plain_ts turn)) }
{
    let turn = turn_of(alloc, variable, high, turn)?;
    let again = repeat(alloc, turn)?;
    let (again, first) = keep_with(again, start(alloc, variable, low))?;
    in_turn(alloc, first, again)
}

/// The variable of a loop that counts becomes one below its first value.
fn start(alloc: Global, variable: Access, low: Operand) -> Result<Ts, Memory>
    ensures { IfOk result (λ s. plain_ts s ≡
        constructs.assign_value (constructs.own_place variable)
        (constructs.first_minus_one low)) }
{
    assign_home(alloc, variable, first_minus_one(alloc, low)?)
}

/// A turn of a loop that counts.
fn turn_of(alloc: Global, variable: Access, high: Operand, turn: Ts) -> Result<Ts, Memory>
    ensures { IfOk result (λ s. plain_ts s ≡
        constructs.turn_of variable high (plain_ts turn)) }
{
    let next = binary(alloc, Bin::Add, read_home(alloc, variable)?, Tx::Const(1))?;
    let step = assign_home(alloc, variable, next)?;
    let is_not_last = compare(
        alloc,
        Rel::NotEqual,
        read_home(alloc, variable)?,
        high.tree(),
    )?;
    let stop = if_else(alloc, is_not_last, nothing(alloc), Ts::Break(0))?;
    Ok(sequence(vec![in alloc; step, turn, stop]?))
}

/// A loop that counts from one value to another.
pub(crate) fn count(
    state: &mut TranslationState,
    variable: Access,
    low: Tx,
    high: Tx,
    turn: Ts,
) -> Result<Ts, Memory>
    ensures { IfOk result (λ s.
        constructs.count variable (plain_tx low) (plain_tx high) (plain_ts turn)
        (state_of state.old) ≡ drawn (plain_ts s) (state_of state.new)) }
{
    let mut done = Vec::new(state.alloc);
    let ((high, turn), low) = keep_with((high, turn), hold(state, false, &mut done, low))?;
    let (turn, high) = keep_with(turn, keep(state, &mut done, high))?;
    count_of(state.alloc, done, variable, low, high, turn)
}

fn count_of(
    alloc: Global,
    mut done: Vec<Ts>,
    variable: Access,
    low: Operand,
    high: Operand,
    turn: Ts,
) -> Result<Ts, Memory>
    ensures { IfOk result (λ s. plain_ts s ≡
        constructs.count_of (stms_of done.items) variable low high (plain_ts turn)) }
{
    let turns = turns(alloc, variable, low, high, turn)?;
    let test = compare(alloc, Rel::GreaterEqual, high.tree(), low.tree());
    let (turns, is_run) = keep_with(turns, test)?;
    push(&mut done, when(alloc, is_run, turns)?)?;
    Ok(sequence(done))
}

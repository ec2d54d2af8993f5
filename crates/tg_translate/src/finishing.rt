//! The last step of each construct: what was made of a part is taken out of its place, and what
//! the construct becomes is put there.
//!
//! Each is a call of its own, so a level of the recursion over a program's tree holds no tree on
//! the stack but those that wait for another part.

ghost use Rattle.std.specs.Prelude.{◌≡◌, IfOk, OnOk, map};
ghost use Rattle.tg_tree.specs.Tree as tree;
ghost use Rattle.tg_tree.specs.Forms.{nothing as no_statement};
ghost use Rattle.tg_tree.specs.glue.Plain.{
  plain_tx,
  plain_cond,
  plain_ts,
  plain_function,
  plain_fragment,
};
ghost use Rattle.tg_tree.specs.glue.Lists.{txs_of, stms_of};
ghost use Rattle.tg_translate.specs.mirror.States.{drawn, state_of};
ghost use Rattle.tg_translate.specs.mirror.Wants as wants;
ghost use Rattle.tg_translate.specs.mirror.Wants.{plain_made};
ghost use Rattle.tg_translate.specs.mirror.Constructs as constructs;
ghost use Rattle.tg_translate.specs.mirror.Constructs.{plain_storage, plain_held};
ghost use Rattle.tg_translate.specs.mirror.Scopes as scopes;
ghost use Rattle.tg_translate.specs.mirror.Choices as choices;
ghost use Rattle.tg_translate.specs.mirror.Functions as functions;
ghost use Rattle.tg_translate.specs.glue.Parts as parts;

use crate::calls::call_by;
use crate::constructs::call_with_two;
use crate::creation::make_record;
use crate::functions::closing;
use crate::held::{HeldPlace, hold_place, place_held, read_held};
use crate::homes::Within;
use crate::loops::{count, repeat_while};
use crate::operands::{Operand, hold};
use crate::operators::{chosen, negation, operation, tested};
use crate::places::{Storage, assign, element_place, field_place, own_place, read, variable_place};
use crate::states::{Outer, TranslationState};
use crate::wants::{
    Made, Want, as_statement, behind, deliver, dropped, nothing, push, test_of, value_of,
};
use std::alloc::Global;
use std::mem::replace;
use tg_base::Memory;
use tg_frame::Access;
use tg_runtime::Routine;
use tg_syntax::Op;
use tg_tree::{Cond, Ts, Tx, if_else};
use tg_typecheck::Means;

/// What was made, which is taken out of its place.
#[inline(never)]
pub(crate) fn take(made: &mut Made) -> Made
    ensures { result ≡ made.old }
{
    replace(made, Made::Value(Tx::Const(0)))
}

/// What is made is put into its place.
#[inline(never)]
pub(crate) fn put(made: &mut Made, now: Made)
    ensures { made.new ≡ now }
{
    *made = now;
}

/// A number is put there.
#[inline(never)]
pub(crate) fn put_number(made: &mut Made, number: u32)
    ensures { plain_made made.new ≡ wants.value (tree.Const number) }
{
    put(made, Made::Value(Tx::Const(number)));
}

/// A `break` is put there, which leaves so many loops and one more.
#[inline(never)]
pub(crate) fn put_break(made: &mut Made, leave: u32)
    ensures { plain_made made.new ≡ wants.done (tree.Break leave) }
{
    put(made, Made::Done(Ts::Break(leave)));
}

/// The value of a read is put there.
#[inline(never)]
pub(crate) fn put_read(made: &mut Made, read: Box<Tx>)
    ensures { plain_made made.new ≡ wants.value (plain_tx read.value) }
{
    put(made, Made::Value(Box::into_inner(read)));
}

/// The value of what was made, in a box, which a caller can hold where a step may fail.
#[inline(never)]
pub(crate) fn take_value(state: &mut TranslationState, made: &mut Made) -> Result<Box<Tx>, Memory>
    ensures { IfOk result (λ x. wants.value_of (plain_made made.old) (state_of state.old) ≡
        drawn (plain_tx x.value) (state_of state.new)) }
{
    let value = value_of(state, take(made))?;
    Ok(Box::new(state.alloc, value)?)
}

/// The condition that what was made is true.
#[inline(never)]
pub(crate) fn take_test(alloc: Global, made: &mut Made) -> Result<Box<Cond>, Memory>
    ensures { IfOk result (λ c. plain_cond c.value ≡ wants.test_of (plain_made made.old)) }
{
    let test = test_of(alloc, take(made))?;
    Ok(Box::new(alloc, test)?)
}

/// The condition of a choice and its first arm.
#[derive(Drop)]
pub(crate) struct FirstArm {
    pub(crate) test: Cond,
    pub(crate) this: Box<Ts>,
}

/// The statement of an arm, as a part of a choice.
fn take_arm(alloc: Global, arms: Want, made: &mut Made) -> Result<Box<Ts>, Memory>
    ensures { IfOk result (λ s.
        plain_ts s.value ≡ wants.as_statement arms (plain_made made.old)) }
{
    let done = as_statement(alloc, arms, take(made))?;
    Ok(Box::new(alloc, done)?)
}

/// The condition of a choice and its first arm, which was made, are kept.
#[inline(never)]
pub(crate) fn keep_arm(
    alloc: Global,
    arms: Want,
    test: Box<Cond>,
    made: &mut Made,
) -> Result<Box<FirstArm>, Memory>
    ensures test { IfOk result (λ first. first.value.test ≡ test.value) }
    ensures arm { IfOk result (λ first.
        plain_ts first.value.this.value ≡ wants.as_statement arms (plain_made made.old)) }
{
    let this = take_arm(alloc, arms, made)?;
    let test = Box::into_inner(test);
    Ok(Box::new(alloc, FirstArm { test, this })?)
}

/// What was made stands after others, without its value.
#[inline(never)]
pub(crate) fn push_dropped(
    alloc: Global,
    before: &mut Vec<Ts>,
    made: &mut Made,
) -> Result<(), Memory>
    ensures { OnOk result (stms_of before.new.items ≡
        wants.followed (stms_of before.old.items) (wants.dropped (plain_made made.old))) }
{
    let done = dropped(alloc, take(made))?;
    push(before, done)?;
    Ok(())
}

/// An argument stands after others.
#[tactic(auto, using(crate::proofs::Lists::value_pushed))]
#[inline(never)]
pub(crate) fn push_value(
    state: &mut TranslationState,
    before: &mut Vec<Tx>,
    made: &mut Made,
) -> Result<(), Memory>
    ensures { OnOk result (
        parts.on_value_of (plain_made made.old) (parts.after_values (txs_of before.old.items))
        (state_of state.old) ≡ drawn (txs_of before.new.items) (state_of state.new)) }
{
    let value = value_of(state, take(made))?;
    before.push(value)?;
    Ok(())
}

/// A field's value is kept after those before it.
#[inline(never)]
pub(crate) fn push_field(
    state: &mut TranslationState,
    direct: bool,
    before: &mut Vec<Ts>,
    operands: &mut Vec<Operand>,
    made: &mut Made,
) -> Result<(), Memory>
    ensures { OnOk result (
        parts.on_value_of (plain_made made.old) (constructs.hold_next direct
        (record { before = stms_of before.old.items; operands = operands.old.items }))
        (state_of state.old) ≡
        drawn (record { before = stms_of before.new.items; operands = operands.new.items })
        (state_of state.new)) }
{
    let value = value_of(state, take(made))?;
    let operand = hold(state, direct, before, value)?;
    operands.push(operand)?;
    Ok(())
}

/// What was made, after statements, which are taken.
#[inline(never)]
pub(crate) fn stand_behind(
    state: &mut TranslationState,
    want: Want,
    before: &mut Vec<Ts>,
    made: &mut Made,
) -> Result<(), Memory>
    ensures { OnOk result (
        wants.behind want (stms_of before.old.items) (plain_made made.old) (state_of state.old) ≡
        drawn (plain_made made.new) (state_of state.new)) }
{
    let before = replace(before, Vec::new(state.alloc));
    let all = behind(state, want, before, take(made))?;
    put(made, all);
    Ok(())
}

/// The value that stands in a place is put there.
#[inline(never)]
pub(crate) fn put_value_of(
    alloc: Global,
    place: Box<Storage>,
    made: &mut Made,
) -> Result<(), Memory>
    ensures { OnOk result (plain_made made.new ≡
        wants.value (constructs.read (plain_storage place.value))) }
{
    let value = read(alloc, Box::into_inner(place))?;
    put(made, Made::Value(value));
    Ok(())
}

/// A call, by what it means.
#[inline(never)]
pub(crate) fn call_with(
    state: &TranslationState,
    within: &Within,
    meaning: Option<Means>,
    arguments: Vec<Tx>,
    made: &mut Made,
) -> Result<(), Memory>
    ensures { OnOk result (
        parts.called_with within.now meaning (txs_of arguments.items) (state_of state.now) ≡
        drawn (plain_made made.new) (state_of state.now)) }
{
    let value = call_by(state, *within, meaning, arguments)?;
    put(made, Made::Value(value));
    Ok(())
}

/// A negation, whose operand was made.
#[inline(never)]
pub(crate) fn negate(state: &mut TranslationState, made: &mut Made) -> Result<(), Memory>
    ensures { OnOk result (
        parts.on_value_of (plain_made made.old) parts.negated (state_of state.old) ≡
        drawn (plain_made made.new) (state_of state.new)) }
{
    let value = value_of(state, take(made))?;
    let value = negation(state.alloc, value)?;
    put(made, Made::Value(value));
    Ok(())
}

/// An operator, whose right side was made.
#[inline(never)]
pub(crate) fn operate(
    state: &mut TranslationState,
    op: Op,
    of_strings: bool,
    direct: bool,
    left: Box<Tx>,
    made: &mut Made,
) -> Result<(), Memory>
    ensures { OnOk result (
        parts.on_value_of (plain_made made.old)
        (constructs.operation op of_strings direct (plain_tx left.value)) (state_of state.old) ≡
        drawn (plain_made made.new) (state_of state.new)) }
{
    let right = value_of(state, take(made))?;
    let value = operation(state, op, of_strings, direct, Box::into_inner(left), right)?;
    put(made, value);
    Ok(())
}

/// `&` or `|` where a condition is wanted, whose right side was made.
#[inline(never)]
pub(crate) fn join_tests(
    alloc: Global,
    op: Op,
    left: Box<Cond>,
    made: &mut Made,
) -> Result<(), Memory>
    ensures { OnOk result (plain_made made.new ≡
        choices.tested op (plain_cond left.value) (plain_made made.old)) }
{
    let both = tested(alloc, op, Box::into_inner(left), take(made))?;
    put(made, both);
    Ok(())
}

/// `&` or `|` as a choice, whose right side was made.
#[inline(never)]
pub(crate) fn join_arms(
    alloc: Global,
    op: Op,
    want: Want,
    arms: Want,
    left: Box<Cond>,
    made: &mut Made,
) -> Result<(), Memory>
    ensures { OnOk result (plain_made made.new ≡
        wants.deliver want arms
        (choices.chosen op arms (plain_cond left.value) (plain_made made.old))) }
{
    let choice = chosen(alloc, op, arms, Box::into_inner(left), take(made))?;
    let all = deliver(alloc, want, arms, choice)?;
    put(made, all);
    Ok(())
}

/// A choice, whose second arm was made.
#[inline(never)]
pub(crate) fn choose(
    alloc: Global,
    want: Want,
    arms: Want,
    first: Box<FirstArm>,
    made: &mut Made,
) -> Result<(), Memory>
    ensures { OnOk result (plain_made made.new ≡
        wants.deliver want arms (tree.If (plain_cond first.value.test)
        (plain_ts first.value.this.value) (wants.as_statement arms (plain_made made.old)))) }
{
    let other = take_arm(alloc, arms, made)?;
    let FirstArm { test, this } = Box::into_inner(first);
    let all = deliver(alloc, want, arms, Ts::If(test, this, other))?;
    put(made, all);
    Ok(())
}

/// What is done where a condition holds, which was made.
#[inline(never)]
pub(crate) fn do_when(alloc: Global, test: Box<Cond>, made: &mut Made) -> Result<(), Memory>
    ensures { OnOk result (plain_made made.new ≡ wants.done
        (tree.If (plain_cond test.value) (wants.dropped (plain_made made.old)) no_statement)) }
{
    let this = dropped(alloc, take(made))?;
    let choice = if_else(alloc, Box::into_inner(test), this, nothing(alloc))?;
    put(made, Made::Done(choice));
    Ok(())
}

/// What is done while a condition holds, which was made.
#[inline(never)]
pub(crate) fn do_while(alloc: Global, test: Box<Cond>, made: &mut Made) -> Result<(), Memory>
    ensures { OnOk result (plain_made made.new ≡ wants.done
        (constructs.repeat_while (plain_cond test.value) (wants.dropped (plain_made made.old)))) }
{
    let turn = dropped(alloc, take(made))?;
    let all = repeat_while(alloc, Box::into_inner(test), turn)?;
    put(made, Made::Done(all));
    Ok(())
}

/// What is done for each value of a variable, which was made.
#[inline(never)]
pub(crate) fn do_for(
    state: &mut TranslationState,
    variable: Access,
    low: Box<Tx>,
    high: Box<Tx>,
    made: &mut Made,
) -> Result<(), Memory>
    ensures { OnOk result (
        parts.done_of (constructs.count variable (plain_tx low.value) (plain_tx high.value)
        (wants.dropped (plain_made made.old))) (state_of state.old) ≡
        drawn (plain_made made.new) (state_of state.new)) }
{
    let turn = dropped(state.alloc, take(made))?;
    let all = count(
        state,
        variable,
        Box::into_inner(low),
        Box::into_inner(high),
        turn,
    )?;
    put(made, Made::Done(all));
    Ok(())
}

/// A record, whose fields' values are kept.
#[inline(never)]
pub(crate) fn create(
    state: &mut TranslationState,
    before: Vec<Ts>,
    operands: &[Operand],
    made: &mut Made,
) -> Result<(), Memory>
    ensures { OnOk result (
        constructs.make_record (record { before = stms_of before.items; operands = operands.now })
        (state_of state.old) ≡ drawn (plain_made made.new) (state_of state.new)) }
{
    let all = make_record(state, before, operands)?;
    put(made, all);
    Ok(())
}

/// An array of a size, whose first values were made.
#[inline(never)]
pub(crate) fn fill(
    state: &mut TranslationState,
    size: Box<Tx>,
    made: &mut Made,
) -> Result<(), Memory>
    ensures { OnOk result (
        parts.on_value_of (plain_made made.old) (parts.filled_with (plain_tx size.value))
        (state_of state.old) ≡ drawn (plain_made made.new) (state_of state.new)) }
{
    let item = value_of(state, take(made))?;
    let size = Box::into_inner(size);
    let array = call_with_two(state.alloc, Routine::MakeArray, size, item)?;
    put(made, Made::Value(array));
    Ok(())
}

/// The place of a variable, by what its use means.
#[inline(never)]
pub(crate) fn variable_at(
    state: &TranslationState,
    within: &Within,
    meaning: Option<Means>,
) -> Result<Box<Storage>, Memory>
    ensures { IfOk result (λ p.
        scopes.variable_place within.now meaning (state_of state.now) ≡
        drawn (plain_storage p.value) (state_of state.now)) }
{
    let place = variable_place(state, *within, meaning)?;
    Ok(Box::new(state.alloc, place)?)
}

/// The place of a field of the record that stands in a place.
#[inline(never)]
pub(crate) fn field_at(
    state: &mut TranslationState,
    field: u32,
    place: Box<Storage>,
) -> Result<Box<Storage>, Memory>
    ensures { IfOk result (λ p.
        constructs.field_place field (constructs.read (plain_storage place.value))
        (state_of state.old) ≡ drawn (plain_storage p.value) (state_of state.new)) }
{
    let record_ = read(state.alloc, Box::into_inner(place))?;
    let place = field_place(state, field, record_)?;
    Ok(Box::new(state.alloc, place)?)
}

/// The array that stands in a place.
#[inline(never)]
pub(crate) fn array_at(alloc: Global, place: Box<Storage>) -> Result<Box<Tx>, Memory>
    ensures { IfOk result (λ x.
        plain_tx x.value ≡ constructs.read (plain_storage place.value)) }
{
    let array = read(alloc, Box::into_inner(place))?;
    Ok(Box::new(alloc, array)?)
}

/// The place of an element of an array, whose index was made.
#[inline(never)]
pub(crate) fn element_at(
    state: &mut TranslationState,
    direct: bool,
    array: Box<Tx>,
    made: &mut Made,
) -> Result<Box<Storage>, Memory>
    ensures { IfOk result (λ p.
        parts.on_value_of (plain_made made.old)
        (constructs.element_place direct (plain_tx array.value)) (state_of state.old) ≡
        drawn (plain_storage p.value) (state_of state.new)) }
{
    let value = value_of(state, take(made))?;
    let place = element_place(state, direct, Box::into_inner(array), value)?;
    Ok(Box::new(state.alloc, place)?)
}

/// A place is kept, to be read first and then assigned.
#[inline(never)]
pub(crate) fn hold_at(
    state: &mut TranslationState,
    place: Box<Storage>,
) -> Result<Box<HeldPlace>, Memory>
    ensures { IfOk result (λ h.
        constructs.hold_place (plain_storage place.value) (state_of state.old) ≡
        drawn (plain_held h.value) (state_of state.new)) }
{
    let held = hold_place(state, Box::into_inner(place))?;
    Ok(Box::new(state.alloc, held)?)
}

/// The value of a place that is kept, after the checks that were made.
#[inline(never)]
pub(crate) fn value_held(alloc: Global, held: &HeldPlace) -> Result<Box<Tx>, Memory>
    ensures { IfOk result (λ x.
        plain_tx x.value ≡ constructs.read_held (plain_held held.now)) }
{
    let value = read_held(alloc, held)?;
    Ok(Box::new(alloc, value)?)
}

/// The place that was kept, to be assigned.
#[inline(never)]
pub(crate) fn place_again(alloc: Global, held: Box<HeldPlace>) -> Result<Box<Storage>, Memory>
    ensures { IfOk result (λ p.
        plain_storage p.value ≡ constructs.place_held (plain_held held.value)) }
{
    let place = place_held(alloc, Box::into_inner(held))?;
    Ok(Box::new(alloc, place)?)
}

/// What was made is put into a place.
#[inline(never)]
pub(crate) fn assign_to(
    state: &mut TranslationState,
    place: Box<Storage>,
    made: &mut Made,
) -> Result<(), Memory>
    ensures { OnOk result (
        parts.done_of (constructs.assign (plain_storage place.value) (plain_made made.old))
        (state_of state.old) ≡ drawn (plain_made made.new) (state_of state.new)) }
{
    let all = assign(state, Box::into_inner(place), take(made))?;
    put(made, Made::Done(all));
    Ok(())
}

/// What was made is put into a variable of the function at work, after statements.
#[inline(never)]
pub(crate) fn declare_as(
    state: &mut TranslationState,
    home: Access,
    before: &mut Vec<Ts>,
    made: &mut Made,
) -> Result<(), Memory>
    ensures { OnOk result (
        parts.stand_behind (stms_of before.old.items)
        (constructs.assign (constructs.own_place home) (plain_made made.old)) (state_of state.old) ≡
        drawn (stms_of before.new.items) (state_of state.new)) }
{
    let place = own_place(state.alloc, home)?;
    let all = assign(state, place, take(made))?;
    push(before, all)?;
    Ok(())
}

/// The statement of a function's body, which was made.
#[inline(never)]
pub(crate) fn take_body(
    state: &mut TranslationState,
    has_result: bool,
    made: &mut Made,
) -> Result<Box<Ts>, Memory>
    ensures { IfOk result (λ s.
        functions.closing has_result (plain_made made.old) (state_of state.old) ≡
        drawn (plain_ts s.value) (state_of state.new)) }
{
    let body = closing(state, has_result, take(made))?;
    Ok(Box::new(state.alloc, body)?)
}

/// A function's text ends, as of `TranslationState::close`.
#[inline(never)]
pub(crate) fn end(
    state: &mut TranslationState,
    outer: Box<Outer>,
    body: Box<Ts>,
) -> Result<(), Memory>
    ensures { OnOk result (state_of state.new ≡
        functions.finished (map plain_fragment outer.value.functions.items)
        (plain_function outer.value.frame tt) (state_of state.old) (plain_ts body.value)) }
{
    state.close(Box::into_inner(outer), Box::into_inner(body))?;
    Ok(())
}

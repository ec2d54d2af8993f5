// What an expression becomes is put where the caller says (`made`), and a construct goes on
// after its first part in a function of its own. So a level of the tree takes at most 512 bytes
// of the process's stack, for a function within a function; with values held across the
// recursion it took 3.4 KiB.

ghost use Rattle.std.specs.Prelude.{◌≡◌, [], IfOk, OnOk};
ghost use Rattle.tg_syntax.specs.glue.Plain.{
  plain,
  plain_lvalue as plain_var,
  plain_exps,
  plain_inits,
  plain_dec,
  plain_functions,
};
ghost use Rattle.tg_syntax.specs.glue.Lists.{decs_of};
ghost use Rattle.tg_syntax.specs.Tree.{no_decs};
ghost use Rattle.tg_tree.specs.glue.Plain.{plain_tx, plain_cond, plain_ts};
ghost use Rattle.tg_tree.specs.glue.Lists.{txs_of, stms_of};
ghost use Rattle.tg_tree.specs.Tree.{no_txs, no_stms};
ghost use Rattle.tg_translate.specs.mirror.States.{drawn, state_of};
ghost use Rattle.tg_translate.specs.mirror.Wants as wants;
ghost use Rattle.tg_translate.specs.mirror.Wants.{plain_made};
ghost use Rattle.tg_translate.specs.mirror.Constructs as constructs;
ghost use Rattle.tg_translate.specs.mirror.Constructs.{plain_storage};
ghost use Rattle.tg_translate.specs.mirror.Scopes.{findings_of};
ghost use Rattle.tg_translate.specs.mirror.Translate as translation;
ghost use Rattle.tg_translate.specs.glue.Parts as parts;

use crate::calls::literal;
use crate::findings::Findings;
use crate::finishing::{
    FirstArm, array_at, assign_to, call_with, choose, create, declare_as, do_for, do_when,
    do_while, element_at, end, field_at, fill, hold_at, join_arms, join_tests, keep_arm, negate,
    operate, place_again, push_dropped, push_field, push_value, put_break, put_number, put_read,
    put_value_of, stand_behind, take_body, take_test, take_value, value_held, variable_at,
};
use crate::functions::{begin, declare_functions, inside, result_want};
use crate::homes::Within;
use crate::loops::{in_body, in_test};
use crate::operands::Operand;
use crate::operators::{compares_strings, is_conjunction, left_want};
use crate::places::{Storage, declare_variable, field_number, home_want, want_for};
use crate::purity::{assigns_nothing, inits_assign_nothing};
use crate::states::{TranslationState, next};
use crate::updates::begins_with;
use crate::wants::{Made, Want, arms};
use tg_base::{Label, Memory};
use tg_syntax::{Dec, Decs, Exp, Exps, FunDec, FunDecs, Ident, Inits, Kind, Op, Var};
use tg_tree::{Ts, Tx};

/// What an expression becomes, for what its place wants, is put where what is made comes.
#[cycle(translation)]
#[inline(never)]
pub(crate) fn expression(
    findings: &Findings,
    state: &mut TranslationState,
    e: &Exp,
    want: Want,
    within: &Within,
    made: &mut Made,
) -> Result<(), Memory>
    ensures { OnOk result (
        translation.expression (findings_of findings.now) (plain e.now) want within.now
        (state_of state.old) ≡ drawn (plain_made made.new) (state_of state.new)) }
{
    match &e.kind {
        Kind::Nil => {
            put_number(made, 0);
            Ok(())
        }
        Kind::Int(number) => {
            put_number(made, *number);
            Ok(())
        }
        Kind::Break => {
            put_break(made, within.leave);
            Ok(())
        }
        Kind::Text(bytes) => Ok(literal(state, bytes, made)?),
        Kind::Read(place) => Ok(read(findings, state, place, within, made)?),
        Kind::Call(f, arguments) => Ok(call(findings, state, *f, arguments, within, made)?),
        Kind::Neg(a) => Ok(negation(findings, state, a, within, made)?),
        Kind::Binary(op, at, a, b) => {
            expression(findings, state, a, left_want(*op), within, made)?;
            Ok(with_left(findings, state, b, *op, *at, want, within, made)?)
        }
        Kind::Make(_, inits) => Ok(creation(findings, state, inits, within, made)?),
        Kind::Fill(_, size, item) => {
            expression(findings, state, size, Want::Value, within, made)?;
            Ok(array(findings, state, item, within, made)?)
        }
        Kind::Assign(v, a) => {
            let place = locate(findings, state, v, within, made)?;
            if begins_with(findings, a, v) {
                Ok(update(findings, state, a, place, within, made)?)
            } else {
                Ok(assign(findings, state, a, place, within, made)?)
            }
        }
        Kind::If(test, this, Some(other)) => {
            expression(findings, state, test, Want::Test, within, made)?;
            if is_conjunction(want, other) {
                return Ok(connective(findings, state, this, Op::And, want, within, made)?);
            }
            let arms = arms(state, want)?;
            let first = first_arm(findings, state, this, arms, within, made)?;
            Ok(second_arm(findings, state, other, first, want, arms, within, made)?)
        }
        Kind::If(test, this, None) => {
            expression(findings, state, test, Want::Test, within, made)?;
            Ok(when(findings, state, this, within, made)?)
        }
        Kind::While(test, body) => {
            let test_within = in_test(*within)?;
            expression(findings, state, test, Want::Test, &test_within, made)?;
            Ok(while_loop(findings, state, body, within, made)?)
        }
        Kind::For(x, low, high, body) => {
            expression(findings, state, low, Want::Value, within, made)?;
            let low = low_then(findings, state, high, within, made)?;
            Ok(for_loop(findings, state, body, *x, low, within, made)?)
        }
        Kind::Let(decs, body) => {
            let before = declarations(findings, state, decs, within, made)?;
            Ok(scope(findings, state, body, before, want, within, made)?)
        }
        Kind::Seq(items) => Ok(items_of(findings, state, items, want, within, made)?),
    }
}

// The value of a place.
#[cycle(translation)]
#[inline(never)]
fn read(
    findings: &Findings,
    state: &mut TranslationState,
    place: &Var,
    within: &Within,
    made: &mut Made,
) -> Result<(), Memory>
    ensures { OnOk result (
        parts.read_in (findings_of findings.now) (plain_var place.now) within.now
        (state_of state.old) ≡ drawn (plain_made made.new) (state_of state.new)) }
{
    let place = locate(findings, state, place, within, made)?;
    Ok(put_value_of(state.alloc, place, made)?)
}

// A call.
#[cycle(translation)]
#[inline(never)]
fn call(
    findings: &Findings,
    state: &mut TranslationState,
    f: Ident,
    arguments: &Exps,
    within: &Within,
    made: &mut Made,
) -> Result<(), Memory>
    ensures { OnOk result (
        parts.called (findings_of findings.now) f (plain_exps arguments.now) within.now
        (state_of state.old) ≡ drawn (plain_made made.new) (state_of state.new)) }
{
    let arguments = values(findings, state, arguments, within, made)?;
    let meaning = findings.meaning(f.span.from);
    Ok(call_with(state, within, meaning, arguments, made)?)
}

// A negation.
#[cycle(translation)]
#[inline(never)]
fn negation(
    findings: &Findings,
    state: &mut TranslationState,
    a: &Exp,
    within: &Within,
    made: &mut Made,
) -> Result<(), Memory>
    ensures { OnOk result (
        parts.negation_in (findings_of findings.now) (plain a.now) within.now
        (state_of state.old) ≡ drawn (plain_made made.new) (state_of state.new)) }
{
    expression(findings, state, a, Want::Value, within, made)?;
    Ok(negate(state, made)?)
}

// An operator whose left side was made. Each function below that completes a construct of several
// parts finds what its first part became in `made`, and takes it from there.
#[cycle(translation)]
#[inline(never)]
fn with_left(
    findings: &Findings,
    state: &mut TranslationState,
    b: &Exp,
    op: Op,
    at: u32,
    want: Want,
    within: &Within,
    made: &mut Made,
) -> Result<(), Memory>
    ensures { OnOk result (
        parts.with_left_in (findings_of findings.now) op at (plain_made made.old) (plain b.now) want
        within.now
        (state_of state.old) ≡ drawn (plain_made made.new) (state_of state.new)) }
{
    match op {
        Op::And | Op::Or => Ok(connective(findings, state, b, op, want, within, made)?),
        _ => Ok(operation(findings, state, b, op, at, within, made)?),
    }
}

// An operator between two values, whose left side was made.
#[cycle(translation)]
#[inline(never)]
fn operation(
    findings: &Findings,
    state: &mut TranslationState,
    b: &Exp,
    op: Op,
    at: u32,
    within: &Within,
    made: &mut Made,
) -> Result<(), Memory>
    ensures { OnOk result (
        parts.operation_in (findings_of findings.now) op at (plain_made made.old) (plain b.now)
        within.now
        (state_of state.old) ≡ drawn (plain_made made.new) (state_of state.new)) }
{
    let left = take_value(state, made)?;
    expression(findings, state, b, Want::Value, within, made)?;
    let of_strings = compares_strings(findings.meaning(at));
    let direct = assigns_nothing(b);
    Ok(operate(state, op, of_strings, direct, left, made)?)
}

// `&` or `|`, whose left side was made, as a condition.
#[cycle(translation)]
#[inline(never)]
fn connective(
    findings: &Findings,
    state: &mut TranslationState,
    b: &Exp,
    op: Op,
    want: Want,
    within: &Within,
    made: &mut Made,
) -> Result<(), Memory>
    ensures { OnOk result (
        parts.connective_in (findings_of findings.now) op (wants.test_of (plain_made made.old))
        (plain b.now) want within.now
        (state_of state.old) ≡ drawn (plain_made made.new) (state_of state.new)) }
{
    let left = take_test(state.alloc, made)?;
    match want {
        Want::Test => {
            expression(findings, state, b, Want::Test, within, made)?;
            Ok(join_tests(state.alloc, op, left, made)?)
        }
        _ => {
            let arms = arms(state, want)?;
            expression(findings, state, b, arms, within, made)?;
            Ok(join_arms(state.alloc, op, want, arms, left, made)?)
        }
    }
}

// A record.
#[cycle(translation)]
#[inline(never)]
fn creation(
    findings: &Findings,
    state: &mut TranslationState,
    inits: &Inits,
    within: &Within,
    made: &mut Made,
) -> Result<(), Memory>
    ensures { OnOk result (
        parts.made_record (findings_of findings.now) (plain_inits inits.now) within.now
        (state_of state.old) ≡ drawn (plain_made made.new) (state_of state.new)) }
{
    let direct = inits_assign_nothing(inits);
    let mut before = Vec::new(state.alloc);
    let operands = fields(findings, state, inits, &mut before, direct, within, made)?;
    Ok(create(state, before, &operands, made)?)
}

// An array, whose size was made.
#[cycle(translation)]
#[inline(never)]
fn array(
    findings: &Findings,
    state: &mut TranslationState,
    item: &Exp,
    within: &Within,
    made: &mut Made,
) -> Result<(), Memory>
    ensures { OnOk result (
        parts.filled (findings_of findings.now) (plain_made made.old) (plain item.now) within.now
        (state_of state.old) ≡ drawn (plain_made made.new) (state_of state.new)) }
{
    let size = take_value(state, made)?;
    expression(findings, state, item, Want::Value, within, made)?;
    Ok(fill(state, size, made)?)
}

// An assignment to a place.
#[cycle(translation)]
#[inline(never)]
fn assign(
    findings: &Findings,
    state: &mut TranslationState,
    e: &Exp,
    place: Box<Storage>,
    within: &Within,
    made: &mut Made,
) -> Result<(), Memory>
    ensures { OnOk result (
        parts.done_of (parts.assigned_in (findings_of findings.now) (plain_storage place.value)
        (plain e.now) within.now)
        (state_of state.old) ≡ drawn (plain_made made.new) (state_of state.new)) }
{
    let want = want_for(&place);
    expression(findings, state, e, want, within, made)?;
    Ok(assign_to(state, place, made)?)
}

// An assignment to a place of a value that begins with a read of it.
#[cycle(translation)]
#[inline(never)]
fn update(
    findings: &Findings,
    state: &mut TranslationState,
    e: &Exp,
    place: Box<Storage>,
    within: &Within,
    made: &mut Made,
) -> Result<(), Memory>
    ensures { OnOk result (
        parts.done_of (parts.updated_in (findings_of findings.now) (plain_storage place.value)
        (plain e.now) within.now)
        (state_of state.old) ≡ drawn (plain_made made.new) (state_of state.new)) }
{
    let held = hold_at(state, place)?;
    let read = value_held(state.alloc, &held)?;
    let place = place_again(state.alloc, held)?;
    let want = want_for(&place);
    behind_read(findings, state, e, read, want, within, made)?;
    Ok(assign_to(state, place, made)?)
}

// An expression that begins with a read whose value is known.
#[cycle(translation)]
#[inline(never)]
fn behind_read(
    findings: &Findings,
    state: &mut TranslationState,
    e: &Exp,
    read: Box<Tx>,
    want: Want,
    within: &Within,
    made: &mut Made,
) -> Result<(), Memory>
    ensures { OnOk result (
        translation.behind_read (findings_of findings.now) (plain e.now) (plain_tx read.value) want
        within.now
        (state_of state.old) ≡ drawn (plain_made made.new) (state_of state.new)) }
{
    match &e.kind {
        Kind::Binary(op, at, a, b) => {
            behind_read(findings, state, a, read, left_want(*op), within, made)?;
            Ok(with_left(findings, state, b, *op, *at, want, within, made)?)
        }
        _ => {
            put_read(made, read);
            Ok(())
        }
    }
}

// The first arm of a choice, whose condition was made: both are kept.
#[cycle(translation)]
#[inline(never)]
fn first_arm(
    findings: &Findings,
    state: &mut TranslationState,
    this: &Exp,
    arms: Want,
    within: &Within,
    made: &mut Made,
) -> Result<Box<FirstArm>, Memory>
    ensures test { IfOk result (λ first.
        plain_cond first.value.test ≡ wants.test_of (plain_made made.old)) }
    ensures arm { IfOk result (λ first.
        parts.arm_in (findings_of findings.now) (plain this.now) arms within.now
        (state_of state.old) ≡ drawn (plain_ts first.value.this.value) (state_of state.new)) }
{
    let test = take_test(state.alloc, made)?;
    expression(findings, state, this, arms, within, made)?;
    Ok(keep_arm(state.alloc, arms, test, made)?)
}

// The second arm of a choice, and with it the choice.
#[cycle(translation)]
#[inline(never)]
fn second_arm(
    findings: &Findings,
    state: &mut TranslationState,
    other: &Exp,
    first: Box<FirstArm>,
    want: Want,
    arms: Want,
    within: &Within,
    made: &mut Made,
) -> Result<(), Memory>
    ensures { OnOk result (
        parts.chosen_with (findings_of findings.now) (plain_cond first.value.test)
        (plain_ts first.value.this.value) (plain other.now) want arms within.now
        (state_of state.old) ≡ drawn (plain_made made.new) (state_of state.new)) }
{
    expression(findings, state, other, arms, within, made)?;
    Ok(choose(state.alloc, want, arms, first, made)?)
}

// What is done where a condition holds, which was made.
#[cycle(translation)]
#[inline(never)]
fn when(
    findings: &Findings,
    state: &mut TranslationState,
    this: &Exp,
    within: &Within,
    made: &mut Made,
) -> Result<(), Memory>
    ensures { OnOk result (
        parts.when_true (findings_of findings.now) (wants.test_of (plain_made made.old))
        (plain this.now) within.now
        (state_of state.old) ≡ drawn (plain_made made.new) (state_of state.new)) }
{
    let test = take_test(state.alloc, made)?;
    expression(findings, state, this, Want::Dropped, within, made)?;
    Ok(do_when(state.alloc, test, made)?)
}

// What is done while a condition holds, which was made.
#[cycle(translation)]
#[inline(never)]
fn while_loop(
    findings: &Findings,
    state: &mut TranslationState,
    body: &Exp,
    within: &Within,
    made: &mut Made,
) -> Result<(), Memory>
    ensures { OnOk result (
        parts.turned (findings_of findings.now) (wants.test_of (plain_made made.old))
        (plain body.now) within.now
        (state_of state.old) ≡ drawn (plain_made made.new) (state_of state.new)) }
{
    let test = take_test(state.alloc, made)?;
    let body_within = in_body(*within);
    expression(findings, state, body, Want::Dropped, &body_within, made)?;
    Ok(do_while(state.alloc, test, made)?)
}

// The last value of a loop's variable, whose first value was made and is kept.
#[cycle(translation)]
#[inline(never)]
fn low_then(
    findings: &Findings,
    state: &mut TranslationState,
    high: &Exp,
    within: &Within,
    made: &mut Made,
) -> Result<Box<Tx>, Memory>
    ensures { IfOk result (λ low.
        parts.low_then (findings_of findings.now) (plain_made made.old) (plain high.now) within.now
        (state_of state.old) ≡
        drawn (record { low = plain_tx low.value; high = plain_made made.new })
        (state_of state.new)) }
{
    let low = take_value(state, made)?;
    expression(findings, state, high, Want::Value, within, made)?;
    Ok(low)
}

// What is done for each value of a variable, whose last one was made.
#[cycle(translation)]
#[inline(never)]
fn for_loop(
    findings: &Findings,
    state: &mut TranslationState,
    body: &Exp,
    x: Ident,
    low: Box<Tx>,
    within: &Within,
    made: &mut Made,
) -> Result<(), Memory>
    ensures { OnOk result (
        parts.counted_to (findings_of findings.now) x (plain_tx low.value) (plain_made made.old)
        (plain body.now) within.now
        (state_of state.old) ≡ drawn (plain_made made.new) (state_of state.new)) }
{
    let high = take_value(state, made)?;
    let variable = declare_variable(findings, state, within.level, x.span.from)?;
    let body_within = in_body(*within);
    expression(findings, state, body, Want::Dropped, &body_within, made)?;
    Ok(do_for(state, variable, low, high, made)?)
}

// The place of an l-value.
#[cycle(translation)]
#[inline(never)]
fn locate(
    findings: &Findings,
    state: &mut TranslationState,
    place: &Var,
    within: &Within,
    made: &mut Made,
) -> Result<Box<Storage>, Memory>
    ensures { IfOk result (λ p.
        translation.locate (findings_of findings.now) (plain_var place.now) within.now
        (state_of state.old) ≡ drawn (plain_storage p.value) (state_of state.new)) }
{
    match place {
        Var::Simple(x) => Ok(variable_at(state, within, findings.meaning(x.span.from))?),
        Var::Field(of, field) => {
            let of = locate(findings, state, of, within, made)?;
            let number = field_number(findings.meaning(field.span.from));
            Ok(field_at(state, number, of)?)
        }
        Var::Index(of, index) => {
            let of = locate(findings, state, of, within, made)?;
            Ok(element_of(findings, state, index, of, within, made)?)
        }
    }
}

// The place of an element of the array that stands in a place.
#[cycle(translation)]
#[inline(never)]
fn element_of(
    findings: &Findings,
    state: &mut TranslationState,
    index: &Exp,
    of: Box<Storage>,
    within: &Within,
    made: &mut Made,
) -> Result<Box<Storage>, Memory>
    ensures { IfOk result (λ p.
        parts.indexed (findings_of findings.now) (constructs.read (plain_storage of.value))
        (plain index.now) within.now
        (state_of state.old) ≡ drawn (plain_storage p.value) (state_of state.new)) }
{
    let array = array_at(state.alloc, of)?;
    expression(findings, state, index, Want::Value, within, made)?;
    let direct = assigns_nothing(index);
    Ok(element_at(state, direct, array, made)?)
}

// Arguments, from the left.
#[cycle(translation)]
#[inline(never)]
fn values(
    findings: &Findings,
    state: &mut TranslationState,
    exps: &Exps,
    within: &Within,
    made: &mut Made,
) -> Result<Vec<Tx>, Memory>
    ensures { IfOk result (λ xs.
        translation.values (findings_of findings.now) (plain_exps exps.now) no_txs within.now
        (state_of state.old) ≡ drawn (txs_of xs.items) (state_of state.new)) }
{
    let mut values = Vec::new(state.alloc);
    for e in &exps.items {
        expression(findings, state, e, Want::Value, within, made)?;
        push_value(state, &mut values, made)?;
    }
    Ok(values)
}

// Fields of a creation, from the left, which are kept.
#[cycle(translation)]
#[inline(never)]
fn fields(
    findings: &Findings,
    state: &mut TranslationState,
    inits: &Inits,
    before: &mut Vec<Ts>,
    direct: bool,
    within: &Within,
    made: &mut Made,
) -> Result<Vec<Operand>, Memory>
    ensures { IfOk result (λ all.
        translation.fields (findings_of findings.now) (plain_inits inits.now) direct
        (record { before = stms_of before.old.items; operands = [] }) within.now
        (state_of state.old) ≡
        drawn (record { before = stms_of before.new.items; operands = all.items })
        (state_of state.new)) }
{
    let mut operands = Vec::new(state.alloc);
    for init in &inits.items {
        expression(findings, state, &init.value, Want::Value, within, made)?;
        push_field(state, direct, before, &mut operands, made)?;
    }
    Ok(operands)
}

// Expressions in the scope of declarations, whose statements stand before them.
#[cycle(translation)]
#[inline(never)]
fn scope(
    findings: &Findings,
    state: &mut TranslationState,
    body: &Exps,
    before: Box<Vec<Ts>>,
    want: Want,
    within: &Within,
    made: &mut Made,
) -> Result<(), Memory>
    ensures { OnOk result (
        parts.sequence_in (findings_of findings.now) (plain_exps body.now) want
        (stms_of before.value.items) within.now
        (state_of state.old) ≡ drawn (plain_made made.new) (state_of state.new)) }
{
    let mut before = Box::into_inner(before);
    Ok(sequence(findings, state, body, &mut before, want, within, made)?)
}

// Expressions, one after another.
#[cycle(translation)]
#[inline(never)]
fn items_of(
    findings: &Findings,
    state: &mut TranslationState,
    items: &Exps,
    want: Want,
    within: &Within,
    made: &mut Made,
) -> Result<(), Memory>
    ensures { OnOk result (
        parts.sequence_in (findings_of findings.now) (plain_exps items.now) want no_stms within.now
        (state_of state.old) ≡ drawn (plain_made made.new) (state_of state.new)) }
{
    let mut before = Vec::new(state.alloc);
    Ok(sequence(findings, state, items, &mut before, want, within, made)?)
}

// Expressions after statements: all but the last are dropped, the last is what their place wants.
#[cycle(translation)]
#[inline(never)]
fn sequence(
    findings: &Findings,
    state: &mut TranslationState,
    exps: &Exps,
    before: &mut Vec<Ts>,
    want: Want,
    within: &Within,
    made: &mut Made,
) -> Result<(), Memory>
    ensures { OnOk result (
        parts.sequence_in (findings_of findings.now) (plain_exps exps.now) want
        (stms_of before.old.items) within.now
        (state_of state.old) ≡ drawn (plain_made made.new) (state_of state.new)) }
{
    let mut left = exps.items.len();
    for e in &exps.items {
        left -= 1;
        if left == 0 {
            expression(findings, state, e, want, within, made)?;
            return Ok(stand_behind(state, want, before, made)?);
        }
        expression(findings, state, e, Want::Dropped, within, made)?;
        push_dropped(state.alloc, before, made)?;
    }
    put_number(made, 0);
    Ok(stand_behind(state, want, before, made)?)
}

// The statements of declarations.
#[cycle(translation)]
#[inline(never)]
fn declarations(
    findings: &Findings,
    state: &mut TranslationState,
    decs: &Decs,
    within: &Within,
    made: &mut Made,
) -> Result<Box<Vec<Ts>>, Memory>
    ensures { IfOk result (λ before.
        translation.declarations (findings_of findings.now) (decs_of decs.now.items.items) no_stms
        within.now
        (state_of state.old) ≡ drawn (stms_of before.value.items) (state_of state.new)) }
{
    let mut before = Vec::new(state.alloc);
    for dec in &decs.items {
        declaration(findings, state, dec, &mut before, within, made)?;
    }
    Ok(Box::new(state.alloc, before)?)
}

// A declaration.
#[cycle(translation)]
#[inline(never)]
fn declaration(
    findings: &Findings,
    state: &mut TranslationState,
    dec: &Dec,
    before: &mut Vec<Ts>,
    within: &Within,
    made: &mut Made,
) -> Result<(), Memory>
    ensures { OnOk result (
        translation.declarations (findings_of findings.now) (plain_dec dec.now no_decs)
        (stms_of before.old.items) within.now
        (state_of state.old) ≡ drawn (stms_of before.new.items) (state_of state.new)) }
{
    match dec {
        Dec::Types(_) => Ok(()),
        Dec::Variable(x, _, e) => { Ok(variable(findings, state, *x, e, before, within, made)?) }
        Dec::Functions(group) => {
            let first = state.label;
            declare_functions(state, within.level, group)?;
            Ok(bodies(findings, state, group, first, within, made)?)
        }
    }
}

// The declaration of a variable.
#[cycle(translation)]
#[inline(never)]
fn variable(
    findings: &Findings,
    state: &mut TranslationState,
    x: Ident,
    e: &Exp,
    before: &mut Vec<Ts>,
    within: &Within,
    made: &mut Made,
) -> Result<(), Memory>
    ensures { OnOk result (
        parts.stand_behind (stms_of before.old.items)
        (parts.variable_in (findings_of findings.now) x (plain e.now) within.now)
        (state_of state.old) ≡ drawn (stms_of before.new.items) (state_of state.new)) }
{
    let home = declare_variable(findings, state, within.level, x.span.from)?;
    expression(findings, state, e, home_want(home), within, made)?;
    Ok(declare_as(state, home, before, made)?)
}

// The functions of a group, whose labels go up from this one.
#[cycle(translation)]
#[inline(never)]
fn bodies(
    findings: &Findings,
    state: &mut TranslationState,
    group: &FunDecs,
    first: u32,
    within: &Within,
    made: &mut Made,
) -> Result<(), Memory>
    ensures { OnOk result (
        translation.bodies (findings_of findings.now) (plain_functions group.now) first within.now
        (state_of state.old) ≡ drawn tt (state_of state.new)) }
{
    let mut label = first;
    for function in &group.items {
        body(findings, state, function, Label(label), within, made)?;
        label = next(label)?;
    }
    Ok(())
}

// A function, which is of the next level.
#[cycle(translation)]
#[inline(never)]
fn body(
    findings: &Findings,
    state: &mut TranslationState,
    function: &FunDec,
    label: Label,
    within: &Within,
    made: &mut Made,
) -> Result<(), Memory>
    ensures { OnOk result (
        parts.body_in (findings_of findings.now) function.now label.0 within.now
        (state_of state.old) ≡ drawn tt (state_of state.new)) }
{
    let kept = findings.keeps_link(function.name.span.from);
    let inner = inside(*within, kept)?;
    let outer = begin(
        findings,
        state,
        label,
        kept,
        function.params.as_slice(),
        inner.level,
    )?;
    let has_result = function.result.is_some();
    let want = result_want(has_result);
    expression(findings, state, &function.body, want, &inner, made)?;
    let body = take_body(state, has_result, made)?;
    Ok(end(state, outer, body)?)
}

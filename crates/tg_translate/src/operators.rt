// Sums and products that overflow: the code uses the trapping `add` and `sub`. MIPS I has no
// trapping product: the code compares the product's upper word with the sign of its lower one,
// and where they differ adds 80000000 to itself, which traps.
//
// The division by a number other than 0 and -1 has no check, and the negation of a number is a
// number.

ghost use Rattle.std.specs.Prelude.{◌≡◌, IfOk};
ghost use Rattle.tg_syntax.specs.glue.Plain.{plain};
ghost use Rattle.tg_tree.specs.glue.Plain.{plain_tx, plain_cond, plain_ts};
ghost use Rattle.tg_tree.specs.glue.Lists.{stms_of};
ghost use Rattle.tg_tree.specs.Tree as tree;
ghost use Rattle.tg_translate.specs.mirror.States.{drawn, state_of};
ghost use Rattle.tg_translate.specs.mirror.Wants as wants;
ghost use Rattle.tg_translate.specs.mirror.Wants.{plain_made};
ghost use Rattle.tg_translate.specs.mirror.Constructs as constructs;
ghost use Rattle.tg_translate.specs.mirror.Scopes as scopes;
ghost use Rattle.tg_translate.specs.mirror.Choices as choices;
ghost use Rattle.tg_translate.specs.mirror.Translate as translation;

use crate::constructs::{
    LEAST_INT, MINUS_ONE, call_with_two, product_check, quotient_check, zero_check,
};
use crate::operands::{Operand, hold};
use crate::states::TranslationState;
use crate::wants::{Made, Want, as_statement, push, test_of, value_behind};
use std::alloc::Global;
use tg_base::{Memory, Temp, keep_with, sub};
use tg_runtime::Routine;
use tg_syntax::{Exp, Kind, Op};
use tg_tree::{Bin, Cond, Rel, Ts, Tx, binary, both, compare, either, if_else};
use tg_typecheck::Means;

/// What an operator wants of its left side.
pub(crate) fn left_want(op: Op) -> Want
    ensures { result ≡ choices.left_want op }
{
    match op {
        Op::And | Op::Or => Want::Test,
        _ => Want::Value,
    }
}

/// Both conditions, or one of them.
pub(crate) fn connected(alloc: Global, op: Op, left: Cond, right: Cond) -> Result<Cond, Memory>
    ensures { IfOk result (λ c. plain_cond c ≡
        choices.connected op (plain_cond left) (plain_cond right)) }
{
    match op {
        Op::And => Ok(both(alloc, left, right)?),
        _ => Ok(either(alloc, left, right)?),
    }
}

/// `a & b` is `if a then b else 0`, and `a | b` is `if a then 1 else b`.
pub(crate) fn chosen(
    alloc: Global,
    op: Op,
    arms: Want,
    left: Cond,
    right: Made,
) -> Result<Ts, Memory>
    ensures { IfOk result (λ s. plain_ts s ≡
        choices.chosen op arms (plain_cond left) (plain_made right)) }
{
    let (this, other) = match op {
        Op::And => (right, Made::Value(Tx::Const(0))),
        _ => (Made::Value(Tx::Const(1)), right),
    };
    choice(alloc, arms, left, this, other)
}

/// One of two arms, by a condition.
fn choice(alloc: Global, arms: Want, test: Cond, this: Made, other: Made) -> Result<Ts, Memory>
    ensures { IfOk result (λ s. plain_ts s ≡ tree.If (plain_cond test)
        (wants.as_statement arms (plain_made this))
        (wants.as_statement arms (plain_made other))) }
{
    let ((test, other), this) = keep_with((test, other), as_statement(alloc, arms, this))?;
    let ((test, this), other) = keep_with((test, this), as_statement(alloc, arms, other))?;
    if_else(alloc, test, this, other)
}

/// Whether an expression is the number 0.
fn is_zero(e: &Exp) -> bool
    ensures { result ≡ translation.is_zero (plain e.now) }
{
    matches!(&e.kind, Kind::Int(0))
}

/// Whether a choice is one of two conditions, as `&` is: where a condition is wanted, and its
/// second arm is 0.
pub(crate) fn is_conjunction(want: Want, other: &Exp) -> bool
    ensures { result ≡ translation.is_conjunction want (plain other.now) }
{
    match want {
        Want::Test => is_zero(other),
        _ => false,
    }
}

/// A connective where a condition is wanted.
pub(crate) fn tested(alloc: Global, op: Op, left: Cond, right: Made) -> Result<Made, Memory>
    ensures { IfOk result (λ m. plain_made m ≡
        choices.tested op (plain_cond left) (plain_made right)) }
{
    let right = test_of(alloc, right)?;
    Ok(Made::Test(connected(alloc, op, left, right)?))
}

/// Whether strings are compared, by what the operator means.
pub(crate) fn compares_strings(meaning: Option<Means>) -> bool
    ensures { result ≡ scopes.compares_strings meaning }
{
    matches!(meaning, Some(Means::Content))
}

fn relation(op: Op) -> Rel
    ensures { result ≡ constructs.relation op }
{
    match op {
        Op::Equal => Rel::Equal,
        Op::NotEqual => Rel::NotEqual,
        Op::Less => Rel::Less,
        Op::LessEqual => Rel::LessEqual,
        Op::Greater => Rel::Greater,
        _ => Rel::GreaterEqual,
    }
}

/// Strings are compared by the runtime, which answers their order as an int.
fn comparison(alloc: Global, op: Op, of_strings: bool, left: Tx, right: Tx) -> Result<Cond, Memory>
    ensures { IfOk result (λ c. plain_cond c ≡
        constructs.comparison op of_strings (plain_tx left) (plain_tx right)) }
{
    if of_strings {
        let order = call_with_two(alloc, Routine::Compare, left, right)?;
        Ok(compare(alloc, relation(op), order, Tx::Const(0))?)
    } else {
        Ok(compare(alloc, relation(op), left, right)?)
    }
}

/// A product, which ends the program where it overflows.
fn product(state: &mut TranslationState, direct: bool, left: Tx, right: Tx) -> Result<Made, Memory>
    ensures { IfOk result (λ m.
        constructs.product direct (plain_tx left) (plain_tx right) (state_of state.old) ≡
        drawn (plain_made m) (state_of state.new)) }
{
    let mut done = Vec::new(state.alloc);
    let left = hold(state, direct, &mut done, left)?;
    let right = hold(state, true, &mut done, right)?;
    let to = state.fresh()?;
    Ok(product_of(state.alloc, to, done, left, right)?)
}

fn product_of(
    alloc: Global,
    to: Temp,
    mut done: Vec<Ts>,
    left: Operand,
    right: Operand,
) -> Result<Made, Memory>
    ensures { IfOk result (λ m. plain_made m ≡
        constructs.product_of to.0 (stms_of done.items) (constructs.operand left)
        (constructs.operand right)) }
{
    let low = binary(alloc, Bin::Mul, left.tree(), right.tree())?;
    push(&mut done, Ts::Move(to, low))?;
    let check = product_check(alloc, left.tree(), right.tree(), Tx::Temp(to))?;
    push(&mut done, check)?;
    Ok(value_behind(alloc, done, Tx::Temp(to))?)
}

/// A quotient, which ends the program where the divisor is 0 and where it overflows.
fn checked_quotient(
    state: &mut TranslationState,
    direct: bool,
    left: Tx,
    right: Tx,
) -> Result<Made, Memory>
    ensures { IfOk result (λ m.
        constructs.checked_quotient direct (plain_tx left) (plain_tx right) (state_of state.old) ≡
        drawn (plain_made m) (state_of state.new)) }
{
    let mut done = Vec::new(state.alloc);
    let left = hold(state, direct, &mut done, left)?;
    let right = hold(state, true, &mut done, right)?;
    Ok(quotient_of(state.alloc, done, left, right)?)
}

fn quotient_of(
    alloc: Global,
    mut done: Vec<Ts>,
    left: Operand,
    right: Operand,
) -> Result<Made, Memory>
    ensures { IfOk result (λ m. plain_made m ≡
        constructs.quotient_of (stms_of done.items) (constructs.operand left)
        (constructs.operand right)) }
{
    push(&mut done, zero_check(alloc, right.tree())?)?;
    push(&mut done, quotient_check(alloc, left.tree(), right.tree())?)?;
    let value = binary(alloc, Bin::Div, left.tree(), right.tree())?;
    Ok(value_behind(alloc, done, value)?)
}

/// A quotient. A number other than 0 and -1 divides without a check.
fn quotient(state: &mut TranslationState, direct: bool, left: Tx, right: Tx) -> Result<Made, Memory>
    ensures { IfOk result (λ m.
        constructs.quotient direct (plain_tx left) (plain_tx right) (state_of state.old) ≡
        drawn (plain_made m) (state_of state.new)) }
{
    match right {
        Tx::Const(number) if number != 0 && number != MINUS_ONE => {
            let value = binary(state.alloc, Bin::Div, left, Tx::Const(number))?;
            Ok(Made::Value(value))
        }
        _ => Ok(checked_quotient(state, direct, left, right)?),
    }
}

/// An operator between two values. The left side's temporary may be used itself where the right
/// side assigns nothing, which `direct` says.
pub(crate) fn operation(
    state: &mut TranslationState,
    op: Op,
    of_strings: bool,
    direct: bool,
    left: Tx,
    right: Tx,
) -> Result<Made, Memory>
    ensures { IfOk result (λ m.
        constructs.operation op of_strings direct (plain_tx left) (plain_tx right)
        (state_of state.old) ≡ drawn (plain_made m) (state_of state.new)) }
{
    match op {
        Op::Plus => Ok(Made::Value(binary(state.alloc, Bin::AddTrap, left, right)?)),
        Op::Minus => Ok(Made::Value(binary(state.alloc, Bin::SubTrap, left, right)?)),
        Op::Times => Ok(product(state, direct, left, right)?),
        Op::Divide => Ok(quotient(state, direct, left, right)?),
        _ => Ok(Made::Test(comparison(state.alloc, op, of_strings, left, right)?)),
    }
}

/// A negation. That of a number is a number, unless it overflows.
pub(crate) fn negation(alloc: Global, value: Tx) -> Result<Tx, Memory>
    ensures { IfOk result (λ x. plain_tx x ≡ constructs.negation (plain_tx value)) }
{
    match value {
        Tx::Const(number) if number != LEAST_INT => Ok(Tx::Const(sub(0, number))),
        _ => Ok(binary(alloc, Bin::SubTrap, Tx::Const(0), value)?),
    }
}

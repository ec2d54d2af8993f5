// A condition whose right side is hoisted is tested part by part, in loops that are left at
// their ends. Cutting into blocks makes of it just the jumps of jumping code: no flag, no
// temporary and no second test.

ghost use Rattle.std.specs.Prelude.{◌≡◌, IfOk};
ghost use Rattle.tg_tree.specs.Shapes.{is_flat, is_flat_condition};
ghost use Rattle.tg_tree.specs.Tree as tree;
ghost use Rattle.tg_tree.specs.glue.Plain.{plain_tx, plain_cond};
ghost use Rattle.tg_canon.specs.glue.Views.{plain_part, plain_two, plain_tested};
ghost use Rattle.tg_canon.specs.mirror.Canon as canon;

use crate::hoisted::Two;
use crate::parts::{Part, block, both_parts, leaves, nothing, repeated};
use std::alloc::Global;
use tg_base::{Memory, keep_with};
use tg_tree::{Cond, Rel, Ts, Tx, both, compare, either, if_else, negate};

/// A flat condition after what is hoisted out of it.
#[derive(Drop)]
pub(crate) struct Tested {
    pub(crate) front: Part,
    pub(crate) condition: Cond,
}

fn is_flat_expression(x: &Tx) -> bool
    ensures { result ≡ is_flat (plain_tx x.now) }
{
    match x {
        Tx::Binary(_, left, right) => is_flat_expression(left) && is_flat_expression(right),
        Tx::Load(address) | Tx::LoadByte(address) => is_flat_expression(address),
        Tx::Call(_, _) | Tx::Service(_, _) | Tx::After(_, _) => false,
        _ => true,
    }
}

fn is_flat_test(test: &Cond) -> bool
    ensures { result ≡ is_flat_condition (plain_cond test.now) }
{
    match test {
        Cond::Compare(_, x, y) => is_flat_expression(x) && is_flat_expression(y),
        Cond::Not(inner) => is_flat_test(inner),
        Cond::Both(left, right) | Cond::Either(left, right) => {
            is_flat_test(left) && is_flat_test(right)
        }
    }
}

/// Whether nothing has to be hoisted out of a condition but what can be in front of all of it.
pub(crate) fn is_whole(test: &Cond) -> bool
    ensures { result ≡ canon.is_whole (plain_cond test.now) }
{
    match test {
        Cond::Compare(_, _, _) => true,
        Cond::Not(inner) => is_whole(inner),
        Cond::Both(left, right) | Cond::Either(left, right) => is_whole(left)
            && is_flat_test(right),
    }
}

/// A comparison of two hoisted expressions.
#[inline(never)]
pub(crate) fn compare_both(
    alloc: Global,
    rel: Rel,
    operands: Box<Two>,
) -> Result<Box<Tested>, Memory>
    ensures { IfOk result (λ t.
        plain_tested t.value ≡ canon.compared (tree.Compare rel) (plain_two operands.value)) }
{
    let operands = Box::into_inner(operands);
    let test = compare(alloc, rel, operands.left, operands.right);
    let (front, condition) = keep_with(operands.front, test)?;
    Ok(Box::new(alloc, Tested { front, condition })?)
}

/// The opposite.
#[inline(never)]
pub(crate) fn opposite(alloc: Global, test: Box<Tested>) -> Result<Box<Tested>, Memory>
    ensures { IfOk result (λ t. plain_tested t.value ≡ canon.opposite (plain_tested test.value)) }
{
    let test = Box::into_inner(test);
    let (front, condition) = keep_with(test.front, negate(alloc, test.condition))?;
    Ok(Box::new(alloc, Tested { front, condition })?)
}

/// Whether both hold.
#[inline(never)]
pub(crate) fn and(
    alloc: Global,
    left: Box<Tested>,
    right: Box<Tested>,
) -> Result<Box<Tested>, Memory>
    ensures { IfOk result (λ t. plain_tested t.value
        ≡ canon.joined tree.Both (plain_tested left.value) (plain_tested right.value)) }
{
    let (left, right) = (Box::into_inner(left), Box::into_inner(right));
    let tests = (left.condition, right.condition);
    let (tests, front) = keep_with(tests, left.front.before(alloc, right.front))?;
    let (front, condition) = keep_with(front, both(alloc, tests.0, tests.1))?;
    Ok(Box::new(alloc, Tested { front, condition })?)
}

/// Whether one of them holds.
#[inline(never)]
pub(crate) fn or(
    alloc: Global,
    left: Box<Tested>,
    right: Box<Tested>,
) -> Result<Box<Tested>, Memory>
    ensures { IfOk result (λ t. plain_tested t.value
        ≡ canon.joined tree.Either (plain_tested left.value) (plain_tested right.value)) }
{
    let (left, right) = (Box::into_inner(left), Box::into_inner(right));
    let tests = (left.condition, right.condition);
    let (tests, front) = keep_with(tests, left.front.before(alloc, right.front))?;
    let (front, condition) = keep_with(front, either(alloc, tests.0, tests.1))?;
    Ok(Box::new(alloc, Tested { front, condition })?)
}

/// One of two statements, by a condition.
#[inline(never)]
pub(crate) fn choose(
    alloc: Global,
    test: Box<Tested>,
    this: Box<Part>,
    other: Box<Part>,
) -> Result<Box<Part>, Memory>
    ensures { IfOk result (λ p. plain_part p.value ≡
        canon.choice (plain_tested test.value) (plain_part this.value) (plain_part other.value)) }
{
    let least = this.least.min(other.least);
    let greatest = this.greatest.max(other.greatest);
    let (this, other) = (Box::into_inner(this), Box::into_inner(other));
    let Tested { front, condition } = Box::into_inner(test);
    let choice = if_else(alloc, condition, this.statement, other.statement);
    let (front, statement) = keep_with(front, choice)?;
    let chosen = Part {
        statement,
        least,
        greatest,
    };
    Ok(Box::new(alloc, front.before(alloc, chosen)?)?)
}

/// Leaves so many loops and one more where a condition comes out so, and goes on where it doesn't.
#[inline(never)]
pub(crate) fn exit_where(
    alloc: Global,
    test: Box<Tested>,
    when: bool,
    loops: u32,
) -> Result<Box<Part>, Memory>
    ensures { IfOk result (λ p. plain_part p.value ≡
        canon.exit_where when loops (plain_tested test.value)) }
{
    let exit = leaves(alloc, loops)?;
    let on = Box::new(alloc, Part::still(nothing(alloc)))?;
    if when {
        choose(alloc, test, exit, on)
    } else {
        choose(alloc, test, on, exit)
    }
}

/// One of two statements, where a condition is tested part by part: the first one stands in two
/// loops after the test, which leaves the inner one where it fails, and the second one in the
/// outer one after that.
#[inline(never)]
pub(crate) fn choose_by_parts(
    alloc: Global,
    test: Box<Part>,
    this: Box<Part>,
    other: Box<Part>,
) -> Result<Box<Part>, Memory>
    ensures { IfOk result (λ p. plain_part p.value ≡ canon.wide_choice
        (plain_part test.value) (plain_part this.value) (plain_part other.value)) }
{
    let exit = leaves(alloc, 1)?;
    let tested = both_parts(alloc, test, this)?;
    let inner = both_parts(alloc, tested, exit)?;
    let inner = repeated(alloc, inner)?;
    let all = both_parts(alloc, inner, other)?;
    block(alloc, all)
}

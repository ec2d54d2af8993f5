ghost use Rattle.tg_typecheck.specs.Typing as typing;
ghost use Rattle.tg_typecheck.specs.glue.States.{AnswersCheck, Keeps, noted_of};
ghost use Rattle.tg_syntax.specs.declared.trees.Op.TheVariants.{Plus};
ghost use Rattle.tg_typecheck.specs.Checks.{Noted};

use crate::faults::{TypeFault, TypeRule};
use crate::kinds::Ty;
use crate::notes::Means;
use crate::rules::{expected, kept, value_needed};
use crate::states::CheckingState;
use tg_syntax::Op;

// Notes whether strings or anything else are compared.
fn compares(state: &mut CheckingState, at: u32, ty: Ty) -> Result<(), TypeFault>
    ensures given { AnswersCheck result (λ _. tt) (noted_of state.new)
        (typing.compares at ty (noted_of state.old)) }
    ensures kept { Keeps state.old state.new }
{
    let means = if ty.same(Ty::text()) {
        Means::Content
    } else {
        Means::Number
    };
    state.note(at, means)
}

fn ordered(state: &mut CheckingState, left: Ty, at: u32, left_at: u32) -> Result<Ty, TypeFault>
    ensures given { AnswersCheck result (λ t. t) (noted_of state.new)
        (typing.ordered left at left_at (noted_of state.old)) }
    ensures kept { Keeps state.old state.new }
{
    value_needed(left, left_at)?;
    kept(TypeRule::T6, left_at, left.has_order())?;
    compares(state, at, left)?;
    Ok(left)
}

fn equated(state: &mut CheckingState, left: Ty, at: u32, left_at: u32) -> Result<Ty, TypeFault>
    ensures given { AnswersCheck result (λ t. t) (noted_of state.new)
        (typing.equated left at left_at (noted_of state.old)) }
    ensures kept { Keeps state.old state.new }
{
    value_needed(left, left_at)?;
    compares(state, at, left)?;
    Ok(left)
}

// The left side of an operator that calculates an int.
fn calculated(left: Ty, left_at: u32) -> Result<Ty, TypeFault>
    ensures { (n : Noted) → AnswersCheck result (λ t. t) n
        (typing.left_side Plus left 0 left_at n) }
{
    expected(Ty::int(), left, left_at)?;
    Ok(Ty::int())
}

/// What an operator asks of its left side, before the right one is looked at.
pub(crate) fn left_side(
    state: &mut CheckingState,
    op: Op,
    left: Ty,
    at: u32,
    left_at: u32,
) -> Result<Ty, TypeFault>
    ensures given { AnswersCheck result (λ t. t) (noted_of state.new)
        (typing.left_side op left at left_at (noted_of state.old)) }
    ensures kept { Keeps state.old state.new }
{
    match op {
        Op::Less | Op::LessEqual | Op::Greater | Op::GreaterEqual => {
            ordered(state, left, at, left_at)
        }
        Op::Equal | Op::NotEqual => equated(state, left, at, left_at),
        _ => calculated(left, left_at),
    }
}

fn equal_sides(left: Ty, right: Ty, right_at: u32, whole: u32) -> Result<(), TypeFault>
    ensures { (n : Noted) → AnswersCheck result (λ _. tt) n
        (typing.equal_sides left right right_at whole n) }
{
    value_needed(right, right_at)?;
    kept(TypeRule::T13, whole, !left.are_nil(right))?;
    kept(TypeRule::T6, right_at, left.alike(right))
}

/// What an operator asks of its right side.
pub(crate) fn right_side(
    op: Op,
    left: Ty,
    right: Ty,
    right_at: u32,
    whole: u32,
) -> Result<(), TypeFault>
    ensures { (n : Noted) → AnswersCheck result (λ _. tt) n
        (typing.right_side op left right right_at whole n) }
{
    match op {
        Op::Equal | Op::NotEqual => equal_sides(left, right, right_at, whole),
        _ => expected(left, right, right_at),
    }
}

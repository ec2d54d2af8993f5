// A right side that is known stays after a left one that acts: it becomes a comparison of 0 with
// itself, which is no longer.

ghost use Rattle.std.specs.Prelude.{◌≡◌, IfOk};
ghost use Rattle.tg_tree.specs.Tree as tree;
ghost use Rattle.tg_tree.specs.declared.trees.Cond.{Cond as CodeCond};
ghost use Rattle.tg_tree.specs.glue.Plain.{plain_tx, plain_cond, plain_ts};
ghost use Rattle.tg_fold.specs.Sides as sides;
ghost use Rattle.tg_fold.specs.glue.Views.{plain_chosen, plain_joined, plain_tested};
ghost use Rattle.tg_fold.specs.mirror.Folding as folding;

use crate::constants::{constants, holds};
use std::alloc::Global;
use std::mem::replace;
use tg_base::Memory;
use tg_tree::{Cond, Rel, Ts, Tx, compare};

/// What becomes of two conditions in one.
#[derive(Drop)]
pub(crate) enum Joined {
    Known(bool),
    /// This one alone.
    One(Cond),
    /// The two, as they stand.
    Two,
}

/// What is known of a comparison of two folded sides.
pub(crate) fn compared(rel: Rel, left: &Tx, right: &Tx) -> Option<bool>
    ensures { (test : CodeCond) → plain_tested result test ≡
        folding.compared_by rel (sides.constants (plain_tx left.now) (plain_tx right.now))
        (plain_cond test) }
{
    match constants(left, right) {
        Some((a, b)) => Some(holds(rel, a, b)),
        None => None,
    }
}

/// The opposite of what is known.
pub(crate) fn opposite_of(known: Option<bool>) -> Option<bool>
    ensures { (test whole : CodeCond) → plain_cond whole ≡ tree.Not (plain_cond test) →
        plain_tested result whole ≡ folding.negated (plain_tested known test) }
{
    match known {
        Some(holds) => Some(!holds),
        None => None,
    }
}

// A comparison of 0 with itself.
fn zeros(alloc: Global, rel: Rel) -> Result<Cond, Memory>
    ensures { IfOk result (λ c. plain_cond c ≡ folding.zeros rel) }
{
    Ok(compare(alloc, rel, Tx::Const(0), Tx::Const(0))?)
}

// A condition that is taken out of its place.
fn taken(alloc: Global, place: &mut Cond) -> Result<Cond, Memory>
    ensures { IfOk result (λ c. plain_cond c ≡ plain_cond place.old) }
{
    let zeros = zeros(alloc, Rel::Equal)?;
    Ok(replace(place, zeros))
}

// Two conditions, the right one of which is this one from now on.
fn beside(place: &mut Cond, right: Cond) -> Joined
    ensures place { place.new ≡ right }
    ensures two { (whole : tree.Cond) → plain_joined result whole ≡ folding.Open whole }
{
    *place = right;
    Joined::Two
}

/// Whether both hold, of two that were folded, with what is known of them.
pub(crate) fn both_of(
    alloc: Global,
    left: &mut Cond,
    known_left: Option<bool>,
    right: &mut Cond,
    known_right: Option<bool>,
) -> Result<Joined, Memory>
    ensures { IfOk result (λ joined.
        plain_joined joined (tree.Both (plain_cond left.new) (plain_cond right.new)) ≡
        folding.both_of (plain_tested known_left left.old) (plain_tested known_right right.old)) }
{
    match known_left {
        Some(true) => match known_right {
            Some(holds) => Ok(Joined::Known(holds)),
            None => Ok(Joined::One(taken(alloc, right)?)),
        },
        Some(false) => Ok(Joined::Known(false)),
        None => match known_right {
            Some(true) => Ok(Joined::One(taken(alloc, left)?)),
            Some(false) => Ok(beside(right, zeros(alloc, Rel::NotEqual)?)),
            None => Ok(Joined::Two),
        },
    }
}

/// Whether one holds, of two that were folded, with what is known of them.
pub(crate) fn either_of(
    alloc: Global,
    left: &mut Cond,
    known_left: Option<bool>,
    right: &mut Cond,
    known_right: Option<bool>,
) -> Result<Joined, Memory>
    ensures { IfOk result (λ joined.
        plain_joined joined (tree.Either (plain_cond left.new) (plain_cond right.new)) ≡
        folding.either_of (plain_tested known_left left.old)
        (plain_tested known_right right.old)) }
{
    match known_left {
        Some(true) => Ok(Joined::Known(true)),
        Some(false) => match known_right {
            Some(holds) => Ok(Joined::Known(holds)),
            None => Ok(Joined::One(taken(alloc, right)?)),
        },
        None => match known_right {
            Some(true) => Ok(beside(right, zeros(alloc, Rel::Equal)?)),
            Some(false) => Ok(Joined::One(taken(alloc, left)?)),
            None => Ok(Joined::Two),
        },
    }
}

/// Puts what has become of two conditions in their place, and tells what is known of it.
pub(crate) fn settle(place: &mut Cond, joined: Joined) -> Option<bool>
    ensures { plain_tested result place.new ≡ plain_joined joined (plain_cond place.old) }
{
    match joined {
        Joined::Known(holds) => Some(holds),
        Joined::One(one) => {
            *place = one;
            None
        }
        Joined::Two => None,
    }
}

/// The one of two statements that a condition chooses, where it is known: that one is taken out.
pub(crate) fn chosen(known: Option<bool>, this: &mut Ts, other: &mut Ts) -> Option<Ts>
    ensures { (test : CodeCond) →
        plain_chosen result (tree.If (plain_cond test) (plain_ts this.new) (plain_ts other.new)) ≡
        folding.chosen (plain_tested known test) (plain_ts this.old) (plain_ts other.old) }
{
    match known {
        Some(true) => Some(replace(this, Ts::Break(0))),
        Some(false) => Some(replace(other, Ts::Break(0))),
        None => None,
    }
}

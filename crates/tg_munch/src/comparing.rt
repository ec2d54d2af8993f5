ghost use Rattle.std.specs.Prelude.{◌≡◌, OnOk};
ghost use Rattle.tg_tree.specs.glue.Plain.{plain_tx};
ghost use Rattle.tg_munch.specs.glue.Drafts.{Writes};
ghost use Rattle.tg_munch.specs.mirror.Comparing as comparing;
ghost use Rattle.tg_munch.specs.mirror.Tiles as tiles;

use crate::drafts::Draft;
use crate::orders::{Order, Short};
use crate::tiling::{field, is_small};
use tg_base::Memory;
use tg_instr::{Instr, Opnd, Test};
use tg_isa::{Bits, Reg};
use tg_tree::{Rel, Tx};

/// A branch where two operands are equal.
fn if_equal(left: Opnd, right: Opnd, mark: u32) -> Instr
    ensures { result ≡ tiles.if_equal left right mark }
{
    let rel = Rel::Equal;
    Instr::Branch(Test { rel, left, right }, mark)
}

/// A branch where two operands aren't equal.
fn unless_equal(left: Opnd, right: Opnd, mark: u32) -> Instr
    ensures { result ≡ tiles.unless_equal left right mark }
{
    let rel = Rel::NotEqual;
    Instr::Branch(Test { rel, left, right }, mark)
}

/// A branch where an operand is 0.
pub(crate) fn if_zero(left: Opnd, mark: u32) -> Instr
    ensures { result ≡ tiles.if_equal left tiles.nothing mark }
{
    if_equal(left, Opnd::Reg(Reg::ZERO), mark)
}

/// A branch where an operand isn't 0.
fn unless_zero(left: Opnd, mark: u32) -> Instr
    ensures { result ≡ tiles.unless_equal left tiles.nothing mark }
{
    unless_equal(left, Opnd::Reg(Reg::ZERO), mark)
}

/// A branch where an operand is less than 0.
fn if_less(left: Opnd, mark: u32) -> Instr
    ensures { result ≡ comparing.if_less left mark }
{
    let test = Test {
        rel: Rel::Less,
        left,
        right: Opnd::Reg(Reg::ZERO),
    };
    Instr::Branch(test, mark)
}

/// A branch where an operand is at most 0.
fn if_at_most(left: Opnd, mark: u32) -> Instr
    ensures { result ≡ comparing.if_at_most left mark }
{
    let test = Test {
        rel: Rel::LessEqual,
        left,
        right: Opnd::Reg(Reg::ZERO),
    };
    Instr::Branch(test, mark)
}

/// A branch where an operand is greater than 0.
fn if_greater(left: Opnd, mark: u32) -> Instr
    ensures { result ≡ comparing.if_greater left mark }
{
    let test = Test {
        rel: Rel::Greater,
        left,
        right: Opnd::Reg(Reg::ZERO),
    };
    Instr::Branch(test, mark)
}

/// A branch where an operand is at least 0.
fn if_at_least(left: Opnd, mark: u32) -> Instr
    ensures { result ≡ comparing.if_at_least left mark }
{
    let test = Test {
        rel: Rel::GreaterEqual,
        left,
        right: Opnd::Reg(Reg::ZERO),
    };
    Instr::Branch(test, mark)
}

fn on_flag(holds: bool, flag: Opnd, mark: u32) -> Instr
    ensures { result ≡ comparing.on_flag holds flag mark }
{
    if holds {
        unless_zero(flag, mark)
    } else {
        if_zero(flag, mark)
    }
}

/// 1 where one word is less than another, with or without sign, else 0.
fn flag(signed: bool, to: Opnd, left: Opnd, right: Opnd) -> Instr
    ensures { result ≡ comparing.flag signed to left right }
{
    if signed {
        Instr::Slt(to, left, right)
    } else {
        Instr::Sltu(to, left, right)
    }
}

fn field_flag(signed: bool, to: Opnd, left: Opnd, number: Bits<16>) -> Instr
    ensures { result ≡ comparing.field_flag signed to left number }
{
    if signed {
        Instr::Slti(to, left, number)
    } else {
        Instr::Sltiu(to, left, number)
    }
}

fn order(signed: bool, holds: bool) -> Order
    ensures { result ≡ comparing.order signed holds }
{
    Order { signed, holds }
}

fn on_less(
    draft: &mut Draft,
    order: Order,
    left: Opnd,
    right: Opnd,
    mark: u32,
) -> Result<(), Memory>
    ensures { OnOk result
        (Writes (comparing.on_less order left right mark) draft.old draft.new tt) }
{
    let flagged = draft.fresh()?;
    let tested = flagged;
    draft.put(flag(order.signed, flagged, left, right))?;
    draft.put(on_flag(order.holds, tested, mark))?;
    Ok(())
}

fn on_less_field(
    draft: &mut Draft,
    order: Order,
    number: Bits<16>,
    left: Opnd,
    mark: u32,
) -> Result<(), Memory>
    ensures { OnOk result
        (Writes (comparing.on_less_field order number left mark) draft.old draft.new tt) }
{
    let flagged = draft.fresh()?;
    let tested = flagged;
    draft.put(field_flag(order.signed, flagged, left, number))?;
    draft.put(on_flag(order.holds, tested, mark))?;
    Ok(())
}

/// A branch on a comparison of two operands.
pub(crate) fn branch_on(
    draft: &mut Draft,
    rel: Rel,
    left: Opnd,
    right: Opnd,
    mark: u32,
) -> Result<(), Memory>
    ensures { OnOk result
        (Writes (comparing.branch_on rel left right mark) draft.old draft.new tt) }
{
    match rel {
        Rel::Equal => draft.put(if_equal(left, right, mark)),
        Rel::NotEqual => draft.put(unless_equal(left, right, mark)),
        Rel::Less => on_less(draft, order(true, true), left, right, mark),
        Rel::GreaterEqual => on_less(draft, order(true, false), left, right, mark),
        Rel::Greater => on_less(draft, order(true, true), right, left, mark),
        Rel::LessEqual => on_less(draft, order(true, false), right, left, mark),
        Rel::Below => on_less(draft, order(false, true), left, right, mark),
        Rel::NotBelow => on_less(draft, order(false, false), left, right, mark),
    }
}

/// A branch on a comparison of an operand with 0, if the comparison can hold.
fn against_zero(draft: &mut Draft, rel: Rel, left: Opnd, mark: u32) -> Result<(), Memory>
    ensures { OnOk result (Writes (comparing.against_zero rel left mark) draft.old draft.new tt) }
{
    match rel {
        Rel::Equal => draft.put(if_zero(left, mark)),
        Rel::NotEqual => draft.put(unless_zero(left, mark)),
        Rel::Less => draft.put(if_less(left, mark)),
        Rel::LessEqual => draft.put(if_at_most(left, mark)),
        Rel::Greater => draft.put(if_greater(left, mark)),
        Rel::GreaterEqual => draft.put(if_at_least(left, mark)),
        Rel::Below => Ok(()),
        Rel::NotBelow => draft.put(Instr::Jump(mark)),
    }
}

/// What stands for a comparison with a constant that a field holds.
fn if_small(order: Order, n: u32) -> Option<Short>
    ensures { result ≡ comparing.if_small order n }
{
    if is_small(n) {
        Some(Short::Field(order, field(n)))
    } else {
        None
    }
}

/// What stands for a comparison with a constant, where the field holds the next one.
fn if_next_small(order: Order, n: u32) -> Option<Short>
    ensures { result ≡ comparing.if_next_small order n }
{
    if is_small(n) && n != 32767 {
        Some(Short::Field(order, field(n.wrapping_add(1))))
    } else {
        None
    }
}

fn short_field(rel: Rel, n: u32) -> Option<Short>
    ensures { result ≡ comparing.short_field rel n }
{
    match rel {
        Rel::Less => if_small(order(true, true), n),
        Rel::GreaterEqual => if_small(order(true, false), n),
        Rel::LessEqual => if_next_small(order(true, true), n),
        Rel::Greater => if_next_small(order(true, false), n),
        Rel::Below => if_small(order(false, true), n),
        Rel::NotBelow => if_small(order(false, false), n),
        Rel::Equal | Rel::NotEqual => None,
    }
}

fn short(rel: Rel, n: u32) -> Option<Short>
    ensures { result ≡ comparing.short rel n }
{
    if n == 0 {
        Some(Short::Zero)
    } else {
        short_field(rel, n)
    }
}

/// How a comparison is made without an operand for its right side, if it is a constant that allows
/// it.
pub(crate) fn short_side(rel: Rel, right: &Tx) -> Option<Short>
    ensures { result ≡ comparing.short_side rel (plain_tx right.now) }
{
    match right {
        Tx::Const(n) => short(rel, *n),
        _ => None,
    }
}

/// A branch on a comparison that needs no operand for its right side.
pub(crate) fn branch_short(
    draft: &mut Draft,
    rel: Rel,
    short: Short,
    left: Opnd,
    mark: u32,
) -> Result<(), Memory>
    ensures { OnOk result
        (Writes (comparing.branch_short rel short left mark) draft.old draft.new tt) }
{
    match short {
        Short::Zero => against_zero(draft, rel, left, mark),
        Short::Field(order, number) => on_less_field(draft, order, number, left, mark),
    }
}

/// The comparison with its sides in the other order.
pub(crate) fn turned(rel: Rel) -> Rel
    ensures { result ≡ comparing.turned rel }
{
    match rel {
        Rel::Less => Rel::Greater,
        Rel::LessEqual => Rel::GreaterEqual,
        Rel::Greater => Rel::Less,
        Rel::GreaterEqual => Rel::LessEqual,
        Rel::Equal | Rel::NotEqual | Rel::Below | Rel::NotBelow => rel,
    }
}

fn can_turn(rel: Rel) -> bool
    ensures { result ≡ comparing.can_turn rel }
{
    match rel {
        Rel::Below | Rel::NotBelow => false,
        _ => true,
    }
}

fn is_constant(x: &Tx) -> bool
    ensures { result ≡ comparing.is_constant (plain_tx x.now) }
{
    match x {
        Tx::Const(_) => true,
        _ => false,
    }
}

/// Whether a comparison is turned round, so that its constant stands on the right.
pub(crate) fn is_turned(rel: Rel, left: &Tx, right: &Tx) -> bool
    ensures { result ≡ comparing.is_turned rel (plain_tx left.now) (plain_tx right.now) }
{
    is_constant(left) && !is_constant(right) && can_turn(rel)
}

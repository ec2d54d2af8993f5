ghost use Rattle.std.specs.Prelude.{◌≡◌, ◌<◌};
ghost use Rattle.tg_tree.specs.declared.operators.Bin.TheVariants as bin;
ghost use Rattle.tg_tree.specs.glue.Plain.{plain_tx};
ghost use Rattle.tg_munch.specs.mirror.Tiles as tiles;

use crate::tiles::{Immediate, Tile};
use tg_isa::Bits;
use tg_tree::{Bin, Tx};

/// Whether a field of 16 bits with a sign holds a word.
pub(crate) fn is_small(n: u32) -> bool
    ensures { result ≡ tiles.is_small n }
{
    n < 32768 || n >= 4294934528
}

/// The low half of a word.
pub(crate) fn field(n: u32) -> Bits<16>
    ensures { result ≡ tiles.field n }
{
    Bits::new(n % 65536)
}

/// The word of the other sign.
fn negated(n: u32) -> u32
    ensures { result ≡ tiles.negated n }
{
    n.wrapping_neg()
}

fn field_of(n: u32) -> Option<Bits<16>>
    ensures { result ≡ tiles.field_of n }
{
    if is_small(n) { Some(field(n)) } else { None }
}

fn sum(n: u32) -> Option<Immediate>
    ensures { result ≡ tiles.immediate bin.Add n }
{
    if is_small(n) {
        Some(Immediate::Add(field(n)))
    } else {
        None
    }
}

fn trapping_sum(n: u32) -> Option<Immediate>
    ensures { result ≡ tiles.immediate bin.AddTrap n }
{
    if is_small(n) {
        Some(Immediate::AddTrap(field(n)))
    } else {
        None
    }
}

/// What an operator with a constant does in one instruction, if there is one.
fn immediate(op: Bin, n: u32) -> Option<Immediate>
    ensures { result ≡ tiles.immediate op n }
{
    let bits = Bits::new(n % 32);
    match op {
        Bin::Add => sum(n),
        Bin::Sub => sum(negated(n)),
        Bin::AddTrap => trapping_sum(n),
        Bin::SubTrap => trapping_sum(negated(n)),
        Bin::And => if n < 65536 {
            Some(Immediate::And(field(n)))
        } else {
            None
        },
        Bin::Or => if n < 65536 {
            Some(Immediate::Or(field(n)))
        } else {
            None
        },
        Bin::Xor => if n < 65536 {
            Some(Immediate::Xor(field(n)))
        } else {
            None
        },
        Bin::ShiftLeft => Some(Immediate::ShiftLeft(bits)),
        Bin::ShiftRight => Some(Immediate::ShiftRight(bits)),
        Bin::ShiftSigned => Some(Immediate::ShiftSigned(bits)),
        Bin::Mul | Bin::Div | Bin::MulHigh => None,
    }
}

fn constant_side(op: Bin, side: &Tx) -> Option<Immediate>
    ensures { result ≡ tiles.constant_side op (plain_tx side.now) }
{
    match side {
        Tx::Const(n) => immediate(op, *n),
        _ => None,
    }
}

/// Whether the sides of an operator may change places.
fn commutes(op: Bin) -> bool
    ensures { result ≡ tiles.commutes op }
{
    match op {
        Bin::Add | Bin::AddTrap | Bin::And | Bin::Or | Bin::Xor => true,
        _ => false,
    }
}

fn exchanged_side(op: Bin, left: &Tx) -> Option<Immediate>
    ensures { result ≡ tiles.exchanged_side op (plain_tx left.now) }
{
    if commutes(op) {
        constant_side(op, left)
    } else {
        None
    }
}

fn is_shift(op: Bin) -> bool
    ensures { result ≡ tiles.is_shift op }
{
    match op {
        Bin::ShiftLeft | Bin::ShiftRight | Bin::ShiftSigned => true,
        _ => false,
    }
}

/// The tile of an operator.
pub(crate) fn tile(op: Bin, left: &Tx, right: &Tx) -> Tile
    ensures { result ≡ tiles.tile op (plain_tx left.now) (plain_tx right.now) }
{
    match (constant_side(op, right), exchanged_side(op, left)) {
        (Some(one), _) => Tile::Right(one),
        (None, Some(one)) => Tile::Left(one),
        (None, None) => if is_shift(op) {
            Tile::ByWord
        } else {
            Tile::Operands
        },
    }
}

fn slot_below(slots: u32, n: u32) -> Option<u32>
    ensures { result ≡ tiles.slot_below slots n }
{
    if n % 4 == 0 && 0 < n && n / 4 <= slots {
        Some(n / 4 - 1)
    } else {
        None
    }
}

/// The slot of a frame with so many, where an address is the place of one.
pub(crate) fn slot(slots: u32, address: &Tx) -> Option<u32>
    ensures { result ≡ tiles.slot slots (plain_tx address.now) }
{
    match address {
        Tx::Binary(Bin::Sub, left, right) => slot_of(slots, left, right),
        _ => None,
    }
}

/// The slot at so many bytes below the frame address.
fn slot_of(slots: u32, left: &Tx, right: &Tx) -> Option<u32>
    ensures { result ≡ tiles.slot_of slots (plain_tx left.now) (plain_tx right.now) }
{
    match (left, right) {
        (Tx::FrameAddress, Tx::Const(n)) => slot_below(slots, *n),
        _ => None,
    }
}

/// The field of an address that is a left side and a small constant.
pub(crate) fn offset(address: &Tx) -> Option<Bits<16>>
    ensures { result ≡ tiles.offset (plain_tx address.now) }
{
    match address {
        Tx::Binary(op, _, right) => offset_by(*op, right),
        _ => None,
    }
}

fn offset_by(op: Bin, right: &Tx) -> Option<Bits<16>>
    ensures { result ≡ tiles.offset_by op (plain_tx right.now) }
{
    match (op, right) {
        (Bin::Add, Tx::Const(n)) => field_of(*n),
        (Bin::Sub, Tx::Const(n)) => field_of(negated(*n)),
        _ => None,
    }
}

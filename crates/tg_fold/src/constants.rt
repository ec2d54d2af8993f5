// Constants aren't passed on: a temporary has the length 0 and a constant 2, so a function could
// grow.

ghost use Rattle.std.specs.Prelude.{◌≡◌, ◌%◌, ◌<◌};
ghost use Rattle.tg_base.specs.Words as words;
ghost use Rattle.tg_tree.specs.Operators.{operate, holds};
ghost use Rattle.tg_tree.specs.glue.Plain.{plain_tx};
ghost use Rattle.tg_fold.specs.Sides as sides;
ghost use Rattle.tg_fold.specs.mirror.Folding as folding;

use tg_base::{
    add, exact_difference, exact_sum, less_signed, less_unsigned, mul, product, quot, sub,
};
use tg_tree::{Bin, Rel, Tx};

fn product_high(left: u32, right: u32) -> u32
    ensures { result ≡ words.product_high left right }
{
    (product(left, right) >> 32) as u32
}

fn shift_left(left: u32, by: u32) -> u32
    requires { by < 32 }
    ensures { result ≡ words.shift_left left by }
{
    left << by
}

fn shift_right(left: u32, by: u32) -> u32
    requires { by < 32 }
    ensures { result ≡ words.shift_right left by }
{
    left >> by
}

fn shift_signed(left: u32, by: u32) -> u32
    requires { by < 32 }
    ensures { result ≡ words.shift_signed left by }
{
    (left.cast_signed() >> by).cast_unsigned()
}

/// What an operator makes of two words, where it doesn't stop the run.
fn operate(op: Bin, left: u32, right: u32) -> Option<u32>
    ensures { result ≡ folding.given_word (operate op left right) }
{
    match op {
        Bin::Add => Some(add(left, right)),
        Bin::Sub => Some(sub(left, right)),
        Bin::Mul => Some(mul(left, right)),
        Bin::Div => {
            if right == 0 {
                None
            } else {
                Some(quot(left, right))
            }
        }
        Bin::And => Some(left & right),
        Bin::Or => Some(left | right),
        Bin::Xor => Some(left ^ right),
        Bin::ShiftLeft => Some(shift_left(left, right % 32)),
        Bin::ShiftRight => Some(shift_right(left, right % 32)),
        Bin::ShiftSigned => Some(shift_signed(left, right % 32)),
        Bin::AddTrap => exact_sum(left, right),
        Bin::SubTrap => exact_difference(left, right),
        Bin::MulHigh => Some(product_high(left, right)),
    }
}

/// Whether a comparison of two words holds.
pub(crate) fn holds(rel: Rel, left: u32, right: u32) -> bool
    ensures { result ≡ holds rel left right }
{
    match rel {
        Rel::Equal => left == right,
        Rel::NotEqual => left != right,
        Rel::Less => less_signed(left, right),
        Rel::LessEqual => !less_signed(right, left),
        Rel::Greater => less_signed(right, left),
        Rel::GreaterEqual => !less_signed(left, right),
        Rel::Below => less_unsigned(left, right),
        Rel::NotBelow => !less_unsigned(left, right),
    }
}

/// The words of two sides that are constants.
pub(crate) fn constants(left: &Tx, right: &Tx) -> Option<(u32, u32)>
    ensures { result ≡ sides.constants (plain_tx left.now) (plain_tx right.now) }
{
    match left {
        Tx::Const(a) => match right {
            Tx::Const(b) => Some((*a, *b)),
            _ => None,
        },
        _ => None,
    }
}

/// The word of an operator with two folded sides, where both are constants and the run goes on
/// there.
pub(crate) fn operated(op: Bin, left: &Tx, right: &Tx) -> Option<u32>
    ensures { result ≡
        folding.word_of op (sides.constants (plain_tx left.now) (plain_tx right.now)) }
{
    match constants(left, right) {
        Some((a, b)) => operate(op, a, b),
        None => None,
    }
}

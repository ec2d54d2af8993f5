// A product and its upper word take one `mult` (`tg_munch/specs/mirror/Products.antt`), so
// `munch` looks at an element of flat code and the one before it. After a mark, where a run may
// come from elsewhere, the upper word is multiplied anew.

ghost use Rattle.std.specs.Prelude.{◌≡◌, option_map};
ghost use Rattle.tg_tree.specs.glue.Plain.{plain_linear, plain_ts, plain_tx};
ghost use Rattle.tg_munch.specs.mirror.Products as products;

use tg_base::Temp;
use tg_tree::{Bin, Linear, Ts, Tx};

/// The same word, the one before a move to a temporary and the other after it: a number, or
/// another temporary.
fn is_same(to: Temp, one: &Tx, other: &Tx) -> bool
    ensures { result ≡ products.is_same to.0 (plain_tx one.now) (plain_tx other.now) }
{
    match (one, other) {
        (Tx::Const(n), Tx::Const(m)) => *n == *m,
        (Tx::Temp(i), Tx::Temp(j)) => i.0 == j.0 && i.0 != to.0,
        _ => false,
    }
}

/// A move of the product of two sides, which stay what they were.
fn moves_product(s: &Ts, left: &Tx, right: &Tx) -> bool
    ensures { result ≡
        products.moves_product (plain_ts s.now) (plain_tx left.now) (plain_tx right.now) }
{
    match s {
        Ts::Move(to, Tx::Binary(Bin::Mul, x, y)) => is_same(*to, x, left) && is_same(*to, y, right),
        _ => false,
    }
}

/// An element that leaves the upper word of the product of two sides in HI.
fn leaves_product(before: Option<&Linear>, left: &Tx, right: &Tx) -> bool
    ensures { result ≡ products.leaves_product (option_map (λ e. plain_linear e.now) before.entry)
        (plain_tx left.now) (plain_tx right.now) }
{
    match before {
        Some(Linear::Do(s)) => moves_product(s, left, right),
        _ => false,
    }
}

/// Whether HI is a word, directly after an element of flat code.
pub(crate) fn is_in_hi(before: Option<&Linear>, word: &Tx) -> bool
    ensures { result ≡ products.is_in_hi (option_map (λ e. plain_linear e.now) before.entry)
        (plain_tx word.now) }
{
    match word {
        Tx::Binary(Bin::MulHigh, left, right) => leaves_product(before, left, right),
        _ => false,
    }
}

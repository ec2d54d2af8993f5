// Arguments past the fourth are stored to the frame first, unless one of the first four may end
// the run (`tg_munch/specs/mirror/Arguments.antt`). One frame address serves all parameters past
// the fourth.

ghost use Rattle.std.specs.Prelude.{◌≡◌};
ghost use Rattle.tg_tree.specs.glue.Lists.{txs_of};
ghost use Rattle.tg_tree.specs.glue.Plain.{plain_tx};
ghost use Rattle.tg_munch.specs.mirror.Arguments as order;

use tg_tree::{Bin, Tx};

/// An operator that ends the run where its result is no int.
fn is_trapping(op: Bin) -> bool
    ensures { result ≡ order.is_trapping op }
{
    matches!(op, Bin::AddTrap | Bin::SubTrap)
}

/// Whether an expression may end the run.
fn may_end(x: &Tx) -> bool
    ensures { result ≡ order.may_end (plain_tx x.now) }
{
    match x {
        Tx::Binary(op, left, right) => is_trapping(*op) || may_end(left) || may_end(right),
        Tx::Load(address) | Tx::LoadByte(address) => may_end(address),
        Tx::Call(_, _) | Tx::Service(_, _) | Tx::After(_, _) => true,
        _ => false,
    }
}

/// Whether one of the first four arguments may end the run.
pub(crate) fn one_may_end(arguments: &[Tx]) -> bool
    ensures { result ≡ order.one_may_end 0 (txs_of arguments.now) }
{
    for (i, x) in arguments.iter().enumerate() {
        if i < 4 && may_end(x) {
            return true;
        }
    }
    false
}

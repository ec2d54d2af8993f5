ghost use Rattle.std.specs.Prelude.{◌≡◌, ◌∷◌, ◌++◌, [], OnOk};
ghost use Rattle.tg_redundancy.specs.glue.Walks.{or_zero};

use tg_base::Memory;
use tg_instr::{Instr, Opnd, push_instr};
use tg_isa::Reg;

fn or_zero(operand: Option<Opnd>) -> Opnd
    ensures { result ≡ or_zero operand }
{
    match operand {
        Some(operand) => operand,
        None => Opnd::Reg(Reg::ZERO),
    }
}

// The same instruction again.
fn same(one: &Instr) -> Instr
    ensures { result ≡ one.now }
{
    let named = one.named();
    one.renamed(
        or_zero(named.to),
        or_zero(named.first),
        or_zero(named.second),
    )
}

/// Puts the instruction at the end of a list.
pub(crate) fn push_same(list: &mut Vec<Instr>, one: &Instr) -> Result<(), Memory>
    ensures { OnOk result (list.new.items ≡ list.old.items ++ one.now ∷ []) }
{
    push_instr(list, same(one))
}

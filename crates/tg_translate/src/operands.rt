ghost use Rattle.std.specs.Prelude.{◌≡◌, IfOk};
ghost use Rattle.tg_tree.specs.glue.Plain.{plain_tx};
ghost use Rattle.tg_tree.specs.glue.Lists.{stms_of};
ghost use Rattle.tg_translate.specs.mirror.States.{drawn, state_of};
ghost use Rattle.tg_translate.specs.mirror.Constructs as constructs;

use crate::states::TranslationState;
use crate::wants::push;
use tg_base::{Memory, Temp};
use tg_tree::{Ts, Tx};

/// A value that is used several times: a number, or what stands in a temporary.
#[derive(Clone, Copy)]
pub enum Operand {
    Number(u32),
    Kept(Temp),
}

impl Operand {
    /// The operand as a tree.
    pub(crate) fn tree(self) -> Tx
        ensures { plain_tx result ≡ constructs.operand self }
    {
        match self {
            Operand::Number(number) => Tx::Const(number),
            Operand::Kept(temp) => Tx::Temp(temp),
        }
    }
}

/// A value is kept for its uses. A variable's temporary may be used itself where nothing assigns it
/// meanwhile, which `direct` says.
pub(crate) fn hold(
    state: &mut TranslationState,
    direct: bool,
    before: &mut Vec<Ts>,
    value: Tx,
) -> Result<Operand, Memory>
    ensures { IfOk result (λ o.
        constructs.hold direct (stms_of before.old.items) (plain_tx value) (state_of state.old) ≡
        drawn (record { before = stms_of before.new.items; operand = o }) (state_of state.new)) }
{
    match value {
        Tx::Const(number) => Ok(Operand::Number(number)),
        Tx::Temp(temp) if direct => Ok(Operand::Kept(temp)),
        _ => Ok(keep(state, before, value)?),
    }
}

/// A value is kept in a temporary of its own.
pub(crate) fn keep(
    state: &mut TranslationState,
    before: &mut Vec<Ts>,
    value: Tx,
) -> Result<Operand, Memory>
    ensures { IfOk result (λ o.
        constructs.keep (stms_of before.old.items) (plain_tx value) (state_of state.old) ≡
        drawn (record { before = stms_of before.new.items; operand = o }) (state_of state.new)) }
{
    let temp = state.fresh()?;
    push(before, Ts::Move(temp, value))?;
    Ok(Operand::Kept(temp))
}

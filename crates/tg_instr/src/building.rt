ghost use Rattle.std.specs.Prelude.{◌≡◌, ◌∷◌, ◌++◌, [], OnOk, OnErr};

use crate::instr::{Instr, Test};
use crate::operands::Opnd;
use tg_base::Memory;

/// Puts an instruction at the end of a list. Out of memory, the list is as before.
pub fn push_instr(list: &mut Vec<Instr>, one: Instr) -> Result<(), Memory>
    ensures ok { OnOk result (list.new.items ≡ list.old.items ++ one ∷ []) }
    ensures err { OnErr result (list.new.items ≡ list.old.items) }
{
    // (the borrow checker has to be told of the types that an instruction holds)
    let _opnd: Option<Opnd> = None;
    let _test: Option<Test> = None;
    list.push(one)?;
    Ok(())
}

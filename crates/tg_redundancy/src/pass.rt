// What a path knows is neither computed nor tested again (`tg_redundancy`), with no flag. The
// pass stands between the choice of instructions and the allocator, where a word has a temporary
// of its own and a move of it coalesces. Facts hold along extended basic blocks: a mark keeps
// them where one way leads to it, from in front. A store forgets what was loaded, a call
// everything. At most 64 facts stand at once, 12 at a mark, and 50 moves are made in a function:
// so it takes time in proportion to the code, and makes no function too long.

ghost use Rattle.std.specs.Prelude.{◌≡◌, IfOk};
ghost use Rattle.tg_redundancy.specs.mirror.Known.{known_code};

use crate::laws::known_is_code;
use crate::walks::Walk;
use crate::ways::marks_from_behind;
use std::alloc::Global;
use tg_base::Memory;
use tg_instr::{Code, Instr, Instrs};

/// Known code: on each extended basic block a word that a temporary has already is moved from
/// there, a branch that is known to fall through goes, and one that is known to be taken is a jump
/// (Appel, chapter 17, common subexpressions; chapter 8, extended basic blocks). At most 64 facts
/// are known at a place, so it takes time in proportion to the code's length.
pub fn known(alloc: Global, code: &Code) -> Result<Code, Memory>
    ensures list { IfOk result (λ c. c.list ≡ known_code code.now.list) }
    ensures temps { IfOk result (λ c. c.temps ≡ code.now.temps) }
{
    known_is_code();
    let list = instructions(alloc, code.list.as_slice())?;
    Ok(Code {
        list: Instrs::from_vec(list),
        temps: code.temps,
    })
}

fn instructions(alloc: Global, code: &[Instr]) -> Result<Vec<Instr>, Memory>
    ensures { IfOk result (λ list. list.items ≡ known_code code.now) }
{
    let from_behind = marks_from_behind(alloc, code)?;
    let mut list = Vec::with_capacity(alloc, code.len())?;
    let mut walk = Walk::new(alloc);
    for at in 0..code.len() {
        walk.step(&mut list, from_behind[at], &code[at])?;
    }
    Ok(list)
}

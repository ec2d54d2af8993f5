// Each use and each definition gets a temporary of its own, also where two operands of one
// instruction are one temporary, as in the article.

ghost use Rattle.std.specs.Prelude.{
  ◌≡◌,
  ◌<◌,
  ◌+◌,
  ◌*◌,
  ◌++◌,
  ◌^◌,
  IfOk,
  IsTrue,
  OnOk,
  length,
};
ghost use Rattle.std.specs.List.{list_all};
ghost use Rattle.tg_instr.specs.Codes.{has_temps_below};
ghost use Rattle.tg_regalloc.specs.Rewriting.{
  code_rewritten,
  instruction_rewritten,
  next_after,
  slot_in,
  temps_after,
};

use crate::placing::place;
use std::alloc::Global;
use tg_base::Memory;
use tg_instr::{Code, Instr, Instrs, push_instr};

/// The code after a round that spills, given the slot of each temporary that has one.
pub fn rewrite(alloc: Global, code: &Code, slots: &[Option<u32>]) -> Result<Code, Memory>
    requires slots { length slots.now ≡ code.now.temps }
    requires room { code.now.temps + 3 * length code.now.list < 2 ^ 32 }
    ensures list { IfOk result (λ next.
        next.list ≡ code_rewritten (slot_in slots.now) code.now.list code.now.temps) }
    ensures temps { IfOk result (λ next.
        next.temps ≡ temps_after (slot_in slots.now) code.now.list code.now.temps) }
{
    let mut next = code.temps;
    let list = instructions(alloc, code.list.as_slice(), slots, &mut next)?;
    Ok(Code {
        list: Instrs::from_vec(list),
        temps: next,
    })
}

fn instructions(
    alloc: Global,
    code: &[Instr],
    slots: &[Option<u32>],
    next: &mut u32,
) -> Result<Vec<Instr>, Memory>
    requires below { IsTrue (list_all (has_temps_below (length slots.now)) code.now) }
    requires room { next.old + 3 * length code.now < 2 ^ 32 }
    ensures list { IfOk result (λ list.
        list.items ≡ code_rewritten (slot_in slots.now) code.now next.old) }
    ensures next { OnOk result (next.new ≡ temps_after (slot_in slots.now) code.now next.old) }
{
    let mut list = Vec::with_capacity(alloc, code.len())?;
    for one in code.iter() {
        put_rewritten(&mut list, slots, next, one)?;
    }
    Ok(list)
}

/// Puts an instruction with its loads and stores at the end of a list.
fn put_rewritten(
    list: &mut Vec<Instr>,
    slots: &[Option<u32>],
    next: &mut u32,
    one: &Instr,
) -> Result<(), Memory>
    requires below { IsTrue (has_temps_below (length slots.now) one.now) }
    requires room { next.old + 3 < 2 ^ 32 }
    ensures next { OnOk result (next.new ≡ next_after (slot_in slots.now) one.now next.old) }
    ensures list { OnOk result (list.new.items
        ≡ list.old.items ++ instruction_rewritten (slot_in slots.now) one.now next.old) }
{
    let named = one.named();
    let to = place(slots, named.to, next);
    let first = place(slots, named.first, next);
    let second = place(slots, named.second, next);
    let (target, left, right) = (to.operand, first.operand, second.operand);
    first.put_load(list)?;
    second.put_load(list)?;
    push_instr(list, one.renamed(target, left, right))?;
    to.put_store(list)
}

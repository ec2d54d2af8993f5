ghost use Rattle.std.specs.Prelude.{
  ◌≡◌,
  ◌≤◌,
  ◌-◌,
  ◌||◌,
  ℕ,
  not,
  length,
  IfOk,
  OnOk,
  IsTrue,
};
ghost use Rattle.std.specs.List.{list_all};
ghost use Rattle.tg_instr.specs.Codes.{is_below};
ghost use Rattle.tg_instr.specs.Operands.{is_same};
ghost use Rattle.tg_graph.specs.Interference.{colours, most_nodes};
ghost use Rattle.tg_interference.specs.Nodes.{operand_at};
ghost use Rattle.tg_interference.specs.Pairs.{has};
ghost use Rattle.tg_interference.specs.glue.Crossing.{is_marked};

use crate::nodes::node_of;
use std::alloc::Global;
use tg_base::Memory;
use tg_instr::Opnd;

/// Marks the nodes of what is live out of a call, and answers the operands whose nodes were not
/// marked before, in the order of the list.
pub(crate) fn mark_crossing(
    alloc: Global,
    live: &[Opnd],
    crossed: &mut [bool],
) -> Result<Vec<Opnd>, Memory>
    requires low { colours ≤ length crossed.old }
    requires few { length crossed.old ≤ most_nodes }
    requires live { IsTrue (list_all (is_below (length crossed.old - colours)) live.now) }
    ensures sized { length crossed.new ≡ length crossed.old }
    ensures marked { OnOk result ((n : ℕ) →
        is_marked crossed.new n ≡ (is_marked crossed.old n || has live.now n)) }
    ensures first { IfOk result (λ first. (n : ℕ) →
        is_marked crossed.new n ≡ (is_marked crossed.old n || has first.items n)) }
    ensures below { IfOk result (λ first.
        IsTrue (list_all (is_below (length crossed.old - colours)) first.items)) }
{
    let mut first = Vec::new(alloc);
    for one in live {
        if mark_operand(one, crossed) {
            first.push(*one)?;
        }
    }
    Ok(first)
}

// Marks the node of an operand, where it has one. Tells whether that one was not marked before.
fn mark_operand(one: &Opnd, crossed: &mut [bool]) -> bool
    requires low { colours ≤ length crossed.old }
    requires few { length crossed.old ≤ most_nodes }
    requires below { IsTrue (is_below (length crossed.old - colours) one.now) }
    ensures sized { length crossed.new ≡ length crossed.old }
    ensures marked { (n : ℕ) →
        is_marked crossed.new n ≡ (is_marked crossed.old n || is_same (operand_at n) one.now) }
    ensures first { (n : ℕ) →
        IsTrue (is_same (operand_at n) one.now) → result ≡ not (is_marked crossed.old n) }
{
    match node_of(one) {
        Some(node) => {
            let is_first = !crossed[node as usize];
            crossed[node as usize] = true;
            is_first
        }
        None => false,
    }
}

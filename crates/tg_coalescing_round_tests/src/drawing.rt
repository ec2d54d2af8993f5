ghost use Rattle.std.specs.Prelude.{◌≡◌, ◌<◌, ◌≤◌, false, IfOk, replicate};

use std::alloc::Global;
use tg_base::Memory;
use tg_graph::{COLOURS, Graph};
use tg_irc_definition::NodeFacts;

/// As many nodes, all original, each used twice.
pub fn originals(alloc: Global, nodes: u32) -> Result<Vec<NodeFacts>, Memory>
    requires { nodes < 100 }
    ensures { IfOk result (λ v. v.items ≡ replicate nodes (record { uses = 2; made = false })) }
{
    Ok(vec![in alloc; NodeFacts {
        uses: 2,
        made: false
    }; nodes as usize]?)
}

/// Joins a temporary to the registers from one number up to another.
pub fn join_registers(graph: &mut Graph, node: u32, from: u32, to: u32) -> Result<(), Memory>
    requires node { node < graph.old.nodes }
    requires temporary { 25 ≤ node }
    requires registers { to ≤ 25 }
    ensures { graph.new.nodes ≡ graph.old.nodes }
{
    for register in from..to {
        graph.add_edge(node, register)?;
    }
    Ok(())
}

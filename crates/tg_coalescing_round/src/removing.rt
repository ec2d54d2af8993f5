ghost use Rattle.std.specs.Prelude.{◌≡◌, ◌<◌, ◌≤◌, IsTrue, OnOk};
ghost use Rattle.tg_graph.specs.Interference.{colours};
ghost use Rattle.tg_coalescing_round.specs.glue.Works.{degree_at, is_open};
ghost use Rattle.tg_coalescing_round.specs.mirror.Steps.{CanLose, bereft, simplified, taken_out};

use crate::states::Coalescer;
use tg_base::Memory;
use tg_graph::{COLOURS, Worklist};
use tg_irc_definition::Step;

impl Coalescer {
    /// The step Simplify.
    pub(crate) fn simplify(&mut self, node: u32) -> Result<(), Memory>
        requires node { node < self.old.graph.nodes }
        requires temporary { colours ≤ node }
        requires counted { CanLose self.old node }
        ensures { OnOk result (self.new ≡ simplified node self.old) }
    {
        self.take_out(node)?;
        self.steps.push(Step::Simplify(node))?;
        Ok(())
    }

    /// Takes a temporary out of the graph.
    pub(crate) fn take_out(&mut self, node: u32) -> Result<(), Memory>
        requires node { node < self.old.graph.nodes }
        requires temporary { colours ≤ node }
        requires counted { CanLose self.old node }
        ensures { OnOk result (self.new ≡ taken_out node self.old) }
    {
        self.lists.move_to(node, Worklist::Stacked);
        self.stack.push(node)?;
        for place in 0..self.graph.degree(node) {
            let other = self.graph.neighbours(node)[place as usize];
            self.lose_neighbour(other)?;
        }
        Ok(())
    }

    /// Counts one neighbour less of a node, if it is a temporary that remains. Where that makes it
    /// low, the moves of its neighbours are tried again (`EnableMoves`, for these alone).
    pub(crate) fn lose_neighbour(&mut self, node: u32) -> Result<(), Memory>
        requires node { node < self.old.graph.nodes }
        requires counted { IsTrue (is_open self.old node) → 0 < degree_at self.old node }
        ensures { OnOk result (self.new ≡ bereft self.old node) }
    {
        if !self.is_open(node) {
            return Ok(());
        }
        self.degrees[node as usize] -= 1;
        if self.degrees[node as usize] == COLOURS - 1 {
            self.relist(node);
            self.wake_around(node)?;
        }
        Ok(())
    }
}

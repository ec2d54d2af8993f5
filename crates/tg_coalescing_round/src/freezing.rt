ghost use Rattle.std.specs.Prelude.{◌≡◌, ◌<◌, OnOk};
ghost use Rattle.tg_coalescing_round.specs.glue.Standing.{IsOrderly};
ghost use Rattle.tg_coalescing_round.specs.mirror.Steps.{frozen, given_up};

use crate::states::Coalescer;
use tg_base::Memory;
use tg_irc_definition::{MoveState, Step};

impl Coalescer {
    /// The step Freeze.
    pub(crate) fn freeze(&mut self, node: u32) -> Result<(), Memory>
        requires node { node < self.old.graph.nodes }
        requires orderly { IsOrderly self.old }
        ensures { OnOk result (self.new ≡ frozen node self.old) }
    {
        self.freeze_moves(node);
        self.steps.push(Step::Freeze(node))?;
        Ok(())
    }

    /// Gives up the unsettled moves that end in a class.
    pub(crate) fn freeze_moves(&mut self, class: u32)
        requires class { class < self.old.graph.nodes }
        requires orderly { IsOrderly self.old }
        ensures { self.new ≡ given_up class self.old }
    {
        for place in 0..self.moves.touching(class).len() {
            let index = self.moves.touching(class)[place];
            if self.moves.is_unsettled(index) {
                self.settle(index, MoveState::Frozen);
            }
        }
    }
}

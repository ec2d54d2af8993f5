ghost use Rattle.std.specs.Prelude.{
  ◌≡◌,
  ◌<◌,
  ◌+◌,
  ◌≤◌,
  ℕ,
  IfOk,
  IsTrue,
  OnOk,
  length,
};
ghost use Rattle.tg_graph.specs.Interference.{colours};
ghost use Rattle.tg_irc_definition.specs.Policies.{candidate_at};
ghost use Rattle.tg_coalescing_round.specs.glue.Standing.{IsOrderly};
ghost use Rattle.tg_coalescing_round.specs.mirror.Steps as steps;
ghost use Rattle.tg_coalescing_round.specs.mirror.Steps.{spilled};

use crate::states::Coalescer;
use std::alloc::Global;
use tg_base::Memory;
use tg_graph::COLOURS;
use tg_irc_definition::{Candidate, SpillPolicy, Step};

impl Coalescer {
    /// The step Spill, of the temporary that the policy chooses.
    pub(crate) fn spill(
        &mut self,
        alloc: Global,
        policy: &mut dyn SpillPolicy,
    ) -> Result<(), Memory>
        requires some { 0 < length (steps.candidates self.old) }
        requires orderly { IsOrderly self.old }
        ensures spilled { OnOk result ((at : ℕ)
            × (at < length (steps.candidates self.old))
            × IsTrue (rule policy.old (steps.candidates self.old) at)
            × (self.new ≡
            spilled ((candidate_at (steps.candidates self.old) at).temp + colours) self.old)) }
        ensures same { rule policy.new ≡ rule policy.old }
    {
        let candidates = self.candidates(alloc)?;
        let chosen = policy.choose(&candidates);
        let node = candidates[chosen].temp + COLOURS;
        self.freeze_moves(node);
        self.wake_around(node)?;
        self.take_out(node)?;
        self.steps.push(Step::Spill(node))?;
        Ok(())
    }

    /// The classes of temporaries that remain, in rising order.
    fn candidates(&self, alloc: Global) -> Result<Vec<Candidate>, Memory>
        ensures { IfOk result (λ v. v.items ≡ steps.candidates self.now) }
    {
        let mut candidates = Vec::new(alloc);
        for node in COLOURS..self.graph.nodes() {
            if self.remains(node) {
                candidates.push(self.candidate(node))?;
            }
        }
        Ok(candidates)
    }

    fn candidate(&self, node: u32) -> Candidate
        requires low { colours ≤ node }
        requires high { node < self.now.graph.nodes }
        ensures { result ≡ steps.candidate self.now node }
    {
        Candidate {
            temp: node - COLOURS,
            degree: self.degrees[node as usize],
            uses: self.classes.uses(node),
            made: self.classes.is_made(node),
        }
    }
}

ghost use Rattle.std.specs.Prelude.{
  ◌≡◌,
  ◌<◌,
  ◌≤◌,
  ◌^◌,
  All,
  IfOk,
  IsFalse,
  IsTrue,
  OnOk,
  length,
  map,
  sum,
};
ghost use Rattle.tg_graph.specs.Interference.{colours};
ghost use Rattle.tg_irc_definition.specs.Rounds.{IsRound};
ghost use Rattle.tg_irc_definition.specs.States.{Problem, problem};
ghost use Rattle.tg_coalescing_round.specs.glue.Advancing.{Progresses};
ghost use Rattle.tg_coalescing_round.specs.glue.Standing.{
  answer_of,
  graph_of,
  is_done,
  IsOrderly,
  IsRunOf,
};

use crate::selection::{colours_of, select};
use crate::states::Coalescer;
use std::alloc::Global;
use tg_base::Memory;
use tg_graph::{Graph, Worklist};
use tg_irc_definition::{
    Colours, Move, Moves, NodeFacts, Nodes, Round, SpillPolicy, States, Steps,
};

/// A round of the allocator over a graph and its moves (George and Appel 1996, section 4). `facts`
/// has the facts of each node, the registers first. After `Memory` the policy may have been asked.
pub fn color(
    alloc: Global,
    graph: Graph,
    moves: &[Move],
    facts: &[NodeFacts],
    policy: &mut dyn SpillPolicy,
) -> Result<Round, Memory>
    requires facts { length facts.now ≡ graph.nodes }
    requires ends { All (λ m. (m.to < graph.nodes) × (m.from < graph.nodes)) moves.now }
    requires few_moves { length moves.now < 2 ^ 32 }
    requires few_uses { sum (map (λ m. m.uses) facts.now) < 2 ^ 32 }
    ensures round { IfOk result (λ round.
        IsRound (problem (graph_of graph) moves.now facts.now (rule policy.old)) round) }
    ensures same { rule policy.new ≡ rule policy.old }
{
    let mut work = Coalescer::new(alloc, graph, moves, facts)?;
    work.take_steps(alloc, policy)?;
    work.answer(alloc)
}

impl Coalescer {
    /// Takes steps until no temporary remains and no move is unsettled.
    fn take_steps(&mut self, alloc: Global, policy: &mut dyn SpillPolicy) -> Result<(), Memory>
        requires { IsOrderly self.old }
        ensures orderly { OnOk result (IsOrderly self.new) }
        ensures done { OnOk result (IsTrue (is_done self.new)) }
        ensures run { OnOk result ((g : Problem) →
            g.rule ≡ rule policy.old → IsRunOf g self.old → IsRunOf g self.new) }
        ensures same { rule policy.new ≡ rule policy.old }
    {
        while self.take_step(alloc, policy)? {}
        Ok(())
    }

    /// Takes a step of the first kind that is possible, or tries a move that then waits. Tells
    /// whether there was anything left to do.
    fn take_step(&mut self, alloc: Global, policy: &mut dyn SpillPolicy) -> Result<bool, Memory>
        requires { IsOrderly self.old }
        ensures more { IfOk result (λ more.
            IsTrue more → Progresses (rule policy.old) self.old self.new) }
        ensures done { IfOk result (λ more.
            IsFalse more → (self.new ≡ self.old) × IsTrue (is_done self.old)) }
        ensures same { rule policy.new ≡ rule policy.old }
    {
        if let Some(node) = self.lists.first(Worklist::Simplify) {
            self.simplify(node)?;
            return Ok(true);
        }
        if let Some(index) = self.moves.first_ready() {
            self.try_move(index)?;
            return Ok(true);
        }
        if let Some(node) = self.lists.first(Worklist::Freeze) {
            self.freeze(node)?;
            return Ok(true);
        }
        if self.lists.first(Worklist::Spill).is_some() {
            self.spill(alloc, policy)?;
            return Ok(true);
        }
        Ok(false)
    }

    /// What a round that is over answers.
    fn answer(self, alloc: Global) -> Result<Round, Memory>
        requires below { All (λ x. x < self.graph.nodes) self.stack }
        requires temporaries { All (λ x. colours ≤ x) self.stack }
        ensures { IfOk result (λ round. round ≡ answer_of self) }
    {
        let (colours, spilled) = self.select(alloc)?;
        Ok(self.into_round(colours, spilled))
    }

    /// The colour of each node, and the classes that found none.
    fn select(&self, alloc: Global) -> Result<(Vec<Option<u8>>, Vec<u32>), Memory>
        requires below { All (λ x. x < self.now.graph.nodes) self.now.stack }
        requires temporaries { All (λ x. colours ≤ x) self.now.stack }
        ensures colours { IfOk result (λ it. it.0.items ≡ (answer_of self.now).colours) }
        ensures spilled { IfOk result (λ it. it.1.items ≡ (answer_of self.now).spilled) }
    {
        let classes = select(alloc, &self.graph, &self.stack)?;
        let colours = colours_of(alloc, self.classes.aliases(), &classes.colours)?;
        Ok((colours, classes.spilled))
    }

    fn into_round(self, colours: Vec<Option<u8>>, spilled: Vec<u32>) -> Round
        ensures { result
            ≡ record (answer_of self) { colours = colours.items; spilled = spilled.items } }
    {
        let (moves, states) = self.moves.into_parts();
        Round {
            moves: Moves::from_vec(moves),
            steps: Steps::from_vec(self.steps),
            states: States::from_vec(states),
            aliases: Nodes::from_vec(self.classes.into_aliases()),
            colours: Colours::from_vec(colours),
            spilled: Nodes::from_vec(spilled),
        }
    }
}

// Each method of a round's code is an equation: what is kept afterwards is a function in
// `specs/` of what was kept before, so the laws of steps
// (`tg_coalescing_round/specs/glue/Advancing.antt`) touch no code. Where the rule leaves free
// under which node a merged class stands, it stands under the one of larger degree.

ghost use Rattle.std.specs.Prelude.{
  ◌≡◌,
  ◌<◌,
  ◌≤◌,
  ◌^◌,
  All,
  IfOk,
  OnOk,
  length,
  map,
  slice_index,
  sum,
};
ghost use Rattle.tg_graph.specs.Interference.{colours, IsGraph, most_nodes};
ghost use Rattle.tg_graph.specs.Interference as graphs;
ghost use Rattle.tg_coalescing_round.specs.glue.Lists.{lowered};
ghost use Rattle.tg_coalescing_round.specs.glue.Works as works;
ghost use Rattle.tg_coalescing_round.specs.glue.Works.{
  awake_around,
  from,
  is_high,
  is_left,
  is_open,
  list_of,
  relisted,
  settled,
  started,
  to,
};

use crate::classes::Classes;
use crate::tables::MoveTable;
use std::alloc::Global;
use std::marker::Model;
use tg_base::Memory;
use tg_graph::{COLOURS, Graph, Worklist, Worklists};
use tg_irc_definition::{Move, MoveState, NodeFacts, Step};

/// What carries out a round (George and Appel 1996, section 4). The graph has the pairs of all
/// merges; `degrees` counts for each temporary that remains its neighbours that remain; each
/// temporary that remains is in the worklist that its degree and its moves say; `stack` has those
/// that were taken out, the last one last.
#[derive(Drop)]
pub(crate) struct Coalescer {
    pub(crate) graph: Graph,
    pub(crate) lists: Worklists,
    pub(crate) degrees: Vec<u32>,
    pub(crate) classes: Classes,
    pub(crate) moves: MoveTable,
    pub(crate) stack: Vec<u32>,
    pub(crate) steps: Vec<Step>,
}

impl Model for Coalescer {
    ghost use Rattle.tg_coalescing_round.specs.glue.Works.{Work};
    ghost use Rattle.tg_coalescing_round.specs.glue.Standing.{IsSized};

    ghost Value = { Work };

    ghost use Rattle.tg_coalescing_round.specs.glue.ShownWork.{work_of};

    ghost view = { work_of };

    ghost invariant = { λ w. IsSized (work_of w) };
}

pub(crate) fn is_register(node: u32) -> bool
    ensures { result ≡ graphs.is_register node }
{
    node < COLOURS
}

impl Coalescer {
    /// The start of a round.
    pub(crate) fn new(
        alloc: Global,
        graph: Graph,
        moves: &[Move],
        facts: &[NodeFacts],
    ) -> Result<Coalescer, Memory>
        requires facts { length facts.now ≡ graph.nodes }
        requires ends { All (λ m. (m.to < graph.nodes) × (m.from < graph.nodes)) moves.now }
        requires few_moves { length moves.now < 2 ^ 32 }
        requires few_uses { sum (map (λ m. m.uses) facts.now) < 2 ^ 32 }
        ensures value { IfOk result (λ w. w ≡ started graph moves.now facts.now) }
        ensures low { colours ≤ graph.nodes }
        ensures few { graph.nodes ≤ most_nodes }
        ensures graph { IsGraph graph }
    {
        let nodes = graph.nodes();
        let mut work = Coalescer {
            degrees: degrees_of(alloc, &graph)?,
            lists: Worklists::new(alloc, nodes)?,
            classes: Classes::new(alloc, facts)?,
            moves: MoveTable::new(alloc, moves, nodes)?,
            stack: Vec::new(alloc),
            steps: Vec::new(alloc),
            graph,
        };
        for node in COLOURS..nodes {
            work.relist(node);
        }
        Ok(work)
    }

    /// Whether a node was neither taken out nor merged into another.
    pub(crate) fn remains(&self, node: u32) -> bool
        requires { node < self.now.graph.nodes }
        ensures { result ≡ is_left self.now.lists node }
    {
        holds_remaining(self.lists.place_of(node))
    }

    /// Whether a node is a temporary that remains.
    pub(crate) fn is_open(&self, node: u32) -> bool
        requires { node < self.now.graph.nodes }
        ensures { result ≡ is_open self.now node }
    {
        !is_register(node) && self.remains(node)
    }

    /// Whether a node that remains is a register or has as many neighbours as there are colours.
    pub(crate) fn is_high(&self, node: u32) -> bool
        requires { node < self.now.graph.nodes }
        ensures { result ≡ is_high self.now.lists node }
    {
        holds_high(self.lists.place_of(node))
    }

    /// The worklist of a temporary that remains, by its degree and its moves.
    fn list_of(&self, node: u32) -> Worklist
        requires { node < self.now.graph.nodes }
        ensures { result ≡ list_of self.now node }
    {
        if self.degrees[node as usize] >= COLOURS {
            Worklist::Spill
        } else if self.moves.is_move_related(node) {
            Worklist::Freeze
        } else {
            Worklist::Simplify
        }
    }

    /// Puts a node where its degree and its moves say, if it is a temporary that remains.
    pub(crate) fn relist(&mut self, node: u32)
        requires { node < self.old.graph.nodes }
        ensures { self.new ≡ relisted node self.old }
    {
        if self.is_open(node) {
            let list = self.list_of(node);
            self.lists.move_to(node, list);
        }
    }

    /// The class of the node to which a move goes.
    pub(crate) fn to(&self, index: u32) -> u32
        requires { index < length self.now.moves.moves }
        ensures value { result ≡ to self.now index }
        ensures within { result < self.now.graph.nodes }
    {
        self.classes.alias(self.moves.move_at(index).to)
    }

    /// The class of the node from which a move comes.
    pub(crate) fn from(&self, index: u32) -> u32
        requires { index < length self.now.moves.moves }
        ensures value { result ≡ from self.now index }
        ensures within { result < self.now.graph.nodes }
    {
        self.classes.alias(self.moves.move_at(index).from)
    }

    /// Gives an unsettled move its last state.
    pub(crate) fn settle(&mut self, index: u32, state: MoveState)
        requires index { index < length self.old.moves.moves }
        requires to_counted { 0 < slice_index self.old.moves.unsettled (to self.old index) }
        requires from_counted { 0 <
            slice_index (lowered (to self.old index) self.old.moves.unsettled)
            (from self.old index) }
        ensures { self.new ≡ settled index state self.old }
    {
        let to = self.to(index);
        let from = self.from(index);
        self.moves.settle(index, state, to, from);
        self.relist(to);
        self.relist(from);
    }

    /// Tries the waiting moves of a temporary's neighbours again.
    pub(crate) fn wake_around(&mut self, node: u32) -> Result<(), Memory>
        requires node { node < self.old.graph.nodes }
        requires temporary { colours ≤ node }
        ensures { OnOk result (self.new ≡ awake_around node self.old) }
    {
        if !self.moves.some_waits() {
            return Ok(());
        }
        for place in 0..self.graph.degree(node) {
            let other = self.graph.neighbours(node)[place as usize];
            self.moves.wake(other)?;
        }
        Ok(())
    }
}

/// Whether the nodes of a list remain.
fn holds_remaining(list: Worklist) -> bool
    ensures { result ≡ works.holds_remaining list }
{
    match list {
        Worklist::Fixed => true,
        Worklist::Simplify => true,
        Worklist::Freeze => true,
        Worklist::Spill => true,
        Worklist::Stacked => false,
        Worklist::Merged => false,
    }
}

/// Whether the nodes of a list are registers or have as many neighbours as there are colours.
fn holds_high(list: Worklist) -> bool
    ensures { result ≡ works.holds_high list }
{
    match list {
        Worklist::Fixed => true,
        Worklist::Simplify => false,
        Worklist::Freeze => false,
        Worklist::Spill => true,
        Worklist::Stacked => false,
        Worklist::Merged => false,
    }
}

/// The degree of each temporary, and 0 for each register.
fn degrees_of(alloc: Global, graph: &Graph) -> Result<Vec<u32>, Memory>
    ensures { IfOk result (λ v. v.items ≡ works.first_degrees graph.now) }
{
    let mut degrees = vec![in alloc; 0u32; COLOURS as usize]?;
    for node in COLOURS..graph.nodes() {
        degrees.push(graph.degree(node))?;
    }
    Ok(degrees)
}

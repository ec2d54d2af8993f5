ghost use Rattle.std.specs.Prelude.{◌≡◌, ◌<◌, ◌≤◌, ◌==◌, ℕ, IfOk, IfSome, IsTrue, slice_get};
ghost use Rattle.tg_graph.specs.Interference.{colours, is_among, most_nodes};
ghost use Rattle.tg_graph.specs.Lists as lists;
ghost use Rattle.tg_graph.specs.Lists.{after, moved, nodes_in, started};

use crate::chains::{link_last, link_range, unlink};
use crate::lists::{COLOURS, numbers};
use std::alloc::Global;
use std::marker::Model;
use tg_base::Memory;

/// The lists between which a round moves nodes (George and Appel 1996, section 4).
#[derive(Clone, Copy, PartialEq, Eq)]
pub enum Worklist {
    /// Registers.
    Fixed,
    /// Temporaries of low degree that no move touches.
    Simplify,
    /// Temporaries of low degree that a move touches.
    Freeze,
    /// Temporaries of high degree.
    Spill,
    /// Temporaries that were taken out of the graph, the first one first.
    Stacked,
    /// Temporaries that stand under another node.
    Merged,
}

/// How many lists there are.
const LISTS: u32 = 6;

/// The place of a list among the six.
fn number(list: Worklist) -> u32
    ensures value { result ≡ lists.number list }
    ensures fits { result < 6 }
{
    match list {
        Worklist::Fixed => 0,
        Worklist::Simplify => 1,
        Worklist::Freeze => 2,
        Worklist::Spill => 3,
        Worklist::Stacked => 4,
        Worklist::Merged => 5,
    }
}

/// The nodes of a graph in six lists, each in exactly one. The lists are linked by index both ways,
/// so each call but `new` takes a bounded number of steps and no memory. After the nodes stand six
/// ends, one for each list: after an end stands the list's first node and before it the last one.
#[derive(Drop)]
pub struct Worklists {
    nodes: u32,
    next: Vec<u32>,
    prev: Vec<u32>,
    places: Vec<Worklist>,
}

impl Model for Worklists {
    ghost use Rattle.tg_graph.specs.Lists.{Lists, lists_by};

    ghost Value = { Lists };

    ghost use Rattle.tg_graph.specs.glue.Linking.{list_from, AreLinked};

    ghost view = { λ l. lists_by l.nodes (list_from l.nodes l.next.items) };

    ghost invariant = { λ l.
        AreLinked l.nodes l.next.items l.prev.items l.places.items
        (list_from l.nodes l.next.items) };
}

impl Worklists {
    /// The registers in `Fixed` and all temporaries in `Spill`, in rising order. It takes all
    /// memory of the lists.
    pub fn new(alloc: Global, nodes: u32) -> Result<Worklists, Memory>
        requires low { colours ≤ nodes }
        requires high { nodes ≤ most_nodes }
        ensures { IfOk result (λ l. l ≡ started nodes) }
    {
        let mut next = numbers(alloc, nodes + LISTS)?;
        let mut prev = numbers(alloc, nodes + LISTS)?;
        let mut places = vec![in alloc; Worklist::Fixed; COLOURS as usize]?;
        places.resize(nodes as usize, Worklist::Spill)?;
        let fixed = nodes + number(Worklist::Fixed);
        link_range(&mut next, &mut prev, 0, COLOURS, fixed);
        let spill = nodes + number(Worklist::Spill);
        link_range(&mut next, &mut prev, COLOURS, nodes, spill);
        Ok(Worklists {
            nodes,
            next,
            prev,
            places,
        })
    }

    /// Takes a node out of its list and puts it last in the list named, which may be the same.
    pub fn move_to(&mut self, node: u32, list: Worklist)
        requires { node < self.old.nodes }
        ensures { self.new ≡ moved self.old node list }
    {
        let end = self.nodes + number(list);
        unlink(&mut self.next, &mut self.prev, node);
        link_last(&mut self.next, &mut self.prev, node, end);
        self.places[node as usize] = list;
    }

    /// The first node of a list.
    pub fn first(&self, list: Worklist) -> Option<u32>
        ensures value { result ≡ slice_get (nodes_in self.now list) 0 }
        ensures within { IfSome result (λ x. x < self.now.nodes) }
    {
        let front = self.next[(self.nodes + number(list)) as usize];
        (front < self.nodes).then_some(front)
    }

    /// The node that stands right after one in its list.
    pub fn next(&self, node: u32) -> Option<u32>
        requires { node < self.now.nodes }
        ensures value { (list : Worklist) → IsTrue (is_among node (nodes_in self.now list)) →
            result ≡ after node (nodes_in self.now list) }
        ensures within { IfSome result (λ x. x < self.now.nodes) }
    {
        let behind = self.next[node as usize];
        (behind < self.nodes).then_some(behind)
    }

    /// The list in which a node is.
    pub fn place_of(&self, node: u32) -> Worklist
        requires { node < self.now.nodes }
        ensures { (list : Worklist) →
            is_among node (nodes_in self.now list) ≡ (lists.number list == lists.number result) }
    {
        self.places[node as usize]
    }
}

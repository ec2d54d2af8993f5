ghost use Rattle.std.specs.Prelude.{
  ◌≡◌,
  ◌<◌,
  ◌≤◌,
  false,
  ℕ,
  All,
  IfOk,
  OnOk,
  length,
  map,
  slice_index_or,
};
ghost use Rattle.tg_graph.specs.Interference.{colours};
ghost use Rattle.tg_coalescing_round.specs.mirror.Selecting.{
  AreColours,
  colour_at,
  first_free,
  is_taken,
  popped,
  selected,
};
ghost use Rattle.tg_coalescing_round.specs.mirror.Selecting as selecting;

use std::alloc::Global;
use std::marker::Model;
use tg_base::Memory;
use tg_graph::{COLOURS, Graph};

/// What Select answers: the colour of each class by the node under which it stands, and the classes
/// that found none, in the order in which they were popped.
#[derive(Drop)]
pub(crate) struct Selection {
    pub(crate) colours: Vec<Option<u8>>,
    pub(crate) spilled: Vec<u32>,
}

impl Model for Selection {
    ghost use Rattle.tg_coalescing_round.specs.mirror.Selecting.{Picks, AreColours};

    ghost Value = { Picks };

    ghost view = { λ s. record { colours = s.colours.items; spilled = s.spilled.items } };

    ghost invariant = { λ s. AreColours s.colours.items };
}

/// Pops the stack, and gives each class the first colour that is free (George and Appel 1996,
/// section 2: Select). The neighbours of a class are read off the merged graph.
pub(crate) fn select(alloc: Global, graph: &Graph, stack: &[u32]) -> Result<Selection, Memory>
    requires below { All (λ x. x < graph.now.nodes) stack.now }
    requires temporaries { All (λ x. colours ≤ x) stack.now }
    ensures value { IfOk result (λ s. s ≡ selected graph.now stack.now) }
    ensures sized { IfOk result (λ s. length s.colours ≡ graph.now.nodes) }
{
    let mut selection = Selection {
        colours: precoloured(alloc, graph.nodes())?,
        spilled: Vec::new(alloc),
    };
    for place in 0..stack.len() {
        selection.pop(graph, stack[stack.len() - 1 - place])?;
    }
    Ok(selection)
}

impl Selection {
    /// Colours a class that is popped, or spills it.
    fn pop(&mut self, graph: &Graph, node: u32) -> Result<(), Memory>
        requires sized { length self.old.colours ≡ graph.now.nodes }
        requires node { node < graph.now.nodes }
        requires temporary { colours ≤ node }
        ensures ok { OnOk result (self.new ≡ popped graph.now self.old node) }
        ensures sized { length self.new.colours ≡ graph.now.nodes }
    {
        let free = first_free(taken_around(graph, &self.colours, node));
        if free.is_none() {
            self.spilled.push(node)?;
        }
        self.colours[node as usize] = free;
        Ok(())
    }
}

/// The registers in their own colours, and no other node in any.
fn precoloured(alloc: Global, nodes: u32) -> Result<Vec<Option<u8>>, Memory>
    ensures { IfOk result (λ v. v.items ≡ selecting.precoloured nodes) }
{
    let mut colours = Vec::with_capacity(alloc, nodes as usize)?;
    for node in 0..nodes {
        colours.push(own_colour(node))?;
    }
    Ok(colours)
}

fn own_colour(node: u32) -> Option<u8>
    ensures { result ≡ selecting.own_colour node }
{
    if node < COLOURS {
        Some(node as u8)
    } else {
        None
    }
}

/// Which colours the neighbours of a temporary have.
fn taken_around(graph: &Graph, colours: &[Option<u8>], node: u32) -> [bool; COLOURS as usize]
    requires sized { length colours.now ≡ graph.now.nodes }
    requires node { node < graph.now.nodes }
    requires temporary { 25 ≤ node }
    requires few { AreColours colours.now }
    ensures { (c : ℕ) → c < 25 →
        slice_index_or result c false ≡ is_taken graph.now colours.now node c }
{
    let mut taken = [false; COLOURS as usize];
    for other in graph.neighbours(node) {
        match colours[*other as usize] {
            Some(colour) => taken[colour as usize] = true,
            None => {}
        }
    }
    taken
}

/// The first colour that is not taken.
fn first_free(taken: [bool; COLOURS as usize]) -> Option<u8>
    ensures { result ≡ first_free (λ c. slice_index_or taken c false) }
{
    for colour in 0..COLOURS as u8 {
        if !taken[colour as usize] {
            return Some(colour);
        }
    }
    None
}

/// The colour of each node, which is that of its class.
pub(crate) fn colours_of(
    alloc: Global,
    aliases: &[u32],
    colours: &[Option<u8>],
) -> Result<Vec<Option<u8>>, Memory>
    requires { All (λ x. x < length colours.now) aliases.now }
    ensures { IfOk result (λ v. v.items ≡ map (colour_at colours.now) aliases.now) }
{
    let mut list = Vec::with_capacity(alloc, aliases.len())?;
    for alias in aliases {
        list.push(colours[*alias as usize])?;
    }
    Ok(list)
}

ghost use Rattle.std.specs.Prelude.{◌≡◌, ◌<◌, ◌≤◌, ◌-◌, ◌++◌, map, IfOk, OnOk};
ghost use Rattle.std.specs.List.{range_with_len};
ghost use Rattle.tg_show.specs.Graph as graphs;

use crate::runs::{put_operand, put_operands};
use crate::words::{put, put_byte, put_count};
use std::alloc::Global;
use tg_base::{Bytes, Memory, Temp};
use tg_graph::{COLOURS, Graph};
use tg_instr::Opnd;
use tg_irc_definition::Move;
use tg_regalloc::register_of;

/// Puts the lines of a round behind the first at the end: its number, its graph and its moves.
pub fn put_round_lines(
    alloc: Global,
    text: &mut Vec<u8>,
    names: &[Bytes],
    round: usize,
    graph: &Graph,
    moves: &[Move],
) -> Result<(), Memory>
    ensures { OnOk result (text.new.items
        ≡ text.old.items ++ graphs.round_lines names.now round graph.now moves.now) }
{
    put(text, b"  round ")?;
    put_count(text, round)?;
    put_byte(text, b'\n')?;
    put_graph_lines(alloc, text, names, graph, moves)
}

/// Puts the lines of a graph's temporaries at the end, and of the moves between its nodes.
pub fn put_graph_lines(
    alloc: Global,
    text: &mut Vec<u8>,
    names: &[Bytes],
    graph: &Graph,
    moves: &[Move],
) -> Result<(), Memory>
    ensures { OnOk result (text.new.items
        ≡ text.old.items ++ graphs.graph_lines names.now graph.now moves.now) }
{
    put_node_lines(alloc, text, names, graph)?;
    put_move_lines(text, names, moves)
}

fn put_node_lines(
    alloc: Global,
    text: &mut Vec<u8>,
    names: &[Bytes],
    graph: &Graph,
) -> Result<(), Memory>
    ensures { OnOk result (text.new.items ≡ text.old.items
        ++ graphs.node_lines names.now graph.now (range_with_len 25 (graph.now.nodes - 25))) }
{
    for node in COLOURS..graph.nodes() {
        put_node_line(alloc, text, names, graph, node)?;
    }
    Ok(())
}

fn put_node_line(
    alloc: Global,
    text: &mut Vec<u8>,
    names: &[Bytes],
    graph: &Graph,
    node: u32,
) -> Result<(), Memory>
    requires temporary { 25 ≤ node }
    requires within { node < graph.now.nodes }
    ensures { OnOk result (text.new.items
        ≡ text.old.items ++ graphs.node_line names.now graph.now node) }
{
    put(text, b"  ")?;
    put_node(text, names, node)?;
    put(text, degree_text(graph.degree(node)))?;
    put_nodes(alloc, text, names, graph.neighbours(node))?;
    put_byte(text, b'\n')
}

fn degree_text(degree: u32) -> &'static [u8]
    ensures { result.now ≡ graphs.degree_text degree }
{
    if degree < COLOURS { b" low" } else { b" high" }
}

fn put_nodes(
    alloc: Global,
    text: &mut Vec<u8>,
    names: &[Bytes],
    nodes: &[u32],
) -> Result<(), Memory>
    ensures { OnOk result (text.new.items
        ≡ text.old.items ++ graphs.nodes_text names.now nodes.now) }
{
    let operands = operands_of(alloc, nodes)?;
    put_operands(text, names, &operands)
}

fn operands_of(alloc: Global, nodes: &[u32]) -> Result<Vec<Opnd>, Memory>
    ensures { IfOk result (λ list. list.items ≡ map graphs.operand_of nodes.now) }
{
    let mut list = Vec::new(alloc);
    for &node in nodes.iter() {
        list.push(operand_of(node))?;
    }
    Ok(list)
}

/// What a node stands for.
fn operand_of(node: u32) -> Opnd
    ensures { result ≡ graphs.operand_of node }
{
    if node < COLOURS {
        Opnd::Reg(register_of(node as u8))
    } else {
        Opnd::Temp(Temp(node - COLOURS))
    }
}

/// Puts a node at the end: a register's name, or a temporary.
fn put_node(text: &mut Vec<u8>, names: &[Bytes], node: u32) -> Result<(), Memory>
    ensures { OnOk result (text.new.items ≡ text.old.items ++ graphs.node_text names.now node) }
{
    put_operand(text, names, operand_of(node))
}

fn put_move_lines(text: &mut Vec<u8>, names: &[Bytes], moves: &[Move]) -> Result<(), Memory>
    ensures { OnOk result (text.new.items
        ≡ text.old.items ++ graphs.move_lines names.now moves.now) }
{
    for &one in moves.iter() {
        put_move_line(text, names, one)?;
    }
    Ok(())
}

fn put_move_line(text: &mut Vec<u8>, names: &[Bytes], one: Move) -> Result<(), Memory>
    ensures { OnOk result (text.new.items ≡ text.old.items ++ graphs.move_line names.now one) }
{
    put(text, b"  move ")?;
    put_node(text, names, one.to)?;
    put_byte(text, b' ')?;
    put_node(text, names, one.from)?;
    put_byte(text, b'\n')
}

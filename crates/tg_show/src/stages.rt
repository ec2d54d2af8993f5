ghost use Rattle.std.specs.Prelude.{◌≡◌, ◌∷◌, [], ◌++◌, length, IsTrue, OnOk};
ghost use Rattle.std.specs.List.{list_all};
ghost use Rattle.tg_tree.specs.glue.Lists.{code_of, stms_of};
ghost use Rattle.tg_tree.specs.glue.Plain.{plain_ts};
ghost use Rattle.tg_trace_schedule.specs.glue.Plains.{plain_blocks};
ghost use Rattle.tg_emit.specs.Conditions.{has_labels};
ghost use Rattle.tg_show.specs.Graph.{round_lines};
ghost use Rattle.tg_show.specs.Stages as stages;

use crate::assembly::put_assembly_lines;
use crate::blocks::put_blocks_lines;
use crate::flat::{put_elements, put_statement, put_statements};
use crate::graphs::{put_graph_lines, put_round_lines};
use crate::instructions::put_instructions;
use crate::liveness::put_live_lines;
use crate::registers::put_allocation_lines;
use crate::variables::{FunctionVariables, put_place, put_variables_lines};
use crate::words::{put, put_byte, put_numbered};
use std::alloc::Global;
use tg_base::{Bytes, Label, Memory, Place};
use tg_emit::Line;
use tg_graph::Graph;
use tg_instr::Instr;
use tg_irc_definition::Move;
use tg_live::LiveSets;
use tg_regalloc::Allocation;
use tg_trace_schedule::Block;
use tg_tree::{Linear, Ts};

/// Puts the line at the end with which the stages of a function begin: its label's number, its
/// name, and the place where the source declares it, if it does.
pub fn put_function(
    text: &mut Vec<u8>,
    label: Label,
    name: &[u8],
    place: Option<Place>,
) -> Result<(), Memory>
    ensures { OnOk result (text.new.items
        ≡ text.old.items ++ stages.function_line label.0 name.now place) }
{
    put_numbered(text, b"function ", label.0)?;
    put_byte(text, b' ')?;
    put(text, name)?;
    put_declared(text, place)?;
    put_byte(text, b'\n')
}

fn put_declared(text: &mut Vec<u8>, place: Option<Place>) -> Result<(), Memory>
    ensures { OnOk result (text.new.items ≡ text.old.items ++ stages.declared_text place) }
{
    match place {
        Some(place) => put_place(text, place),
        None => Ok(()),
    }
}

/// Puts the stage of a function's variables at the end.
pub fn put_variables(text: &mut Vec<u8>, all: &FunctionVariables) -> Result<(), Memory>
    ensures { OnOk result (text.new.items
        ≡ text.old.items ++ stages.variables_stage all.now) }
{
    put_line(text, b"variables")?;
    put_variables_lines(text, all)
}

fn put_line(text: &mut Vec<u8>, line: &[u8]) -> Result<(), Memory>
    ensures { OnOk result (text.new.items ≡ text.old.items ++ (line.now ++ 10 ∷ [])) }
{
    put(text, line)?;
    put_byte(text, b'\n')
}

/// Puts the stage of a function's tree at the end, given the names of its temporaries by their
/// numbers, with an empty name or none where a temporary has none.
pub fn put_tree(alloc: Global, text: &mut Vec<u8>, names: &[Bytes], body: &Ts) -> Result<(), Memory>
    ensures { OnOk result (text.new.items
        ≡ text.old.items ++ stages.tree_stage names.now (plain_ts body.now)) }
{
    put_line(text, b"tree")?;
    put_statement(alloc, text, names, 1, body)
}

/// Puts the stage of a function's tree after it was folded at the end.
pub fn put_folded(
    alloc: Global,
    text: &mut Vec<u8>,
    names: &[Bytes],
    body: &Ts,
) -> Result<(), Memory>
    ensures { OnOk result (text.new.items
        ≡ text.old.items ++ stages.folded_stage names.now (plain_ts body.now)) }
{
    put_line(text, b"folded")?;
    put_statement(alloc, text, names, 1, body)
}

/// Puts the stage of canonical statements at the end.
pub fn put_canonical(
    alloc: Global,
    text: &mut Vec<u8>,
    names: &[Bytes],
    statements: &[Ts],
) -> Result<(), Memory>
    ensures { OnOk result (text.new.items
        ≡ text.old.items ++ stages.canonical_stage names.now (stms_of statements.now)) }
{
    put_line(text, b"canonical")?;
    put_statements(alloc, text, names, 1, statements)
}

/// Puts the stage of basic blocks at the end.
pub fn put_blocks(
    alloc: Global,
    text: &mut Vec<u8>,
    names: &[Bytes],
    blocks: &[Block],
) -> Result<(), Memory>
    ensures { OnOk result (text.new.items
        ≡ text.old.items ++ stages.blocks_stage names.now (plain_blocks blocks.now)) }
{
    put_line(text, b"blocks")?;
    put_blocks_lines(alloc, text, names, blocks)
}

/// Puts the stage of flat code, in the order of its traces, at the end.
pub fn put_traces(
    alloc: Global,
    text: &mut Vec<u8>,
    names: &[Bytes],
    code: &[Linear],
) -> Result<(), Memory>
    ensures { OnOk result (text.new.items
        ≡ text.old.items ++ stages.traces_stage names.now (code_of code.now)) }
{
    put_line(text, b"traces")?;
    put_elements(alloc, text, names, code)
}

/// Puts the stage of instructions over temporaries and registers at the end.
pub fn put_code(
    alloc: Global,
    text: &mut Vec<u8>,
    names: &[Bytes],
    list: &[Instr],
) -> Result<(), Memory>
    ensures { OnOk result (text.new.items
        ≡ text.old.items ++ stages.instructions_stage names.now list.now) }
{
    put_line(text, b"instructions")?;
    put_instructions(alloc, text, names, list)
}

/// Puts the stage of liveness at the end.
pub fn put_live(
    alloc: Global,
    text: &mut Vec<u8>,
    names: &[Bytes],
    list: &[Instr],
    sets: &LiveSets,
) -> Result<(), Memory>
    requires { length sets.now ≡ length list.now }
    ensures { OnOk result (text.new.items
        ≡ text.old.items ++ stages.live_stage names.now sets.now list.now) }
{
    put_line(text, b"live")?;
    put_live_lines(alloc, text, names, list, sets)
}

/// Puts the stage of an interference graph and the moves between its nodes at the end.
pub fn put_graph(
    alloc: Global,
    text: &mut Vec<u8>,
    names: &[Bytes],
    graph: &Graph,
    moves: &[Move],
) -> Result<(), Memory>
    ensures { OnOk result (text.new.items
        ≡ text.old.items ++ stages.graph_stage names.now graph.now moves.now) }
{
    put_line(text, b"graph")?;
    put_graph_lines(alloc, text, names, graph, moves)
}

/// Puts the lines of a round behind the first at the end, which stand below those of the stage of
/// the interference graph: its number, from 2 on, its graph and the moves between its nodes.
pub fn put_round(
    alloc: Global,
    text: &mut Vec<u8>,
    names: &[Bytes],
    round: usize,
    graph: &Graph,
    moves: &[Move],
) -> Result<(), Memory>
    ensures { OnOk result (text.new.items
        ≡ text.old.items ++ round_lines names.now round graph.now moves.now) }
{
    put_round_lines(alloc, text, names, round, graph, moves)
}

/// Puts the stage of an allocation at the end.
pub fn put_registers(text: &mut Vec<u8>, names: &[Bytes], one: &Allocation) -> Result<(), Memory>
    ensures { OnOk result (text.new.items
        ≡ text.old.items ++ stages.registers_stage names.now one.now) }
{
    put_line(text, b"registers")?;
    put_allocation_lines(text, names, one)
}

/// Puts the stage of lines of assembly at the end.
pub fn put_assembly(alloc: Global, text: &mut Vec<u8>, lines: &[Line]) -> Result<(), Memory>
    requires { IsTrue (list_all has_labels lines.now) }
    ensures { OnOk result (text.new.items
        ≡ text.old.items ++ stages.assembly_stage lines.now) }
{
    put_line(text, b"assembly")?;
    put_assembly_lines(alloc, text, lines)
}

ghost use Rattle.std.specs.Prelude.{◌≡◌, ◌++◌, OnOk};
ghost use Rattle.tg_regalloc_report.specs.Listing.{
  merge_line,
  move_at,
  move_line,
  round_lines,
  spilled_lines,
  step_line,
  step_lines,
  test_text,
};

use crate::nodes::{put_node, put_node_line, put_number_line};
use tg_base::Memory;
use tg_irc_definition::{Move, Round, Step};

/// Puts the lines of a round at the end: its number, its steps, and the classes that were spilled.
pub fn put_round(text: &mut Vec<u8>, number: usize, round: &Round) -> Result<(), Memory>
    ensures { OnOk result (text.new.items ≡ text.old.items ++ round_lines number round.now) }
{
    put_number_line(text, b"round ", number)?;
    put_steps(text, round.moves.as_slice(), round.steps.as_slice())?;
    put_spilled(text, round.spilled.as_slice())
}

fn put_steps(text: &mut Vec<u8>, moves: &[Move], steps: &[Step]) -> Result<(), Memory>
    ensures { OnOk result (text.new.items ≡ text.old.items ++ step_lines moves.now steps.now) }
{
    for step in steps {
        put_step(text, moves, step)?;
    }
    Ok(())
}

fn put_spilled(text: &mut Vec<u8>, nodes: &[u32]) -> Result<(), Memory>
    ensures { OnOk result (text.new.items ≡ text.old.items ++ spilled_lines nodes.now) }
{
    for node in nodes {
        put_node_line(text, b"spilled ", *node)?;
    }
    Ok(())
}

/// Puts the line of a step at the end.
fn put_step(text: &mut Vec<u8>, moves: &[Move], step: &Step) -> Result<(), Memory>
    ensures { OnOk result (text.new.items ≡ text.old.items ++ step_line moves.now step.now) }
{
    match step {
        Step::Simplify(node) => put_node_line(text, b"simplify ", *node),
        Step::Same(index) => put_move(text, b"same ", move_at(moves, *index)),
        Step::Constrain(index) => put_move(text, b"constrain ", move_at(moves, *index)),
        Step::Coalesce {
            kept,
            gone,
            briggs,
            ..
        } => put_merge(text, *kept, *gone, *briggs),
        Step::Freeze(node) => put_node_line(text, b"freeze ", *node),
        Step::Spill(node) => put_node_line(text, b"spill ", *node),
    }
}

/// The move at a place.
fn move_at(moves: &[Move], index: u32) -> Move
    ensures { result ≡ move_at moves.now index }
{
    match moves.get(index as usize) {
        Some(one) => *one,
        None => Move { to: 0, from: 0 },
    }
}

/// Puts a word and the ends of a move at the end, as they are written in the code.
fn put_move(text: &mut Vec<u8>, word: &[u8], one: Move) -> Result<(), Memory>
    ensures { OnOk result (text.new.items ≡ text.old.items ++ move_line word.now one) }
{
    text.extend_from_slice(word)?;
    put_node(text, one.to)?;
    text.push(b' ')?;
    put_node(text, one.from)?;
    text.push(b'\n')?;
    Ok(())
}

/// Puts the line of two classes that became one at the end: the second goes into the first.
fn put_merge(text: &mut Vec<u8>, kept: u32, gone: u32, briggs: bool) -> Result<(), Memory>
    ensures { OnOk result (text.new.items ≡ text.old.items ++ merge_line kept gone briggs) }
{
    text.extend_from_slice(b"coalesce ")?;
    put_node(text, kept)?;
    text.push(b' ')?;
    put_node(text, gone)?;
    text.extend_from_slice(test_text(briggs))?;
    Ok(())
}

/// The name of the test that a merge passed.
fn test_text(briggs: bool) -> &'static [u8]
    ensures { result.now ≡ test_text briggs }
{
    if briggs { b" briggs\n" } else { b" george\n" }
}

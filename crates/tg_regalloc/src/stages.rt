ghost use Rattle.std.specs.Prelude.{
  ◌≡◌,
  ◌<◌,
  ◌≤◌,
  ◌+◌,
  ◌^◌,
  ℕ,
  All,
  IfOk,
  OnOk,
  filter,
  length,
  map,
  nat_lt,
  slice_index_or,
};
ghost use Rattle.tg_interference.specs.Nodes.{most_temps};
ghost use Rattle.tg_interference.specs.Pairs.{IsInterference};
ghost use Rattle.tg_regalloc.specs.Rewriting.{slot_by, slotted};
ghost use Rattle.tg_regalloc.specs.Rounds.{IsOfTemps, IsRoundOf, CodeIsNumbered, stage_of};

use std::alloc::Global;
use tg_base::Memory;
use tg_coalescing_round::color;
use tg_graph::{COLOURS, Graph};
use tg_instr::Code;
use tg_interference::{facts_of_nodes, interference, moves_of};
use tg_irc_definition::{Round, SpillPolicy, rounds_are_of_nodes};
use tg_live::{flow, live};

/// The most temporaries that a code may have before a round, and the most instructions: above
/// these the numbers of nodes and of uses don't fit.
const MOST_TEMPS: u32 = 16_777_216;

const MOST_INSTRUCTIONS: usize = 89_478_485;

/// That nodes, uses and made temporaries of a code have numbers, or else `Memory`.
pub fn check_size(code: &Code) -> Result<(), Memory>
    ensures { OnOk result (CodeIsNumbered code.now) }
{
    if code.temps > MOST_TEMPS || code.list.as_slice().len() > MOST_INSTRUCTIONS {
        return Err(Memory);
    }
    Ok(())
}

/// A round on the interference graph of a code. `originals` is the number of temporaries that
/// spilling hasn't made.
pub fn color_code(
    alloc: Global,
    code: &Code,
    originals: u32,
    policy: &mut dyn SpillPolicy,
) -> Result<Round, Memory>
    ensures round { IfOk result (λ round.
        IsRoundOf (rule policy.old) originals (stage_of code.now 0) round) }
    ensures nodes { IfOk result (λ round. IsOfTemps code.now.temps round) }
    ensures small { OnOk result (CodeIsNumbered code.now) }
    ensures same { rule policy.new ≡ rule policy.old }
{
    check_size(code)?;
    rounds_are_of_nodes();
    let moves = moves_of(alloc, code)?;
    let facts = facts_of_nodes(alloc, code, originals)?;
    let graph = build_graph(alloc, code)?;
    color(alloc, graph, moves.as_slice(), facts.as_slice(), policy)
}

/// The interference graph of a code (Appel, chapter 11: `Build`).
fn build_graph(alloc: Global, code: &Code) -> Result<Graph, Memory>
    requires { code.now.temps ≤ most_temps }
    ensures { IfOk result (λ graph. IsInterference code.now.list code.now.temps graph) }
{
    let flow = flow(alloc, code)?;
    let live = live(alloc, code, &flow)?;
    interference(alloc, code, &live)
}

/// The spilled classes that hold an original, by the nodes under which they stand.
pub fn slotted(alloc: Global, originals: u32, round: &Round) -> Result<Vec<u32>, Memory>
    requires { originals < 2 ^ 31 }
    ensures { IfOk result (λ classes. classes.items ≡ slotted originals round.now) }
{
    originals_of(alloc, COLOURS + originals, round.spilled.as_slice())
}

/// The nodes below a number.
fn originals_of(alloc: Global, end: u32, nodes: &[u32]) -> Result<Vec<u32>, Memory>
    ensures { IfOk result (λ some. some.items ≡ filter (λ x. nat_lt x end) nodes.now) }
{
    let mut some = Vec::new(alloc);
    for node in nodes.iter() {
        if *node < end {
            some.push(*node)?;
        }
    }
    Ok(some)
}

/// The slot of each temporary whose class went to one, by the nodes under which the temporaries'
/// classes stand: the classes take slots in their order, from `base` on.
pub fn slots_of(
    alloc: Global,
    base: u32,
    nodes: usize,
    aliases: &[u32],
    classes: &[u32],
) -> Result<Vec<Option<u32>>, Memory>
    requires aliases { All (λ x. x < nodes) aliases.now }
    requires classes { All (λ x. x < nodes) classes.now }
    requires room { base + length classes.now < 2 ^ 32 }
    ensures { IfOk result (λ slots. slots.items ≡ map (slot_by classes.now base) aliases.now) }
{
    let table = class_slots(alloc, base, nodes, classes)?;
    let mut slots = Vec::with_capacity(alloc, aliases.len())?;
    for class in aliases.iter() {
        slots.push(table[*class as usize])?;
    }
    Ok(slots)
}

/// The slot of each node under which a class stands that took one.
fn class_slots(
    alloc: Global,
    base: u32,
    nodes: usize,
    classes: &[u32],
) -> Result<Vec<Option<u32>>, Memory>
    requires classes { All (λ x. x < nodes) classes.now }
    requires room { base + length classes.now < 2 ^ 32 }
    ensures size { IfOk result (λ table. length table.items ≡ nodes) }
    ensures each { IfOk result (λ table. (x : ℕ) → x < nodes →
        slice_index_or table.items x None ≡ slot_by classes.now base x) }
{
    let mut table = vec![in alloc; None; nodes]?;
    for at in (0..classes.len()).rev() {
        table[classes[at] as usize] = Some(base + at as u32);
    }
    Ok(table)
}

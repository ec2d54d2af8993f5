ghost use Rattle.std.specs.Prelude.{◌≡◌, ◌∷◌, ◌++◌, [], false, IfOk, replicate};

use crate::drawing::{join_registers, originals};
use std::alloc::Global;
use std::test::Fail;
use tg_base::Memory;
use tg_coalescing_round::color;
use tg_graph::Graph;
use tg_irc_definition::{LeastUse, Move, MoveState, NodeFacts, Step};

#[test]
fn a_free_move_is_coalesced(rt: HostRuntime) -> Result<(), Fail> {
    let graph = Graph::new(rt.alloc(), 27)?;
    let facts = originals(rt.alloc(), 27)?;
    let moves = [Move { to: 25, from: 26 }];
    let round = color(rt.alloc(), graph, &moves, &facts, &mut LeastUse)?;
    let coalesce = Step::Coalesce {
        index: 0,
        kept: 25,
        gone: 26,
        briggs: true,
    };
    assert_eq!(rt;
        round.steps.as_slice(),
        [coalesce, Step::Simplify(25)].as_slice()
    );
    assert_eq!(rt; round.states.as_slice(), [MoveState::Coalesced].as_slice());
    assert_eq!(rt; &round.aliases.as_slice()[25..], [25, 25].as_slice());
    assert_eq!(rt;
        &round.colours.as_slice()[25..],
        [Some(0), Some(0)].as_slice()
    );
    assert!(rt; round.spilled.as_slice().is_empty());
    Ok(())
}

#[test]
fn a_move_between_neighbours_is_constrained(rt: HostRuntime) -> Result<(), Fail> {
    let mut graph = Graph::new(rt.alloc(), 27)?;
    graph.add_edge(25, 26)?;
    let facts = originals(rt.alloc(), 27)?;
    let moves = [Move { to: 25, from: 26 }];
    let round = color(rt.alloc(), graph, &moves, &facts, &mut LeastUse)?;
    let steps = [Step::Constrain(0), Step::Simplify(25), Step::Simplify(26)];
    assert_eq!(rt; round.steps.as_slice(), steps.as_slice());
    assert_eq!(rt;
        round.states.as_slice(),
        [MoveState::Constrained].as_slice()
    );
    assert_eq!(rt;
        &round.colours.as_slice()[25..],
        [Some(1), Some(0)].as_slice()
    );
    Ok(())
}

#[test]
fn a_move_from_a_register_is_coalesced(rt: HostRuntime) -> Result<(), Fail> {
    let graph = Graph::new(rt.alloc(), 26)?;
    let facts = originals(rt.alloc(), 26)?;
    let moves = [Move { to: 25, from: 2 }];
    let round = color(rt.alloc(), graph, &moves, &facts, &mut LeastUse)?;
    let coalesce = Step::Coalesce {
        index: 0,
        kept: 2,
        gone: 25,
        briggs: false,
    };
    assert_eq!(rt; round.steps.as_slice(), [coalesce].as_slice());
    assert_eq!(rt; &round.aliases.as_slice()[25..], [2].as_slice());
    assert_eq!(rt; &round.colours.as_slice()[25..], [Some(2)].as_slice());
    Ok(())
}

#[test]
fn a_crowded_temporary_is_spilled(rt: HostRuntime) -> Result<(), Fail> {
    let mut graph = Graph::new(rt.alloc(), 26)?;
    join_registers(&mut graph, 25, 0, 25)?;
    let facts = originals(rt.alloc(), 26)?;
    let round = color(rt.alloc(), graph, &[], &facts, &mut LeastUse)?;
    assert_eq!(rt; round.steps.as_slice(), [Step::Spill(25)].as_slice());
    assert_eq!(rt; &round.colours.as_slice()[25..], [None].as_slice());
    assert_eq!(rt; round.spilled.as_slice(), [25].as_slice());
    Ok(())
}

#[test]
fn a_blocked_move_is_frozen(rt: HostRuntime) -> Result<(), Fail> {
    let mut graph = Graph::new(rt.alloc(), 27)?;
    graph.add_edge(25, 26)?;
    join_registers(&mut graph, 26, 0, 2)?;
    join_registers(&mut graph, 26, 3, 25)?;
    let facts = originals(rt.alloc(), 27)?;
    let moves = [Move { to: 25, from: 2 }];
    let round = color(rt.alloc(), graph, &moves, &facts, &mut LeastUse)?;
    let steps = [Step::Freeze(25), Step::Simplify(25), Step::Simplify(26)];
    assert_eq!(rt; round.steps.as_slice(), steps.as_slice());
    assert_eq!(rt; round.states.as_slice(), [MoveState::Frozen].as_slice());
    assert_eq!(rt;
        &round.colours.as_slice()[25..],
        [Some(0), Some(2)].as_slice()
    );
    Ok(())
}

#[test]
fn neither_end_takes_a_colour_of_a_neighbour_of_the_other(rt: HostRuntime) -> Result<(), Fail> {
    let mut graph = Graph::new(rt.alloc(), 27)?;
    graph.add_edge(26, 0)?;
    let facts = originals(rt.alloc(), 27)?;
    let moves = [Move { to: 25, from: 26 }];
    let round = color(rt.alloc(), graph, &moves, &facts, &mut LeastUse)?;
    assert_eq!(rt;
        &round.colours.as_slice()[25..],
        [Some(1), Some(1)].as_slice()
    );
    Ok(())
}

#[test]
fn an_original_is_kept(rt: HostRuntime) -> Result<(), Fail> {
    let graph = Graph::new(rt.alloc(), 27)?;
    let mut facts = originals(rt.alloc(), 25)?;
    facts.push(NodeFacts {
        uses: 2,
        made: true,
    })?;
    facts.push(NodeFacts {
        uses: 2,
        made: false,
    })?;
    let moves = [Move { to: 25, from: 26 }];
    let round = color(rt.alloc(), graph, &moves, &facts, &mut LeastUse)?;
    assert_eq!(rt; &round.aliases.as_slice()[25..], [26, 26].as_slice());
    Ok(())
}

/// Two high temporaries and a move that fails its test at the second.
fn failing(alloc: Global, uses: u32) -> Result<(Graph, Vec<NodeFacts>), Memory>
    ensures nodes { IfOk result (λ it. it.0.nodes ≡ 27) }
    ensures facts { IfOk result (λ it. it.1.items
        ≡ replicate 25 (record { uses = 2; made = false })
        ++ record { uses = 2; made = false } ∷ record { uses = uses; made = false } ∷ []) }
{
    let mut graph = Graph::new(alloc, 27)?;
    graph.add_edge(25, 26)?;
    join_registers(&mut graph, 25, 0, 24)?;
    join_registers(&mut graph, 26, 0, 24)?;
    let mut facts = originals(alloc, 25)?;
    facts.push(NodeFacts {
        uses: 2,
        made: false,
    })?;
    facts.push(NodeFacts { uses, made: false })?;
    Ok((graph, facts))
}

#[test]
fn a_spill_freezes_the_moves_of_its_own(rt: HostRuntime) -> Result<(), Fail> {
    let (graph, facts) = failing(rt.alloc(), 3)?;
    let moves = [Move { to: 25, from: 24 }];
    let round = color(rt.alloc(), graph, &moves, &facts, &mut LeastUse)?;
    let steps = [Step::Spill(25), Step::Simplify(26)];
    assert_eq!(rt; round.steps.as_slice(), steps.as_slice());
    assert_eq!(rt; round.states.as_slice(), [MoveState::Frozen].as_slice());
    assert_eq!(rt;
        &round.colours.as_slice()[25..],
        [None, Some(24)].as_slice()
    );
    Ok(())
}

#[test]
fn a_spill_lets_a_move_near_it_pass(rt: HostRuntime) -> Result<(), Fail> {
    let (graph, facts) = failing(rt.alloc(), 1)?;
    let moves = [Move { to: 25, from: 24 }];
    let round = color(rt.alloc(), graph, &moves, &facts, &mut LeastUse)?;
    let coalesce = Step::Coalesce {
        index: 0,
        kept: 24,
        gone: 25,
        briggs: false,
    };
    assert_eq!(rt;
        round.steps.as_slice(),
        [Step::Spill(26), coalesce].as_slice()
    );
    assert_eq!(rt; round.states.as_slice(), [MoveState::Coalesced].as_slice());
    Ok(())
}

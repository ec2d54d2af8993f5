ghost use Rattle.std.specs.Prelude.{◌≡◌, ◌≤◌, ◌∷◌, ◌++◌, [], IfOk, IsTrue, OnOk};
ghost use Rattle.tg_instr.specs.Codes.{has_temps_below};
ghost use Rattle.tg_instr.specs.Shapes.{shape};
ghost use Rattle.tg_interference.specs.Nodes.{most_temps};
ghost use Rattle.tg_interference.specs.Moves.{between, move_of, moves_of};

use crate::nodes::node_of;
use std::alloc::Global;
use tg_base::Memory;
use tg_instr::{Code, Instr};
use tg_irc_definition::{Move, Moves};

/// The move instructions of a code whose ends both have nodes, in the order of the code.
pub fn moves_of(alloc: Global, code: &Code) -> Result<Moves, Memory>
    requires { code.now.temps ≤ most_temps }
    ensures { IfOk result (λ moves. moves ≡ moves_of code.now.list) }
{
    let list = code.list.as_slice();
    let mut moves = Vec::new(alloc);
    for one in list {
        push_move(one, &mut moves)?;
    }
    Ok(Moves::from_vec(moves))
}

// Puts the move of an instruction, where it has one, at the end of a list.
fn push_move(one: &Instr, moves: &mut Vec<Move>) -> Result<(), Memory>
    requires { IsTrue (has_temps_below most_temps one.now) }
    ensures { OnOk result (moves.new.items ≡ moves.old.items ++ moves_of (one.now ∷ [])) }
{
    match move_of(one) {
        Some(between) => {
            moves.push(between)?;
            Ok(())
        }
        None => Ok(()),
    }
}

/// The move of a move instruction whose ends both have nodes.
pub(crate) fn move_of(one: &Instr) -> Option<Move>
    requires { IsTrue (has_temps_below most_temps one.now) }
    ensures { result ≡ move_of (shape one.now) }
{
    match one {
        Instr::Move(to, from) => between(node_of(to), node_of(from)),
        _ => None,
    }
}

fn between(to: Option<u32>, from: Option<u32>) -> Option<Move>
    ensures { result ≡ between to from }
{
    let to = to?;
    let from = from?;
    Some(Move { to, from })
}

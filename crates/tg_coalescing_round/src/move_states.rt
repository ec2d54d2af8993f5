// A waiting move is woken by fewer events than the rule tries again: `waiting_fails` says that
// no other could pass, so no step shows the difference.

ghost use Rattle.std.specs.Prelude.{
  ◌≡◌,
  ◌<◌,
  IfOk,
  count_by,
  length,
  nat_lt,
  replicate,
  slice_index_or,
  slice_set,
  if◌then◌else◌,
};
ghost use Rattle.tg_irc_definition.specs.declared.moves.MoveState.TheVariants.{Ready};
ghost use Rattle.tg_coalescing_round.specs.glue.Tables as tables;
ghost use Rattle.tg_coalescing_round.specs.glue.Tables.{is_waiting};

use std::alloc::Global;
use std::marker::Model;
use tg_base::Memory;
use tg_irc_definition::MoveState;

/// What has become of each move, and how many of the moves wait: mostly none does, and then none
/// has to be looked for.
#[derive(Drop)]
pub(crate) struct MoveStates {
    states: Vec<MoveState>,
    waiting: usize,
}

impl Model for MoveStates {
    ghost use Rattle.std.specs.Prelude.{◌≡◌, List, count_by};
    ghost use Rattle.tg_irc_definition.specs.declared.moves.MoveState.{MoveState};
    ghost use Rattle.tg_coalescing_round.specs.glue.Tables.{is_waiting};

    ghost Value = { List MoveState };

    ghost view = { λ s. s.states.items };

    ghost invariant = { λ s. s.waiting ≡ count_by is_waiting s.states.items };
}

impl MoveStates {
    /// So many ready ones.
    pub(crate) fn new(alloc: Global, count: usize) -> Result<MoveStates, Memory>
        ensures { IfOk result (λ s. s ≡ replicate count Ready) }
    {
        Ok(MoveStates {
            states: vec![in alloc; MoveState::Ready; count]?,
            waiting: 0,
        })
    }

    /// What has become of a move.
    pub(crate) fn at(&self, index: u32) -> MoveState
        requires { index < length self.now }
        ensures { result ≡ slice_index_or self.now index Ready }
    {
        self.states[index as usize]
    }

    /// Gives a move another state.
    pub(crate) fn set(&mut self, index: u32, state: MoveState)
        requires { index < length self.old }
        ensures { self.new ≡ slice_set self.old index state }
    {
        self.waiting -= waits(self.states[index as usize]);
        self.waiting += waits(state);
        self.states[index as usize] = state;
    }

    /// Whether any move waits.
    pub(crate) fn some_waits(&self) -> bool
        ensures { result ≡ nat_lt 0 (count_by is_waiting self.now) }
    {
        self.waiting > 0
    }

    /// The states alone.
    pub(crate) fn into_vec(self) -> Vec<MoveState>
        ensures { result.items ≡ self }
    {
        self.states
    }
}

/// 1 for a move that waits, and 0 for any other.
fn waits(state: MoveState) -> usize
    ensures { result ≡ (if is_waiting state then 1 else 0) }
{
    if is_waiting(state) { 1 } else { 0 }
}

/// Whether a move waits.
pub(crate) fn is_waiting(state: MoveState) -> bool
    ensures { result ≡ tables.is_waiting state }
{
    match state {
        MoveState::Ready => false,
        MoveState::Waiting => true,
        MoveState::Coalesced => false,
        MoveState::Constrained => false,
        MoveState::Frozen => false,
    }
}

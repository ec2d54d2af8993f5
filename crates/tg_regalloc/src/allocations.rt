// `Location` has two senses, far apart: what an l-value is evaluated to (`tg_semantics`), and
// where a temporary is after allocation (`tg_regalloc`). Each is its field's word, and no file
// speaks of both. Constructors of two relations may have one name, as `blank` and `comment` of
// two relations on texts.

ghost use Rattle.std.specs.Prelude.{◌≡◌, ◌++◌, ◌∷◌, [], IfOk};

use tg_base::{ListOf, Memory};
use tg_instr::Allocated;
use tg_irc_definition::Round;

/// Where a temporary of the code that was handed in stands: in a colour, by its place among the
/// colours, or in a slot.
#[derive(Clone, Copy)]
pub enum Location {
    Colour(u8),
    Slot(u32),
}

/// The locations of temporaries, in the order of their numbers.
pub type Locations = ListOf<Location>;

/// Rounds, in the order in which they were made.
pub type Rounds = ListOf<Round>;

/// What an allocation gives: the code over registers with its frame, the location of each temporary
/// of the code that was handed in, the rounds that were made, whether all temporaries stand in the
/// frame, and how many slots were added.
#[derive(Drop)]
pub struct Allocation {
    pub done: Allocated,
    pub registers: Locations,
    pub rounds: Rounds,
    pub all_in_frame: bool,
    pub slots: u32,
}

impl Allocation {
    /// The same, after these rounds and a last one.
    pub(crate) fn behind(self, rounds: Vec<Round>, last: Round) -> Result<Allocation, Memory>
        ensures { IfOk result (λ a. a ≡ record self { rounds = rounds.items ++ last ∷ [] }) }
    {
        let mut rounds = rounds;
        rounds.push(last)?;
        let mut allocation = self;
        allocation.rounds = Rounds::from_vec(rounds);
        Ok(allocation)
    }
}

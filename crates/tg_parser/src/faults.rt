use std::alloc::{AllocError, AllocFailed};
use tg_base::{Faulty, Memory};

/// A rule of syntax: S1 for an unexpected token, S2 for a nesting above 256.
#[derive(Clone, Copy, Debug, PartialEq, Eq)]
pub enum SyntaxRule {
    S1,
    S2,
}

/// Why tokens aren't a program: the first fault of syntax, at the first byte of its token, or out
/// of memory.
pub type SyntaxFault = Faulty<SyntaxRule>;

/// Why reading stops.
#[derive(Clone, Copy)]
pub(crate) enum Stop {
    /// The token that begins at this byte can't stand where it stands.
    Wrong(u32),
    /// The list ends too early.
    More,
    Memory,
}

impl From<AllocError> for Stop {
    ghost use Rattle.std.specs.Prelude.{◌≡◌};
    ghost use Rattle.tg_parser.specs.declared.faults.Stop.TheVariants.{Memory};

    ghost from_gives = { λ _ e. e ≡ Memory };

    fn from(_value: AllocError) -> Self {
        Stop::Memory
    }
}

impl<T: Drop> From<AllocFailed<T>> for Stop {
    ghost use Rattle.std.specs.Prelude.{◌≡◌};
    ghost use Rattle.tg_parser.specs.declared.faults.Stop.TheVariants.{Memory};

    ghost from_gives = { λ _ e. e ≡ Memory };

    fn from(_value: AllocFailed<T>) -> Self {
        Stop::Memory
    }
}

impl From<Memory> for Stop {
    ghost use Rattle.std.specs.Prelude.{◌≡◌};
    ghost use Rattle.tg_parser.specs.declared.faults.Stop.TheVariants.{Memory as NoMemory};

    ghost from_gives = { λ _ e. e ≡ NoMemory };

    fn from(_value: Memory) -> Self {
        Stop::Memory
    }
}

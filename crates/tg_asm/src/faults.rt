use std::alloc::{AllocError, AllocFailed};
pub use tg_asm_text::AsmRule;
use tg_base::{Faulty, Memory};

/// Why a text has no image here: its first fault, on its line, counted from 1, or out of memory.
pub type AsmFault = Faulty<AsmRule, u64>;

/// Why an item can't be read.
#[derive(Clone, Copy)]
pub(crate) enum Refused {
    /// A fault of its line.
    Rule(AsmRule),
    /// Out of memory.
    Memory,
}

impl From<Memory> for Refused {
    ghost use Rattle.std.specs.Prelude.{◌≡◌};
    ghost use Rattle.tg_asm.specs.declared.faults.Refused.TheVariants.{Memory};

    ghost from_gives = { λ _ e. e ≡ Memory };

    fn from(_want: Memory) -> Refused {
        Refused::Memory
    }
}

impl From<AllocError> for Refused {
    ghost use Rattle.std.specs.Prelude.{◌≡◌};
    ghost use Rattle.tg_asm.specs.declared.faults.Refused.TheVariants.{Memory};

    ghost from_gives = { λ _ e. e ≡ Memory };

    fn from(_want: AllocError) -> Refused {
        Refused::Memory
    }
}

impl<T: Drop> From<AllocFailed<T>> for Refused {
    ghost use Rattle.std.specs.Prelude.{◌≡◌};
    ghost use Rattle.tg_asm.specs.declared.faults.Refused.TheVariants.{Memory};

    ghost from_gives = { λ _ e. e ≡ Memory };

    fn from(_want: AllocFailed<T>) -> Refused {
        Refused::Memory
    }
}

use crate::faults::Memory;
use std::alloc::{AllocError, AllocFailed};
use thiserror::Error;

/// Why a text is refused: its first fault, by the rule that it breaks and where, as its byte counted
/// from 0; or out of memory, which says nothing of the text.
#[derive(Clone, Copy, Debug, PartialEq, Eq, Error)]
pub enum Faulty<R, At = u32> {
    /// The text's first fault.
    #[error("a fault of the text")]
    Bad { rule: R, at: At },
    /// Out of memory.
    #[error("out of memory")]
    Memory,
}

impl<R, At> From<Memory> for Faulty<R, At> {
    ghost use Rattle.std.specs.Prelude.{◌≡◌};
    ghost use Rattle.tg_base.specs.declared.faulty.Faulty.TheVariants.{Memory as OutOfMemory};

    ghost from_gives = { λ _ e. e ≡ OutOfMemory };

    fn from(_e: Memory) -> Faulty<R, At> {
        Faulty::Memory
    }
}

impl<R, At> From<AllocError> for Faulty<R, At> {
    ghost use Rattle.std.specs.Prelude.{◌≡◌};
    ghost use Rattle.tg_base.specs.declared.faulty.Faulty.TheVariants.{Memory as OutOfMemory};

    ghost from_gives = { λ _ e. e ≡ OutOfMemory };

    fn from(_e: AllocError) -> Faulty<R, At> {
        Faulty::Memory
    }
}

impl<T: Drop, R, At> From<AllocFailed<T>> for Faulty<R, At> {
    ghost use Rattle.std.specs.Prelude.{◌≡◌};
    ghost use Rattle.tg_base.specs.declared.faulty.Faulty.TheVariants.{Memory as OutOfMemory};

    ghost from_gives = { λ _ e. e ≡ OutOfMemory };

    fn from(_e: AllocFailed<T>) -> Faulty<R, At> {
        Faulty::Memory
    }
}

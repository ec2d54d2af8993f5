use crate::faults::Rule;
use tg_base::Faulty;

/// Why a source is refused: its first fault, or out of memory.
pub type Refusal = Faulty<Rule>;

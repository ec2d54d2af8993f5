use tg_base::Faulty;
use tg_syntax::LexRule;

/// Why a text has no tokens here: its first lexical fault, or out of memory.
pub type LexFault = Faulty<LexRule>;

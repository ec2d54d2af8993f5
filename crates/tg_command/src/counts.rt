ghost use Rattle.std.specs.Prelude.{◌≡◌, ◌<◌, ℕ, IfErr, IfNone, IfOk, IfSome, option_map};
ghost use Rattle.tg_command.specs.Counts.{GivesCount, GivesNumber, IsCount};

use crate::CommandFault;
use crate::modes::Mode;

/// The limits of a number: the least and the most, of what it is a multiple, and what stands for it
/// where it is absent.
#[derive(Clone, Copy)]
pub(crate) struct Limits {
    pub(crate) least: u64,
    pub(crate) most: u64,
    pub(crate) unit: u64,
    pub(crate) default: u64,
}

/// `--heap`, in bytes.
pub(crate) const HEAP: Limits = Limits {
    least: 4,
    most: 268_435_456,
    unit: 4,
    default: 16_777_216,
};

/// `--stack`, in bytes.
pub(crate) const STACK: Limits = Limits {
    least: 65_536,
    most: 268_435_456,
    unit: 4,
    default: 67_108_864,
};

/// `--steps`.
pub(crate) const STEPS: Limits = Limits {
    least: 1,
    most: 4_611_686_018_427_387_904,
    unit: 1,
    default: 1_000_000_000,
};

/// How many functions `gen` makes: the number that stands for FILE, which is never absent.
pub(crate) const FUNCTIONS: Limits = Limits {
    least: 1,
    most: 1000,
    unit: 1,
    default: 1,
};

/// The number that the text spells within the limits.
pub(crate) fn count(text: &str, limits: Limits) -> Option<u64>
    requires { 0 < limits.unit }
    ensures some { IfSome result (IsCount text.now limits) }
    ensures none { IfNone result ((n : ℕ) → IsCount text.now limits n → ⊥) }
{
    if text.len() > 20 || text.as_bytes().first() == Some(&b'+') {
        return None;
    }
    match text.parse::<u64>() {
        Ok(n) if limits.least <= n && n <= limits.most && n % limits.unit == 0 => Some(n),
        _ => None,
    }
}

/// The number that an option's value spells within the limits, or the default.
pub(crate) fn count_or_default(text: Option<&str>, limits: Limits) -> Option<u64>
    requires { 0 < limits.unit }
    ensures some { IfSome result (GivesCount limits (option_map (λ t. t.now) text.entry)) }
    ensures none { IfNone result ((n : ℕ)
        → GivesCount limits (option_map (λ t. t.now) text.entry) n → ⊥) }
{
    match text {
        Some(text) => count(text, limits),
        None => Some(limits.default),
    }
}

/// The number that a mode takes FILE for: in `gen` the one that it spells within the limits, else a
/// usage fault; in every other mode 0.
pub(crate) fn number_for(mode: Mode, file: &str) -> Result<u64, CommandFault>
    ensures ok { IfOk result (GivesNumber mode file.now) }
    ensures usage { IfErr result (λ _. (n : ℕ) → GivesNumber mode file.now n → ⊥) }
{
    match mode {
        Mode::Gen => match count(file, FUNCTIONS) {
            Some(number) => Ok(number),
            None => Err(CommandFault::Usage),
        },
        _ => Ok(0),
    }
}

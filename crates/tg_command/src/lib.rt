//! The command line: its words become a mode, a file, sizes and flags, or a usage fault.
//!
//! Its form is `MODE FILE`, with `--heap`, `--stack`, `--steps`, `--watch`, `--fold`, `--bare` and
//! `--explain`.
//! Promises the mode, the file, the three numbers and the flags that the words ask for, or that
//! they ask for none.
#![tactic(auto)]

mod counts;
mod flags;
mod laws;
mod modes;
mod simple;
mod sizes;

ghost use Rattle.std.specs.Prelude.{◌≡◌, IfErr, IfOk, IsErr, map, string_bytes};
ghost use Rattle.tg_command.specs.declared.CommandFault.TheVariants.{Memory};
ghost use Rattle.tg_command.specs.Commands.{Ask, Blames, IsUsageFault, KeepsLimits, asked_of};

use counts::{HEAP, STACK, STEPS, count_or_default, number_for};
pub use flags::Flags;
use flags::flags_fit;
pub use laws::asks_once;
pub use modes::Mode;
use modes::named;
use simple::take_words;
use sizes::sizes_fit;
use std::alloc::{AllocError, Global};

/// What a command line asks for.
#[derive(Debug, Drop)]
pub struct Command {
    pub mode: Mode,
    /// The word FILE as it stands, which may be empty.
    pub file: String,
    /// The number that FILE spells in the mode `gen`, from 1 to 1,000; else 0.
    pub number: u32,
    /// The size of the heap in bytes: a multiple of 4 from 4 to 268,435,456.
    pub heap: u32,
    /// The size of the stack in bytes: a multiple of 4 from 65,536 to 268,435,456.
    pub stack: u32,
    /// The most steps that a run takes: from 1 to 4,611,686,018,427,387,904.
    pub steps: u64,
    /// The flags, which the mode takes.
    pub flags: Flags,
}

/// Why a command line gives no command.
#[derive(Clone, Copy, Debug, PartialEq, Eq)]
pub enum CommandFault {
    /// The words are no command.
    Usage,
    /// Out of memory. It says nothing of the words.
    Memory,
}

impl From<AllocError> for CommandFault {
    ghost from_gives = { λ _ fault. fault ≡ Memory };

    fn from(_error: AllocError) -> CommandFault {
        CommandFault::Memory
    }
}

/// The command that the words ask for. The first word is the program's name, and isn't read.
///
/// A repeated option, an abbreviated one, one without a value and a separate value that begins with
/// `-` are usage faults. After `--` every word is MODE or FILE, and so is a lone `-`. An option
/// that the mode doesn't use is read and tested as any other, but in `show` it is a usage fault. A
/// flag that the mode doesn't take is a usage fault, and so are a repeated flag, one with a value,
/// and `--watch` together with `--bare`.
/// `Usage` is answered only at a usage fault, and a usage fault is never `Ok`; `Memory` may come in
/// place of any answer.
pub fn read_words(alloc: Global, words: &[String]) -> Result<Command, CommandFault>
    ensures ok { IfOk result (λ c. Ask (map string_bytes words.now) (asked_of c)) }
    ensures usage { IfErr result (λ fault. Blames fault (map string_bytes words.now)) }
    ensures fault { IsUsageFault (map string_bytes words.now) → IsErr result }
    ensures limits { IfOk result (λ c. KeepsLimits (asked_of c)) }
{
    let values = take_words(alloc, words)?;
    let mode = named(values.mode).ok_or(CommandFault::Usage)?;
    if !flags_fit(mode, values.flags) {
        return Err(CommandFault::Usage);
    }
    if !sizes_fit(mode, values.heap, values.stack, values.steps) {
        return Err(CommandFault::Usage);
    }
    let number = number_for(mode, values.file)?;
    let heap = count_or_default(values.heap, HEAP).ok_or(CommandFault::Usage)?;
    let stack = count_or_default(values.stack, STACK).ok_or(CommandFault::Usage)?;
    let steps = count_or_default(values.steps, STEPS).ok_or(CommandFault::Usage)?;
    Ok(Command {
        mode,
        file: String::from_str(alloc, values.file)?,
        number: number as u32,
        heap: heap as u32,
        stack: stack as u32,
        steps,
        flags: values.flags,
    })
}

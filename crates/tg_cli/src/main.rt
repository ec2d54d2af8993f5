//! The program `tiger`: its `main`, over the real files and standard streams.
//!
//! The top call works over the real files, standard input, standard output and standard error.
//! Promises to end with the top call's answer. Its adapters are proved to meet their traits, and
//! tell nothing of what the system's files hold.
#![tactic(auto)]

ghost use Rattle.std.specs.Prelude.{◌≡◌, ◌≢◌, ◌⊎◌, MatchResult};
ghost use Rattle.std.specs.IoError.{error_kind};
ghost use Rattle.std.specs.Io.KnownBytes.{Appends};
ghost use Rattle.tg_cli.specs.Ends.{EndsWith, IsAnswered, IsStatus};

mod counted;
mod files;
mod interrupts;
mod readers;
mod writers;

use counted::Counted;
use std::alloc::{AllocError, Global};
use std::env;
use std::io::{self, ErrorKind, Write};
use std::process::ExitCode;
use tg_base::{Sink, write_all};
use tg_driver::{Tools, tiger, usage};
use tg_irc_definition::LeastUse;
use tg_profiler::{Coverage, Profile, Trace, Watcher};

fn main(rt: HostRuntime) -> ExitCode {
    ExitCode::from(status(&rt))
}

/// Reads the words, and asks the top call.
fn status(rt: &HostRuntime) -> u8
    ensures { IsStatus result }
{
    let alloc = rt.alloc();
    let mut err = Counted::new(rt.stderr());
    let words = match env::args(rt) {
        Ok(words) => words.collect::<Vec<String>>(alloc),
        Err(error) => return without_words(&mut err, error),
    };
    let Ok(words) = words else {
        return refusal(&mut err, OUT_OF_MEMORY, 70);
    };
    let Ok(status) = ask(rt, alloc, &words, &mut err) else {
        return refusal(&mut err, OUT_OF_MEMORY, 70);
    };
    status
}

/// Hands the words with the real outside, the policy `LeastUse` and a watcher of each kind to the
/// top call.
fn ask<W: Write>(
    rt: &HostRuntime,
    alloc: Global,
    words: &[String],
    err: &mut Counted<W>,
) -> Result<u8, AllocError>
    ensures { MatchResult result (λ status. IsAnswered err.old err.new status)
        (λ _. err.new ≡ err.old) }
{
    let policy = Box::new(alloc, LeastUse)?;
    let mut watchers: Vec<Box<dyn Watcher>> = Vec::new(alloc);
    watchers.push(Box::new(alloc, Profile::new(alloc))?)?;
    watchers.push(Box::new(alloc, Coverage::new(alloc))?)?;
    watchers.push(Box::new(alloc, Trace::new(alloc))?)?;
    let tools = Tools { policy, watchers };
    let mut shelf = Counted::new(rt);
    let mut input = Counted::new(rt.stdin());
    let mut out = Counted::new(rt.stdout());
    Ok(tiger(alloc, words, &mut shelf, &mut input, &mut out, err, tools))
}

const OUT_OF_MEMORY: &str = "tiger: out of memory\n";

/// Ends a program whose words can't be read: out of memory, or one isn't UTF-8.
fn without_words<E: Sink>(err: &mut E, error: io::Error) -> u8
    ensures memory { error_kind error ≡ ErrorKind.OutOfMemory
        → EndsWith 70 (E.faults err.old) (E.faults err.new) result }
    ensures words { error_kind error ≢ ErrorKind.OutOfMemory
        → EndsWith 64 (E.faults err.old) (E.faults err.new) result }
    ensures either { EndsWith 70 (E.faults err.old) (E.faults err.new) result
        ⊎ EndsWith 64 (E.faults err.old) (E.faults err.new) result }
{
    if error.kind() == ErrorKind::OutOfMemory {
        refusal(err, OUT_OF_MEMORY, 70)
    } else {
        refusal(err, usage(), 64)
    }
}

/// Writes the line of a status, and answers the status, or 74 where the line can't be written.
fn refusal<E: Sink>(err: &mut E, line: &str, status: u8) -> u8
    ensures status { EndsWith status (E.faults err.old) (E.faults err.new) result }
    ensures line { result ≢ 74 → Appends (E.taken err.old) (E.taken err.new) line.now }
{
    match write_all(err, line.as_bytes()) {
        Ok(()) => status,
        Err(_) => 74,
    }
}

//! The program over texts in memory, as the page asks it, with the command line's watchers.
//!
//! Promises that a call is answered as the top call answers it over these objects, by the rule of
//! `LeastUse` and with the reports of the three watchers.
#![tactic(auto)]

ghost use Rattle.std.specs.Prelude.{IfOk, map, string_bytes};
ghost use Rattle.tg_asked.specs.Asked.{IsAsked};

use std::alloc::Global;
use tg_base::{Memory, PlainShelf, PlainSource, RoomSink};
use tg_driver::{Tools, tiger};
use tg_irc_definition::LeastUse;
use tg_profiler::{Coverage, Profile, Trace, Watcher};

/// Answers the words of a command over these objects: its files, its input, its output and what it
/// tells on standard error. The status is that of the program. `Memory` comes where memory runs out
/// before the call; then nothing was read or written.
pub fn ask(
    alloc: Global,
    words: &[String],
    shelf: &mut PlainShelf,
    input: &mut PlainSource,
    out: &mut RoomSink,
    err: &mut RoomSink,
) -> Result<u8, Memory>
    ensures { IfOk result (λ status. IsAsked (map string_bytes words.now)
        (record { files = shelf.old; input = input.old; out = out.old; err = err.old })
        (record { files = shelf.new; input = input.new; out = out.new; err = err.new }) status) }
{
    let policy = Box::new(alloc, LeastUse)?;
    let mut watchers: Vec<Box<dyn Watcher>> = Vec::new(alloc);
    watchers.push(Box::new(alloc, Profile::new(alloc))?)?;
    watchers.push(Box::new(alloc, Coverage::new(alloc))?)?;
    watchers.push(Box::new(alloc, Trace::new(alloc))?)?;
    let tools = Tools { policy, watchers };
    Ok(tiger(alloc, words, shelf, input, out, err, tools))
}

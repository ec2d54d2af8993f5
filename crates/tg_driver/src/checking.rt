// `check` doesn't free the tree, which took a quarter of the instructions of a long source. Who
// calls `tiger` in a process that goes on loses that memory.

ghost use Rattle.std.specs.Prelude.{◌≡◌, ⊤};
ghost use Rattle.tg_syntax.specs.glue.Plain.{plain};
ghost use Rattle.tg_command.specs.Commands.{asked_of};
ghost use Rattle.tg_driver.specs.Calls.{shelf_of};
ghost use Rattle.tg_driver.specs.CheckMode.{IsChecked};
ghost use Rattle.tg_driver.specs.OfFiles.{OfFile};
ghost use Rattle.tg_driver.specs.glue.PrivateCalls.{GivesText, OrMemory};
ghost use Rattle.tg_driver.specs.glue.Found.{IsRefused};
ghost use Rattle.tg_driver.specs.glue.Readings.{HasNamedTree, IsRefusalOf};

use crate::answers::{Answer, unread};
use crate::faults::Fault;
use crate::reading::{LONGEST, NamedProgram, ill_typed, parse_source};
use crate::refusals::Refusal;
use std::alloc::Global;
use std::mem::forget;
use tg_base::{Shelf, place};
use tg_command::Command;
use tg_typecheck::check;

/// The answer of the mode `check`, and the source that was read.
pub(crate) fn answer_check<H: Shelf>(
    alloc: Global,
    command: &Command,
    shelf: &mut H,
    source: &mut Vec<u8>,
) -> Answer
    ensures due { OrMemory ⊤ (OfFile (shelf_of H.files H.faults shelf.old shelf.new)
        (asked_of command.now).file 262145 IsChecked) result }
    ensures source { GivesText (shelf_of H.files H.faults shelf.old shelf.new)
        (asked_of command.now).file result source.new.items }
    ensures files { H.files shelf.new ≡ H.files shelf.old }
{
    match shelf.read_file(alloc, command.file.as_str(), LONGEST + 1) {
        Ok(text) => {
            let answer = check_text(alloc, &text);
            *source = text;
            answer
        }
        Err(fault) => unread(fault),
    }
}

/// The answer of a source that is to be checked. Its tree isn't freed: nothing but the line and the
/// status comes after it, and freeing node by node takes a quarter of the time.
fn check_text(alloc: Global, text: &[u8]) -> Answer
    ensures { OrMemory ⊤ (IsChecked text.now) result }
{
    match parse_source(alloc, text) {
        Ok(source) => {
            let answer = check_program(alloc, text, &source);
            forget(source);
            answer
        }
        Err(refusal) => refused(text, refusal),
    }
}

/// The answer of the tree of a source that is to be checked.
fn check_program(alloc: Global, text: &[u8], source: &NamedProgram) -> Answer
    requires { HasNamedTree text.now source.now.names (plain source.now.program.body) }
    ensures { OrMemory ⊤ (IsChecked text.now) result }
{
    match check(alloc, &source.program, &source.names) {
        Ok(_checked) => Answer::Accepted,
        Err(fault) => refused(text, ill_typed(fault)),
    }
}

/// The answer of a source that is refused.
pub(crate) fn refused(text: &[u8], refusal: Refusal) -> Answer
    requires { IsRefusalOf text.now refusal }
    ensures { IsRefused text.now result }
{
    match refusal {
        Refusal::Bad { rule, at } => Answer::Faulty(Fault {
            rule,
            place: place(text, at),
        }),
        Refusal::Memory => Answer::OutOfMemory,
    }
}

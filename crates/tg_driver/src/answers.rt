ghost use Rattle.std.specs.Prelude.{◌≡◌};
ghost use Rattle.tg_driver.specs.Statuses.{line_of, status_of};
ghost use Rattle.tg_driver.specs.glue.PrivateCalls.{unread_answer, IsFixed};

use crate::endings::end_status;
use crate::faults::Fault;
use tg_asm::AsmRule;
use tg_base::ShelfFault;
use tg_machine_state::RunEnd;

/// What the program answers, before it reports it.
#[derive(Clone, Copy)]
pub(crate) enum Answer {
    /// The words are no command.
    Usage,
    /// The source has a fault.
    Faulty(Fault),
    /// The assembly text has a fault, on this line.
    BadLine(AsmRule, u64),
    /// The assembly text is longer than it may be.
    TooLong,
    /// The file can't be read.
    Unreadable,
    /// Out of memory.
    OutOfMemory,
    /// The source has no fault.
    Accepted,
    /// The output took the text of the source that was due.
    Written,
    /// A write of what is due on the output failed.
    Unwritten,
    /// The machine ended so.
    Finished(RunEnd),
}

/// The line of a faulty command, with its newline.
pub fn usage() -> &'static str
    ensures { result.now ≡ line_of Answer.Usage }
{
    concat!(
        "tiger: usage: tiger MODE FILE [--heap BYTES] [--stack BYTES] [--steps COUNT]",
        " [--watch] [--fold] [--bare]\n"
    )
}

/// The line on the error sink of an answer whose line is a text of its own; an accepted source
/// and a text that was written have none.
pub(crate) fn line(answer: Answer) -> &'static str
    requires { IsFixed answer }
    ensures { result.now ≡ line_of answer }
{
    match answer {
        Answer::Usage => usage(),
        Answer::TooLong => "tiger: line 1: A10 file too long\n",
        Answer::Unreadable => "tiger: cannot read file\n",
        Answer::OutOfMemory => "tiger: out of memory\n",
        Answer::Unwritten => "tiger: read or write failed\n",
        Answer::Accepted | Answer::Written => "",
        Answer::Faulty(_) | Answer::BadLine(_, _) | Answer::Finished(_) => unreachable!(),
    }
}

/// The answer where the file wasn't read.
pub(crate) fn unread(fault: ShelfFault) -> Answer
    ensures { result ≡ unread_answer fault }
{
    match fault {
        ShelfFault::Failed => Answer::Unreadable,
        ShelfFault::Memory => Answer::OutOfMemory,
    }
}

/// The exit status.
pub(crate) fn status(answer: Answer) -> u8
    ensures { result ≡ status_of answer }
{
    match answer {
        Answer::Usage => 64,
        Answer::Faulty(_) | Answer::BadLine(_, _) | Answer::TooLong => 65,
        Answer::Unreadable => 66,
        Answer::OutOfMemory => 70,
        Answer::Unwritten => 74,
        Answer::Accepted | Answer::Written => 0,
        Answer::Finished(end) => end_status(end),
    }
}

// After a run no memory is taken: the line of an end that names a number is written in pieces,
// and so is the summary of `gen`. The contract says only that out of memory is never answered
// after something was read or written; a run that does neither may be answered so.

ghost use Rattle.std.specs.Prelude.{◌≡◌, [], ◌∷◌, ◌++◌, ◌<◌, IfErr, length};
ghost use Rattle.tg_base.specs.Causes.{HasCause};
ghost use Rattle.tg_base.specs.Writes.{TakesAll};
ghost use Rattle.tg_driver.specs.Endings.{
  break_status,
  end_line,
  end_status,
};
ghost use Rattle.tg_profiler.specs.Words.{word_in_hex};
ghost use Rattle.tg_driver.specs.glue.Plainly.{IsPlain, IsOwnBreak};

use tg_base::{Failed, Sink, write_all};
use tg_machine_state::RunEnd;
use tg_profiler::word_in_hex;

/// The exit status of an end of the machine.
pub(crate) fn end_status(end: RunEnd) -> u8
    ensures { result ≡ end_status end }
{
    match end {
        RunEnd::Exit(code) => (code.cast_unsigned() % 256) as u8,
        RunEnd::Break(code) => break_status(code),
        RunEnd::HeapFull => 107,
        RunEnd::StackFull => 108,
        RunEnd::StepLimit => 109,
        RunEnd::Overflow => 110,
        RunEnd::ReadFault | RunEnd::WriteFault => 74,
        _ => 111,
    }
}

/// The exit status of a `break` by its code.
fn break_status(code: u32) -> u8
    ensures { result ≡ break_status code }
{
    match code {
        2 => 101,
        3 => 102,
        7 => 103,
        4 => 104,
        5 => 105,
        6 => 106,
        _ => 111,
    }
}

/// The line of an end that names no number.
fn plain_line(end: RunEnd) -> &'static str
    requires { IsPlain end }
    ensures { result.now ≡ end_line end }
{
    match end {
        RunEnd::Exit(_) => "",
        RunEnd::Break(code) => break_line(code),
        RunEnd::HeapFull => "tiger: heap full\n",
        RunEnd::StackFull => "tiger: stack full\n",
        RunEnd::StepLimit => "tiger: step limit\n",
        RunEnd::Overflow => "tiger: overflow\n",
        RunEnd::ReadFault | RunEnd::WriteFault => "tiger: read or write failed\n",
        _ => unreachable!(),
    }
}

/// The line of a `break` that a compiled program tests for.
fn break_line(code: u32) -> &'static str
    requires { IsOwnBreak code }
    ensures { result.now ≡ end_line (RunEnd.Break code) }
{
    match code {
        2 => "tiger: nil\n",
        3 => "tiger: index out of range\n",
        7 => "tiger: division by zero\n",
        4 => "tiger: chr out of range\n",
        5 => "tiger: substring out of range\n",
        6 => "tiger: negative size\n",
        _ => unreachable!(),
    }
}

/// Writes the line of an end of the machine, piece by piece, so that it takes no memory.
pub(crate) fn write_end<E: Sink>(err: &mut E, end: RunEnd) -> Result<(), Failed>
    ensures line { TakesAll (E.taken err.old) (E.taken err.new) result (end_line end) }
    ensures cause { HasCause (E.faults err.old) (E.faults err.new) result }
    ensures some { IfErr result (λ _. 0 < length (end_line end)) }
    ensures empty { length (end_line end) ≡ 0 → err.new ≡ err.old }
{
    match end {
        RunEnd::Break(code) => write_break(err, code),
        RunEnd::BadAddress(address) => write_word(err, b"tiger: bad address ", address),
        RunEnd::Unaligned(address) => write_word(err, b"tiger: unaligned ", address),
        RunEnd::BadWord(word) => write_word(err, b"tiger: bad word ", word),
        RunEnd::BadService(number) => write_word(err, b"tiger: bad service ", number),
        _ => write_all(err, plain_line(end).as_bytes()),
    }
}

/// Writes the line of a `break`.
fn write_break<E: Sink>(err: &mut E, code: u32) -> Result<(), Failed>
    ensures line { TakesAll (E.taken err.old) (E.taken err.new) result
        (end_line (RunEnd.Break code)) }
    ensures cause { HasCause (E.faults err.old) (E.faults err.new) result }
{
    match code {
        2..=7 => write_all(err, break_line(code).as_bytes()),
        _ => {
            let mut buffer = itoa::Buffer::new();
            write_three(err, b"tiger: break ", buffer.format(code).as_bytes(), b"\n")
        }
    }
}

/// Writes a line that ends with a word.
fn write_word<E: Sink>(err: &mut E, text: &[u8], word: u32) -> Result<(), Failed>
    ensures line { TakesAll (E.taken err.old) (E.taken err.new) result
        (text.now ++ (word_in_hex word ++ 10 ∷ [])) }
    ensures cause { HasCause (E.faults err.old) (E.faults err.new) result }
{
    write_three(err, text, &word_in_hex(word), b"\n")
}

/// Writes three pieces, one after another.
fn write_three<E: Sink>(
    err: &mut E,
    first: &[u8],
    second: &[u8],
    third: &[u8],
) -> Result<(), Failed>
    ensures line { TakesAll (E.taken err.old) (E.taken err.new) result
        (first.now ++ (second.now ++ third.now)) }
    ensures cause { HasCause (E.faults err.old) (E.faults err.new) result }
{
    write_all(err, first)?;
    write_all(err, second)?;
    write_all(err, third)
}

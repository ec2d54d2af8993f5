ghost use Rattle.std.specs.Prelude.{◌≡◌, ◌==◌, IfOk, OnErr, map, string_bytes};
ghost use Rattle.std.specs.List.{slice_split};
ghost use Rattle.tg_page.specs.Answers.{AreWords, IsAnswer, IsAnswered, page_files};

use crate::buffers::put;
use std::alloc::{AllocError, Global};
use std::collections::BTreeMap;
use tg_asked::ask;
use tg_base::{Memory, PlainShelf, PlainSource, RoomSink};

/// What an answer left: the status, and how many bytes of the two buffers.
#[repr(C)]
#[derive(Clone, Copy)]
pub struct Answer {
    pub status: u64,
    pub out: usize,
    pub err: usize,
}

/// Answers the command whose words stand in `line`, a newline between two, over the one file
/// `page.tig` with this text and over this input. What the program writes comes into `out`, and
/// what it tells on standard error into `err`; a write beyond a buffer fails. Status 70 with no
/// bytes says too that memory ran out before the call.
#[unsafe(no_mangle)]
pub extern "C" fn page_ask(
    alloc: Global,
    line: &[u8],
    text: &[u8],
    input: &[u8],
    out: &mut [u8],
    err: &mut [u8],
    answer: &mut Answer,
)
    ensures { IsAnswer line.now text.now input.now out.old out.new err.old err.new answer.new }
{
    *answer = answer_of(alloc, line, text, input, out, err);
}

/// That answer.
fn answer_of(
    alloc: Global,
    line: &[u8],
    text: &[u8],
    input: &[u8],
    out: &mut [u8],
    err: &mut [u8],
) -> Answer
    ensures { IsAnswer line.now text.now input.now out.old out.new err.old err.new result }
{
    match answered(alloc, line, text, input, out, err) {
        Ok(answer) => answer,
        Err(_) => Answer {
            status: 70,
            out: 0,
            err: 0,
        },
    }
}

/// The answer of a call that is made. After `Memory` both buffers are as they were.
fn answered(
    alloc: Global,
    line: &[u8],
    text: &[u8],
    input: &[u8],
    into_out: &mut [u8],
    into_err: &mut [u8],
) -> Result<Answer, Memory>
    ensures answered { IfOk result (λ answer. IsAnswered line.now text.now input.now
        into_out.old into_out.new into_err.old into_err.new answer) }
    ensures out { OnErr result (into_out.new ≡ into_out.old) }
    ensures err { OnErr result (into_err.new ≡ into_err.old) }
{
    let words = words_of(alloc, line)?;
    let mut shelf = shelf_of(alloc, text)?;
    let mut source = PlainSource::new(input.to_vec(alloc)?);
    let mut out = RoomSink::new(alloc, into_out.len(), Vec::new(alloc))?;
    let mut err = RoomSink::new(alloc, into_err.len(), Vec::new(alloc))?;
    let status = ask(alloc, &words, &mut shelf, &mut source, &mut out, &mut err)?;
    Ok(Answer {
        status: u64::from(status),
        out: put(out.taken(), into_out),
        err: put(err.taken(), into_err),
    })
}

/// The shelf of the page's one file.
fn shelf_of(alloc: Global, text: &[u8]) -> Result<PlainShelf, Memory>
    ensures { IfOk result (λ shelf. shelf ≡ page_files text.now) }
{
    let mut files = BTreeMap::new(alloc);
    files.insert(String::from_str(alloc, "page.tig")?, text.to_vec(alloc)?)?;
    Ok(PlainShelf::new(files))
}

/// The words of a line, a newline between two. A line that isn't UTF-8 has none.
fn words_of(alloc: Global, line: &[u8]) -> Result<Vec<String>, Memory>
    ensures { IfOk result (λ words. AreWords line.now (map string_bytes words.items)) }
{
    match std::str::from_utf8(line) {
        Ok(text) => Ok(cut(alloc, text)?),
        Err(_) => Ok(Vec::new(alloc)),
    }
}

/// A text cut at each newline.
fn cut(alloc: Global, text: &str) -> Result<Vec<String>, Memory>
    ensures { IfOk result (λ words. map string_bytes words.items
        ≡ slice_split (λ b. b == 10) text.now) }
{
    let parts = parts_of(alloc, text)?;
    let mut words = Vec::new(alloc);
    for part in &parts {
        words.push(String::from_str(alloc, part)?)?;
    }
    Ok(words)
}

/// The parts of a text between its newlines.
fn parts_of(alloc: Global, text: &str) -> Result<Vec<&str>, AllocError>
    ensures { IfOk result (λ parts. map (λ x. x.now) parts.items
        ≡ slice_split (λ b. b == 10) text.now) }
{
    text.split('\n').collect(alloc)
}

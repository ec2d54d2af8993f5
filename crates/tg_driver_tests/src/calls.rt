use std::alloc::{AllocError, Global};
use std::collections::BTreeMap;
use std::process::Abort;
use std::test::Fail;
use tg_base::{ListSource, MapShelf, RoomSink, Source};
use tg_driver::{Tools, tiger};
use tg_irc_definition::LeastUse;
use tg_profiler::{Coverage, Profile, Trace, Watcher};

/// What the program makes calls on.
#[derive(Clone, Copy, PartialEq, Eq)]
pub(crate) enum Object {
    Shelf,
    Input,
    Out,
    Err,
}

/// What a call is made on: the text of the one file FILE, the input, the room of the output and of
/// the error sink, and the object and the number, from 1, of the call that fails, if one does.
#[derive(Clone, Copy)]
pub(crate) struct Outside<'a> {
    pub(crate) text: &'a [u8],
    pub(crate) input: &'a [u8],
    pub(crate) room: usize,
    pub(crate) err_room: usize,
    pub(crate) failing: Option<(Object, u64)>,
}

impl<'a> Outside<'a> {
    /// Nothing fails, the input is `xyz`, the output has a room of 64 bytes, and the error sink one
    /// of 2,048.
    pub(crate) fn of(text: &'a [u8]) -> Outside<'a> {
        Outside {
            text,
            input: b"xyz",
            room: 64,
            err_room: 2048,
            failing: None,
        }
    }

    /// The same, but that the output has room for all.
    pub(crate) fn in_ample_room(text: &'a [u8]) -> Outside<'a> {
        Outside {
            room: 65536,
            ..Outside::of(text)
        }
    }

    /// The numbers of the calls on an object that fail.
    fn fails(&self, alloc: Global, object: Object) -> Result<Vec<u64>, AllocError> {
        match self.failing {
            Some((failing, at)) if failing == object => [at].as_slice().to_vec(alloc),
            _ => Ok(Vec::new(alloc)),
        }
    }
}

/// What a call left: the status, the bytes of the sinks, how many of the input were taken, and the
/// counts of calls and faults.
#[derive(Drop)]
pub(crate) struct Seen {
    pub(crate) status: u8,
    pub(crate) error: Vec<u8>,
    pub(crate) out: Vec<u8>,
    pub(crate) read: usize,
    pub(crate) files_asked: u64,
    pub(crate) files_failed: u64,
    pub(crate) reads: u64,
    pub(crate) reads_failed: u64,
    pub(crate) writes: u64,
    pub(crate) writes_failed: u64,
    pub(crate) lines: u64,
    pub(crate) lines_failed: u64,
}

impl Seen {
    /// The numbers of calls on the shelf, the input, the output and the error sink.
    pub(crate) fn calls(&self) -> (u64, u64, u64, u64) {
        (self.files_asked, self.reads, self.writes, self.lines)
    }

    /// The counts of faults of the shelf, the input, the output and the error sink.
    pub(crate) fn faults(&self) -> (u64, u64, u64, u64) {
        (
            self.files_failed,
            self.reads_failed,
            self.writes_failed,
            self.lines_failed,
        )
    }
}

/// The words of a line, with a `|` between them.
pub(crate) fn words_of(alloc: Global, line: &str) -> Result<Vec<String>, AllocError> {
    let mut words = Vec::new(alloc);
    for word in line.split('|') {
        words.push(String::from_str(alloc, word)?)?;
    }
    Ok(words)
}

fn sink(alloc: Global, room: usize, fails: Vec<u64>) -> Result<Box<RoomSink>, Fail> {
    match RoomSink::new(alloc, room, fails) {
        Ok(sink) => Ok(Box::new(alloc, sink)?),
        Err(_) => Err(Fail::from("no memory")),
    }
}

/// The watchers that the program hands in, in its order.
pub(crate) fn watchers(alloc: Global) -> Result<Vec<Box<dyn Watcher>>, AllocError> {
    let mut watchers: Vec<Box<dyn Watcher>> = Vec::new(alloc);
    watchers.push(Box::new(alloc, Profile::new(alloc))?)?;
    watchers.push(Box::new(alloc, Coverage::new(alloc))?)?;
    watchers.push(Box::new(alloc, Trace::new(alloc))?)?;
    Ok(watchers)
}

/// The program on the words of a line, with the policy `LeastUse` and these watchers.
pub(crate) fn call(alloc: Global, line: &str, outside: Outside) -> Result<Seen, Fail> {
    let policy = Box::new(alloc, LeastUse)?;
    let watchers = watchers(alloc)?;
    call_with(alloc, line, outside, Tools { policy, watchers })
}

/// The program on the words of a line, with tools.
pub(crate) fn call_with(
    alloc: Global,
    line: &str,
    outside: Outside,
    tools: Tools,
) -> Result<Seen, Fail> {
    let mut objects = Objects::of(alloc, outside)?;
    let words = words_of(alloc, line)?;
    let status = tiger(
        alloc,
        &words,
        &mut *objects.shelf,
        &mut *objects.input,
        &mut *objects.out,
        &mut *objects.err,
        tools,
    );
    objects.seen(alloc, status, outside)
}

/// What the program makes its calls on. In boxes, which a check lets go by a call.
#[derive(Drop)]
struct Objects {
    shelf: Box<MapShelf>,
    input: Box<ListSource>,
    out: Box<RoomSink>,
    err: Box<RoomSink>,
}

impl Objects {
    fn of(alloc: Global, outside: Outside) -> Result<Objects, Fail> {
        let out = outside.fails(alloc, Object::Out)?;
        let err = outside.fails(alloc, Object::Err)?;
        Ok(Objects {
            shelf: shelf(alloc, outside)?,
            input: input(alloc, outside)?,
            out: sink(alloc, outside.room, out)?,
            err: sink(alloc, outside.err_room, err)?,
        })
    }

    /// What a call that ended with this status left.
    fn seen(mut self, alloc: Global, status: u8, outside: Outside) -> Result<Seen, Fail> {
        Ok(Seen {
            status,
            error: self.err.taken().to_vec(alloc)?,
            out: self.out.taken().to_vec(alloc)?,
            files_asked: self.shelf.calls(),
            files_failed: self.shelf.faults(),
            reads: self.input.calls(),
            reads_failed: self.input.faults(),
            writes: self.out.calls(),
            writes_failed: self.out.faults(),
            lines: self.err.calls(),
            lines_failed: self.err.faults(),
            read: outside
                .input
                .len()
                .saturating_sub(left_in(&mut self.input)?),
        })
    }
}

/// The one file FILE.
fn shelf(alloc: Global, outside: Outside) -> Result<Box<MapShelf>, Fail> {
    let mut files = BTreeMap::new(alloc);
    files.insert(
        String::from_str(alloc, "FILE")?,
        outside.text.to_vec(alloc)?,
    )?;
    let fails = outside.fails(alloc, Object::Shelf)?;
    Ok(Box::new(alloc, MapShelf::new(files, fails))?)
}

/// The input.
fn input(alloc: Global, outside: Outside) -> Result<Box<ListSource>, Fail> {
    let bytes = outside.input.to_vec(alloc)?;
    let fails = outside.fails(alloc, Object::Input)?;
    Ok(Box::new(alloc, ListSource::new(bytes, fails))?)
}

/// How many bytes a source has left, at most 64; the next read of it doesn't fail.
fn left_in(input: &mut ListSource) -> Result<usize, Fail> {
    let mut rest = [0; 64];
    match input.read(&mut rest) {
        Ok(left) => Ok(left),
        Err(_) => Err(Fail::from("no read")),
    }
}

/// The status that a row begins with, and what stands after the blank.
pub(crate) fn status_of(row: &str) -> Result<(u8, &str), Fail> {
    let Some((status, rest)) = row.split_once(' ') else {
        return Err(Fail::from("no status"));
    };
    Ok((status.parse::<u8>().ok().ok_or("no number")?, rest))
}

/// The parts of a row before its first `|` and after it.
pub(crate) fn parts_of(row: &str) -> Result<(&str, &str), Fail> {
    let Some(parts) = row.split_once('|') else {
        return Err(Fail::from("a row"));
    };
    Ok(parts)
}

/// A call asks for one file, and has this status, this line on the error sink and this output.
pub(crate) fn is_answered(
    rt: &impl Abort,
    alloc: Global,
    seen: &Seen,
    status: u8,
    line: &str,
    out: &str,
) -> Result<(), Fail> {
    let want = if line.is_empty() {
        String::new(alloc)
    } else {
        format!(in alloc; "tiger: {line}\n")?
    };
    assert_eq!(rt; seen.status, status, "{line}");
    assert_eq!(rt; seen.error.as_slice(), want.as_bytes(), "{line}");
    assert_eq!(rt; seen.out.as_slice(), out.as_bytes(), "{line}");
    assert_eq!(rt; seen.files_asked, 1, "{line}");
    Ok(())
}

/// Each row is a status, a blank, the line on the error sink but for `tiger: ` and the newline, a
/// `|`, the output, a `|`, and the text that a line of words answers so.
pub(crate) fn are_answered(
    rt: &impl Abort,
    alloc: Global,
    words: &str,
    rows: &[&str],
) -> Result<(), Fail> {
    for row in rows {
        let (status, more) = status_of(row)?;
        let (line, more) = parts_of(more)?;
        let (out, text) = parts_of(more)?;
        let seen = call(alloc, words, Outside::of(text.as_bytes()))?;
        is_answered(rt, alloc, &seen, status, line, out)?;
    }
    Ok(())
}

/// A line of words has this status and this line for a text, and leaves input and output alone.
pub(crate) fn answers(
    rt: &impl Abort,
    alloc: Global,
    words: &str,
    text: &[u8],
    status: u8,
    line: &str,
) -> Result<(), Fail> {
    let seen = call(alloc, words, Outside::of(text))?;
    is_answered(rt, alloc, &seen, status, line, "")?;
    assert_eq!(rt; (seen.reads, seen.writes), (0, 0), "{line}");
    Ok(())
}

/// The modes that read sources refuse the text by this line.
pub(crate) fn refused(rt: &impl Abort, alloc: Global, text: &[u8], line: &str) -> Result<(), Fail> {
    answers(rt, alloc, "tiger|check|FILE", text, 65, line)?;
    answers(rt, alloc, "tiger|build|FILE", text, 65, line)?;
    answers(rt, alloc, "tiger|bare|FILE", text, 65, line)?;
    answers(rt, alloc, "tiger|show|FILE", text, 65, line)?;
    answers(rt, alloc, "tiger|run|FILE", text, 65, line)
}

/// `first`, so many times `more`, and `last`.
pub(crate) fn repeated(
    alloc: Global,
    first: &[u8],
    more: &[u8],
    times: usize,
    last: &[u8],
) -> Result<Vec<u8>, AllocError> {
    let mut text = Vec::new(alloc);
    text.extend_from_slice(first)?;
    for _ in 0..times {
        text.extend_from_slice(more)?;
    }
    text.extend_from_slice(last)?;
    Ok(text)
}

/// What a command writes of a source, of which it must be no fault.
pub(crate) fn written(alloc: Global, line: &str, source: &str) -> Result<Vec<u8>, Fail> {
    let outside = Outside {
        room: 1_000_000,
        ..Outside::of(source.as_bytes())
    };
    let seen = call(alloc, line, outside)?;
    if seen.status != 0 {
        return Err(Fail::from("a fault"));
    }
    Ok(seen.out)
}

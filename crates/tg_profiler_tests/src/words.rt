ghost use Rattle.std.specs.Prelude.{◌≡◌, [], All, None, length};
ghost use Rattle.tg_profiler.specs.Telling.{StandForOne};

use std::alloc::{AllocError, Global};
use std::process::Abort;
use std::test::Fail;
use tg_base::{Bytes, PlainSource, RoomSink, Words};
use tg_isa::Image;
use tg_machine::{Machine, RunEnd, load};
use tg_profiler::{Coverage, Profile, Trace, Watcher, begin_all, run_watched, write_reports};

/// A watcher of each kind, in the order in which the program hands them in.
fn watchers(alloc: Global) -> Result<Vec<Box<dyn Watcher>>, AllocError> {
    let mut watchers: Vec<Box<dyn Watcher>> = Vec::new(alloc);
    watchers.push(Box::new(alloc, Profile::new(alloc))?)?;
    watchers.push(Box::new(alloc, Coverage::new(alloc))?)?;
    watchers.push(Box::new(alloc, Trace::new(alloc))?)?;
    Ok(watchers)
}

/// Makes at most 20 steps of a machine before watchers that have begun.
fn run_begun(
    machine: &mut Machine,
    watchers: &mut Vec<Box<dyn Watcher>>,
    input: &mut PlainSource,
    out: &mut RoomSink,
) -> RunEnd
    requires fresh { machine.old.end ≡ None }
    requires begun { All (λ w. stands w [] (length machine.old.state.code)) watchers.old.items }
    ensures { StandForOne (λ w. stands w) watchers.new.items }
{
    run_watched(machine, watchers, input, out, 20)
}

/// Makes at most 20 steps of a machine over a code of so many words. Answers how it ended, and what
/// the watchers told of it.
fn watch(alloc: Global, machine: Machine, code: u32) -> Result<(RunEnd, RoomSink), Fail>
    requires fresh { machine.end ≡ None }
    requires words { length machine.state.code ≡ code }
{
    let mut machine = machine;
    let mut watchers = watchers(alloc)?;
    let mut input = PlainSource::new(Vec::new(alloc));
    let mut out = RoomSink::new(alloc, 0, Vec::new(alloc))?;
    let mut err = RoomSink::new(alloc, 1000, Vec::new(alloc))?;
    begin_all(&mut watchers, code)?;
    let end = run_begun(&mut machine, &mut watchers, &mut input, &mut out);
    match write_reports(&watchers, &mut err) {
        Ok(()) => Ok((end, err)),
        Err(_) => Err(Fail::from("a report was not written")),
    }
}

/// Runs words as code, from the first on.
fn run_words(rt: &impl Abort, alloc: Global, words: &[u32]) -> Result<(RunEnd, RoomSink), Fail> {
    let image = Image {
        code: Words::from_vec(words.to_vec(alloc)?),
        statics: Bytes::from_vec(Vec::new(alloc)),
        entry: 0x0040_0000,
    };
    assert!(rt; words.len() <= 100);
    let machine = load(alloc, &image, 16, 64)?;
    watch(alloc, machine, words.len() as u32)
}

// The words of a code, how it ends, and what the watchers tell. A word outside the table counts
// after all rows of it.
static OUTSIDE: [(&[u32], RunEnd, &[u8]); 3] = [
    (
        &[0xffff_ffff],
        RunEnd::BadWord(0xffff_ffff),
        b"steps 1\nbad 1\ncovered 1 of 1\n0x00400000 0xffffffff\n",
    ),
    (
        &[0, 0x7000_0000, 0],
        RunEnd::BadWord(0x7000_0000),
        b"steps 2\nsll 1\nbad 1\ncovered 2 of 3\n0x00400000 0x00000000\n0x00400004 0x70000000\n",
    ),
    (
        &[0],
        RunEnd::BadAddress(0x0040_0004),
        b"steps 1\nsll 1\ncovered 1 of 1\n0x00400000 0x00000000\n",
    ),
];

#[test]
fn words_outside_the_table_are_bad(rt: HostRuntime) -> Result<(), Fail> {
    let alloc = rt.alloc();
    for (words, end, told) in OUTSIDE {
        let (ended, err) = run_words(&rt, alloc, words)?;
        assert_eq!(rt; ended, end);
        assert_eq!(rt; err.taken(), told);
    }
    Ok(())
}

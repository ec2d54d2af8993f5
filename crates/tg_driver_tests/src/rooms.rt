use crate::calls::{Outside, call};
use crate::programs::queens;
use std::alloc::Global;
use std::process::Abort;
use std::test::Fail;

/// With room for a part of the output alone, a line of words writes its first bytes until the room
/// is full, and answers that a write failed.
fn fills(
    rt: &impl Abort,
    alloc: Global,
    line: &str,
    text: &[u8],
    whole: &[u8],
    room: usize,
) -> Result<(), Fail> {
    let outside = Outside {
        room,
        ..Outside::of(text)
    };
    let seen = call(alloc, line, outside)?;
    assert_eq!(rt; (seen.status, seen.faults()), (74, (0, 0, 1, 0)), "{line}");
    assert_eq!(rt; seen.out.len(), room, "{line}");
    assert!(rt; whole.starts_with(&seen.out), "{line} {room}");
    assert_eq!(rt;
        seen.error.as_slice(),
        b"tiger: read or write failed\n".as_slice()
    );
    Ok(())
}

/// Each room from `first` to below `end` bytes is filled, and the greatest that is too small.
/// Answers the size of the output in ample room, where the status is 0.
fn rooms_are_filled(
    rt: &impl Abort,
    alloc: Global,
    line: &str,
    text: &[u8],
    first: usize,
    end: usize,
) -> Result<usize, Fail> {
    let ample = Outside {
        room: 4_000_000,
        ..Outside::of(text)
    };
    let whole = call(alloc, line, ample)?;
    assert_eq!(rt; (whole.status, whole.faults()), (0, (0, 0, 0, 0)), "{line}");
    for room in 0..whole.out.len() {
        if room >= first && room < end || room + 1 == whole.out.len() {
            fills(rt, alloc, line, text, &whole.out, room)?;
        }
    }
    Ok(whole.out.len())
}

// Words with texts of the file.
static OUTPUTS: [(&str, &str); 3] = [
    ("tiger|build|FILE", "print(\"hello\\n\")"),
    ("tiger|gen|3", ""),
    (
        "tiger|format|FILE",
        "let var a:=007 in print( \"\\065\" );a end",
    ),
];

// Each room: every call compiles anew.
#[test]
fn rooms_for_a_part_of_a_text(rt: HostRuntime) -> Result<(), Fail> {
    let alloc = rt.alloc();
    for (line, text) in OUTPUTS {
        rooms_are_filled(&rt, alloc, line, text.as_bytes(), 0, 10_000)?;
    }
    Ok(())
}

// The steps of a program's allocation are told in 10,119 bytes.
fn rooms_for_steps(rt: &impl Abort, alloc: Global, first: usize, end: usize) -> Result<(), Fail> {
    let text = b"let type r={x:int} var a:r:=nil in print(\"a\"); a.x:=1 end";
    let size = rooms_are_filled(rt, alloc, "tiger|alloc|FILE", text, first, end)?;
    assert_eq!(rt; size, 10_119);
    Ok(())
}

#[test]
fn rooms_for_the_first_steps(rt: HostRuntime) -> Result<(), Fail> {
    rooms_for_steps(&rt, rt.alloc(), 0, 5_000)
}

#[test]
fn rooms_for_the_last_steps(rt: HostRuntime) -> Result<(), Fail> {
    rooms_for_steps(&rt, rt.alloc(), 5_000, 10_119)
}

// The queens write 92 boards of 137 bytes, byte by byte.
#[test]
fn rooms_for_a_part_of_the_boards(rt: HostRuntime) -> Result<(), Fail> {
    let alloc = rt.alloc();
    let size = rooms_are_filled(&rt, alloc, "tiger|run|FILE", &queens(alloc)?, 0, 141)?;
    assert_eq!(rt; size, 12_604);
    Ok(())
}

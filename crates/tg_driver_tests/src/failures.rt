use crate::calls::{Object, Outside, Seen, call};
use std::alloc::Global;
use std::process::Abort;
use std::test::Fail;

static OBJECTS: [Object; 4] = [Object::Shelf, Object::Input, Object::Out, Object::Err];

impl Object {
    /// The number of calls on it.
    fn calls(self, seen: &Seen) -> u64 {
        match self {
            Object::Shelf => seen.files_asked,
            Object::Input => seen.reads,
            Object::Out => seen.writes,
            Object::Err => seen.lines,
        }
    }

    /// The status where a call on it failed, and then the counts of faults of all.
    fn failure(self) -> (u8, (u64, u64, u64, u64)) {
        match self {
            Object::Shelf => (66, (1, 0, 0, 0)),
            Object::Input => (74, (0, 1, 0, 0)),
            Object::Out => (74, (0, 0, 1, 0)),
            Object::Err => (74, (0, 0, 0, 1)),
        }
    }
}

/// In ample room, where this call on an object fails.
fn failing(text: &[u8], object: Object, at: u64) -> Outside {
    Outside {
        failing: Some((object, at)),
        ..Outside::in_ample_room(text)
    }
}

/// Where this call on an object fails, the status is its own and its count alone rose, nothing is
/// called on it again, and the output and what was read are a prefix of what they are undisturbed.
fn fails_at(
    rt: &impl Abort,
    alloc: Global,
    line: &str,
    text: &[u8],
    whole: &Seen,
    object: Object,
    at: u64,
) -> Result<(), Fail> {
    let seen = call(alloc, line, failing(text, object, at))?;
    let (status, faults) = object.failure();
    assert_eq!(rt; (seen.status, seen.faults()), (status, faults), "{line}");
    assert_eq!(rt; object.calls(&seen), at, "{line}");
    assert!(rt; whole.out.starts_with(&seen.out), "{line}");
    assert!(rt;
        seen.read <= whole.read && seen.writes <= whole.writes,
        "{line}"
    );
    Ok(())
}

/// Each call on an object fails once.
fn each_call_fails(
    rt: &impl Abort,
    alloc: Global,
    line: &str,
    text: &[u8],
    whole: &Seen,
    object: Object,
) -> Result<(), Fail> {
    for at in 0..object.calls(whole) {
        fails_at(rt, alloc, line, text, whole, object, at + 1)?;
    }
    Ok(())
}

/// Each call of a line of words fails once, and undisturbed there are so many on each object.
fn every_call_fails(
    rt: &impl Abort,
    alloc: Global,
    line: &str,
    text: &[u8],
    calls: (u64, u64, u64, u64),
) -> Result<(), Fail> {
    let whole = call(alloc, line, Outside::in_ample_room(text))?;
    assert_eq!(rt;
        (whole.calls(), whole.faults()),
        (calls, (0, 0, 0, 0)),
        "{line}"
    );
    for object in OBJECTS {
        each_call_fails(rt, alloc, line, text, &whole, object)?;
    }
    Ok(())
}

// The numbers of calls on shelf, input, output and error sink, the words, and the text of the file.
static LINES: [((u64, u64, u64, u64), &str, &str); 28] = [
    ((1, 0, 0, 0), "tiger|check|FILE", "print(\"a\")"),
    ((1, 0, 0, 1), "tiger|check|FILE", "print(1)"),
    ((1, 0, 1, 0), "tiger|build|FILE", "print(\"a\")"),
    ((1, 0, 0, 1), "tiger|build|FILE", "print("),
    ((1, 0, 1, 0), "tiger|run|FILE", "print(\"a\")"),
    ((1, 0, 0, 1), "tiger|run|FILE", "print(\"a"),
    ((1, 0, 1, 0), "tiger|alloc|FILE", "print(\"a\")"),
    ((1, 0, 0, 1), "tiger|alloc|FILE", "?"),
    ((1, 0, 1, 0), "tiger|bare|FILE", "print(\"a\")"),
    ((1, 0, 0, 1), "tiger|bare|FILE", "print(1)"),
    ((1, 0, 0, 0), "tiger|exec|FILE", "main: jr $ra"),
    ((1, 0, 0, 1), "tiger|exec|FILE", "main: jr $32"),
    ((0, 0, 15, 0), "tiger|gen|3", ""),
    ((0, 0, 0, 1), "tiger|run", ""),
    ((0, 0, 0, 1), "tiger|run|FILE|--heap|6", ""),
    (
        (1, 0, 1, 1),
        "tiger|run|FILE",
        "let type r={x:int} var a:r:=nil in print(\"a\"); a.x:=1 end",
    ),
    (
        (1, 0, 0, 1),
        "tiger|run|FILE",
        "let type t=array of int var a:=t[3] of 7 in a[3]:=0 end",
    ),
    ((1, 0, 0, 1), "tiger|run|FILE", "1/0"),
    ((1, 0, 0, 1), "tiger|run|FILE", "print(chr(256))"),
    (
        (1, 0, 0, 1),
        "tiger|run|FILE",
        "print(substring(\"abc\",2,2))",
    ),
    (
        (1, 0, 0, 1),
        "tiger|run|FILE",
        "let type t=array of int var a:=t[0-1] of 0 in end",
    ),
    (
        (1, 0, 1, 1),
        "tiger|run|FILE|--heap|8",
        "let type r={x:int,y:int} var a:r:=nil \
         in a:=r{x=1,y=2}; print(\"1\"); a:=r{x=3,y=4}; print(\"2\") end",
    ),
    (
        (1, 0, 1, 1),
        "tiger|run|FILE|--stack|65536",
        "let function f()=f() in print(\"x\"); f() end",
    ),
    ((1, 0, 0, 1), "tiger|run|FILE|--steps|1000", "while 1 do ()"),
    (
        (1, 0, 1, 1),
        "tiger|run|FILE",
        "(print(\"a\"); exit(65536*32768))",
    ),
    ((1, 0, 0, 3), "tiger|exec|FILE", "main: lw $t0, 2($zero)"),
    (
        (1, 0, 2, 3),
        "tiger|exec|FILE",
        "main: li $a0, 5\nli $v0, 1\nsyscall\nsyscall\nbreak 9",
    ),
    ((1, 4, 3, 0), "tiger|run|FILE", ECHO),
];

#[test]
fn every_call_fails_once(rt: HostRuntime) -> Result<(), Fail> {
    let alloc = rt.alloc();
    for (calls, line, text) in LINES {
        every_call_fails(&rt, alloc, line, text.as_bytes(), calls)?;
    }
    Ok(())
}

const ECHO: &str = "let var c:=getchar() in while c<>\"\" do (print(c); c:=getchar()) end";

// The text that `run` is called on, the object and the number of the call on it that fails, the
// status and the output.
static FAILURES: [(&str, Object, u64, u8, &str); 4] = [
    (ECHO, Object::Input, 2, 74, "x"),
    ("1/0", Object::Err, 1, 74, ""),
    ("1/0", Object::Shelf, 1, 66, ""),
    ("a=b=c", Object::Err, 1, 74, ""),
];

#[test]
fn an_object_fails(rt: HostRuntime) -> Result<(), Fail> {
    let alloc = rt.alloc();
    for (text, object, at, status, out) in FAILURES {
        let outside = failing(text.as_bytes(), object, at);
        let seen = call(alloc, "tiger|run|FILE", outside)?;
        assert_eq!(rt; seen.status, status, "{text}");
        assert_eq!(rt; seen.out.as_slice(), out.as_bytes(), "{text}");
    }
    Ok(())
}

// Each character is written before the next is read.
#[test]
fn a_failed_read_is_the_last_call_but_its_line(rt: HostRuntime) -> Result<(), Fail> {
    let alloc = rt.alloc();
    let bytes = b"\0\xffA";
    for at in 0..4 {
        let outside = Outside {
            input: bytes,
            failing: Some((Object::Input, at + 1)),
            ..Outside::of(ECHO.as_bytes())
        };
        let seen = call(alloc, "tiger|run|FILE", outside)?;
        let read = at as usize;
        assert_eq!(rt; (seen.status, seen.reads, seen.writes), (74, at + 1, at));
        assert_eq!(rt; (seen.read, seen.out.as_slice()), (read, &bytes[..read]));
        assert_eq!(rt; seen.faults(), (0, 1, 0, 0));
    }
    Ok(())
}

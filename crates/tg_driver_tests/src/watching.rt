ghost use Rattle.std.specs.Prelude.{◌≡◌, ◌≤◌, ⊤, [], ◌∷◌, codes, length, take};

use crate::calls::{Object, Outside, Seen, call, call_with, watchers};
use std::alloc::Global;
use std::cell::RefCell;
use std::process::Abort;
use std::rc::Rc;
use std::test::Fail;
use tg_base::Memory;
use tg_driver::Tools;
use tg_irc_definition::LeastUse;
use tg_machine::Seen as Fetch;
use tg_profiler::Watcher;

const HI: &str = "main: addiu $v0, $zero, 10\nsyscall";

const LOOP: &str =
    "main: li $t0, 20\nl: addiu $t0, $t0, -1\nbne $t0, $zero, l\nli $v0, 10\nsyscall";

// The words after `tiger|exec|--watch|FILE`, the status, the lines on the error sink with `;`
// between them, and the text.
static REPORTS: [(&str, u8, &str, &str); 6] = [
    (
        "",
        0,
        "steps 2;syscall 1;addiu 1;covered 2 of 2;0x00400000 0x2402000a;0x00400004 0x0000000c",
        "main: addiu $v0, $zero, 10\nsyscall",
    ),
    (
        "",
        0,
        "steps 1;jr 1;covered 1 of 1;0x00400000 0x03e00008",
        "main: jr $ra",
    ),
    (
        "",
        111,
        "steps 1;sll 1;covered 1 of 1;0x00400000 0x00000000;tiger: bad address 0x00400004",
        "main: nop",
    ),
    (
        "",
        102,
        "steps 1;break 1;covered 1 of 1;0x00400000 0x000000cd;tiger: index out of range",
        "main: break 3",
    ),
    (
        "|--steps|5",
        109,
        "steps 5;bne 2;addiu 3;covered 3 of 5;0x00400000 0x24080014;0x00400004 0x2508ffff;\
         0x00400008 0x1500fffe;0x00400004 0x2508ffff;0x00400008 0x1500fffe;tiger: step limit",
        LOOP,
    ),
    (
        "|--steps|1",
        109,
        "steps 1;addiu 1;covered 1 of 5;0x00400000 0x24080014;tiger: step limit",
        LOOP,
    ),
];

/// What the error sink took, with `;` in the place of each newline but the last.
fn joined(alloc: Global, error: &[u8]) -> Result<Vec<u8>, Fail> {
    let mut text = Vec::new(alloc);
    for byte in error {
        text.push(if *byte == b'\n' { b';' } else { *byte })?;
    }
    text.pop();
    Ok(text)
}

#[test]
fn reports_come_before_the_line(rt: HostRuntime) -> Result<(), Fail> {
    let alloc = rt.alloc();
    for (words, status, lines, text) in REPORTS {
        let line = format!(in alloc; "tiger|exec|--watch|FILE{words}")?;
        let seen = call(alloc, line.as_str(), Outside::of(text.as_bytes()))?;
        assert_eq!(rt; seen.status, status, "{text}");
        assert_eq!(rt;
            joined(alloc, &seen.error)?.as_slice(),
            lines.as_bytes(),
            "{text}"
        );
        let plain = format!(in alloc; "tiger|exec|FILE{words}")?;
        let unseen = call(alloc, plain.as_str(), Outside::of(text.as_bytes()))?;
        assert_eq!(rt;
            (unseen.status, unseen.out.as_slice()),
            (status, seen.out.as_slice())
        );
    }
    Ok(())
}

#[test]
fn the_trace_has_the_last_sixteen(rt: HostRuntime) -> Result<(), Fail> {
    let alloc = rt.alloc();
    let seen = call(
        alloc,
        "tiger|exec|FILE|--watch",
        Outside::of(LOOP.as_bytes()),
    )?;
    let lines = seen.error.iter().filter(|byte| **byte == b'\n').count();
    assert_eq!(rt; (seen.status, lines), (0, 21));
    assert!(rt;
        seen.error.starts_with(
            b"steps 43\nsyscall 1\nbne 20\naddiu 22\ncovered 5 of 5\n0x00400004 0x2508ffff\n",
        )
    );
    assert!(rt;
        seen.error
            .ends_with(b"\n0x0040000c 0x2402000a\n0x00400010 0x0000000c\n")
    );
    Ok(())
}

/// A watcher that tells each place that it sees, and whose report has two lines.
#[derive(Drop)]
struct Placing {
    places: Rc<RefCell<Vec<u32>>>,
}

/// Puts a line at the front, and answers its length.
fn put(into: &mut [u8; 64], line: &[u8]) -> usize
    requires { length line.now ≤ 64 }
    ensures size { result ≡ length line.now }
    ensures line { take result into.new ≡ line.now }
{
    into[..line.len()].copy_from_slice(line);
    line.len()
}

impl Watcher for Placing {
    ghost stands = { λ _ _ _. ⊤ };

    ghost report = { λ _ _ _. codes "one" ∷ codes "two" ∷ [] };

    fn begin(&mut self, code: u32) -> Result<(), Memory> {
        tell(&self.places, code);
        Ok(())
    }

    fn see(&mut self, seen: &Fetch) {
        tell(&self.places, seen.place);
    }

    fn line(&self, at: u32, into: &mut [u8; 64]) -> Option<usize> {
        match at {
            0 => Some(put(into, b"one")),
            1 => Some(put(into, b"two")),
            _ => None,
        }
    }
}

/// Puts a number after those that were told.
pub(crate) fn tell(told: &RefCell<Vec<u32>>, number: u32) {
    if let Ok(mut told) = told.try_borrow_mut() {
        let _ = told.push(number);
    }
}

/// These numbers were told, and the list of them has one owner again.
pub(crate) fn has_told(
    rt: &impl Abort,
    told: &Rc<RefCell<Vec<u32>>>,
    numbers: &[u32],
) -> Result<(), Fail> {
    assert_eq!(rt; Rc::strong_count(told), 1);
    let Ok(told) = told.try_borrow() else {
        return Err(Fail::from("what was told is in use"));
    };
    assert_eq!(rt; told.as_slice(), numbers);
    Ok(())
}

/// The program on the words of a line and a text, with these watchers.
fn call_watched(
    alloc: Global,
    line: &str,
    text: &str,
    watchers: Vec<Box<dyn Watcher>>,
) -> Result<Seen, Fail> {
    let policy = Box::new(alloc, LeastUse)?;
    let tools = Tools { policy, watchers };
    call_with(alloc, line, Outside::of(text.as_bytes()), tools)
}

// After the call the watcher is dropped.
#[test]
fn a_watcher_of_ones_own_is_told_in_its_place(rt: HostRuntime) -> Result<(), Fail> {
    let alloc = rt.alloc();
    let places = Rc::new(alloc, RefCell::new(Vec::new(alloc)))?;
    let mut all = watchers(alloc)?;
    let own = Placing {
        places: places.clone()?,
    };
    all.push(Box::new(alloc, own)?)?;
    let seen = call_watched(alloc, "tiger|exec|FILE|--watch", HI, all)?;
    assert_eq!(rt; seen.status, 0);
    assert_eq!(rt;
        seen.error.as_slice(),
        b"steps 2\nsyscall 1\naddiu 1\ncovered 2 of 2\n\
          0x00400000 0x2402000a\n0x00400004 0x0000000c\none\ntwo\n"
            .as_slice()
    );
    has_told(&rt, &places, &[2, 0x0040_0000, 0x0040_0004])
}

// Nothing is begun, and the watcher is dropped too.
#[test]
fn without_the_flag_nobody_watches(rt: HostRuntime) -> Result<(), Fail> {
    let alloc = rt.alloc();
    for (line, text) in [("tiger|exec|FILE", HI), ("tiger|run|FILE", "print(\"a\")")] {
        let places = Rc::new(alloc, RefCell::new(Vec::new(alloc)))?;
        let own = Placing {
            places: places.clone()?,
        };
        let mut all: Vec<Box<dyn Watcher>> = Vec::new(alloc);
        all.push(Box::new(alloc, own)?)?;
        let seen = call_watched(alloc, line, text, all)?;
        assert_eq!(rt; (seen.status, seen.error.len()), (0, 0));
        has_told(&rt, &places, &[])?;
    }
    Ok(())
}

#[test]
fn with_no_watchers_nothing_is_told(rt: HostRuntime) -> Result<(), Fail> {
    let alloc = rt.alloc();
    let seen = call_watched(alloc, "tiger|exec|FILE|--watch", HI, Vec::new(alloc))?;
    assert_eq!(rt; (seen.status, seen.error.len()), (0, 0));
    Ok(())
}

/// A watcher that finds no memory.
#[derive(Drop)]
struct Refusing;

impl Watcher for Refusing {
    ghost stands = { λ _ _ _. ⊤ };

    ghost report = { λ _ _ _. [] };

    fn begin(&mut self, _code: u32) -> Result<(), Memory> {
        Err(Memory)
    }

    fn see(&mut self, _seen: &Fetch) {}

    fn line(&self, _at: u32, _into: &mut [u8; 64]) -> Option<usize> {
        None
    }
}

#[test]
fn a_watcher_without_memory_ends_the_call(rt: HostRuntime) -> Result<(), Fail> {
    let alloc = rt.alloc();
    for (line, text) in [
        ("tiger|exec|FILE|--watch", HI),
        ("tiger|run|FILE|--watch", "print(getchar())"),
    ] {
        let mut all = watchers(alloc)?;
        all.push(Box::new(alloc, Refusing)?)?;
        let seen = call_watched(alloc, line, text, all)?;
        assert_eq!(rt; (seen.status, seen.reads, seen.writes), (70, 0, 0));
        assert_eq!(rt; seen.error.as_slice(), b"tiger: out of memory\n".as_slice());
    }
    Ok(())
}

/// Where call number `at` of the error sink fails, it has taken a prefix of the whole.
fn is_cut_off(
    rt: &impl Abort,
    alloc: Global,
    line: &str,
    whole: &Seen,
    at: u64,
) -> Result<(), Fail> {
    let outside = Outside {
        failing: Some((Object::Err, at)),
        ..Outside::of(b"main: break 3")
    };
    let seen = call(alloc, line, outside)?;
    assert_eq!(rt; (seen.status, seen.lines, seen.lines_failed), (74, at, 1));
    assert!(rt; whole.error.starts_with(&seen.error));
    assert!(rt; seen.error.len() < whole.error.len());
    Ok(())
}

#[test]
fn a_failed_write_of_a_report(rt: HostRuntime) -> Result<(), Fail> {
    let alloc = rt.alloc();
    let line = "tiger|exec|FILE|--watch";
    let whole = call(alloc, line, Outside::of(b"main: break 3"))?;
    assert_eq!(rt; (whole.status, whole.lines), (102, 9));
    for at in 1..10 {
        is_cut_off(&rt, alloc, line, &whole, at)?;
    }
    Ok(())
}

// A read or a write that ends the run is fetched too: it is the last of the trace.
#[test]
fn a_failed_read_is_the_last_of_the_trace(rt: HostRuntime) -> Result<(), Fail> {
    let alloc = rt.alloc();
    let text = b"main: li $v0, 12\nsyscall\nj main";
    let outside = Outside {
        failing: Some((Object::Input, 3)),
        ..Outside::of(text)
    };
    let seen = call(alloc, "tiger|exec|FILE|--watch", outside)?;
    assert_eq!(rt; (seen.status, seen.reads, seen.reads_failed), (74, 3, 1));
    assert!(rt;
        seen.error
            .starts_with(b"steps 8\nsyscall 3\nj 2\naddiu 3\ncovered 3 of 3\n")
    );
    assert!(rt;
        seen.error
            .ends_with(b"\n0x00400004 0x0000000c\ntiger: read or write failed\n",)
    );
    Ok(())
}

// Of a source the runtime's code is counted too, and what was read and written is as without.
#[test]
fn a_source_is_watched(rt: HostRuntime) -> Result<(), Fail> {
    let alloc = rt.alloc();
    let text = b"(print(getchar()); print(getchar()))";
    let seen = call(alloc, "tiger|run|--watch|FILE", Outside::of(text))?;
    let unseen = call(alloc, "tiger|run|FILE", Outside::of(text))?;
    assert_eq!(rt; (seen.status, seen.read), (unseen.status, unseen.read));
    assert_eq!(rt; seen.out.as_slice(), unseen.out.as_slice());
    assert!(rt; seen.error.starts_with(b"steps "));
    assert_eq!(rt; unseen.error.len(), 0);
    Ok(())
}

// With a mode that runs nothing on the streams the flag is no word of the command.
#[test]
fn other_modes_are_not_watched(rt: HostRuntime) -> Result<(), Fail> {
    let alloc = rt.alloc();
    for line in [
        "tiger|check|FILE|--watch",
        "tiger|build|FILE|--watch",
        "tiger|alloc|--watch|FILE",
        "tiger|gen|3|--watch",
        "tiger|format|FILE|--watch",
        "tiger|run|FILE|--watch|--watch",
        "tiger|run|FILE|--watch=1",
        "tiger|run|FILE|--watch=true",
        "tiger|run|FILE|--watc",
        "tiger|run|FILE|--watch|1",
        "tiger|run|FILE|-w",
    ] {
        let seen = call(alloc, line, Outside::of(b"print(\"a\")"))?;
        assert_eq!(rt;
            (seen.status, seen.files_asked, seen.writes),
            (64, 0, 0),
            "{line}"
        );
        assert!(rt; seen.error.starts_with(b"tiger: usage: "), "{line}");
        assert!(rt; seen.error.ends_with(b" [--fold] [--bare]\n"), "{line}");
    }
    Ok(())
}

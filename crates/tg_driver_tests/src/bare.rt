ghost use Rattle.std.specs.Prelude.{◌≤◌};

use crate::calls::{Outside, Seen, answers, call, repeated, written};
use std::alloc::{AllocError, Global};
use std::process::Abort;
use std::str;
use std::test::Fail;
use tg_driver::generate;

// Sources that branch, loop, call and stop, and the status and the output of a run.
static SOURCES: [(u8, &str, &str); 8] = [
    (0, "hello\n", "print(\"hello\\n\")"),
    (7, "", "exit(3+4)"),
    (
        45,
        "",
        "let function sum(n:int):int=if n=0 then 0 else n+sum(n-1) in exit(sum(9)) end",
    ),
    (
        10,
        "0123456789",
        "let var n:=0 in while n<10 do (print(chr(48+n)); n:=n+1); exit(n) end",
    ),
    (
        102,
        "a",
        "let type t=array of int var a:=t[2] of 0 in print(\"a\"); a[1+1]:=3 end",
    ),
    (103, "", "exit(7/0)"),
    (
        16,
        "",
        "let function f(i:int):int=let var x:=i function g(k:int)= \
         let function h()=x:=x+k in h(); if k>1 then g(k-1) end in g(3); x end in exit(f(10)) end",
    ),
    (
        120,
        "xyz",
        "let var s:=getchar() in (print(s); print(getchar()); print(getchar()); exit(ord(s))) end",
    ),
];

/// Nothing fails, and the output has room for every text here.
fn wide(text: &[u8]) -> Outside {
    Outside {
        room: 4_000_000,
        ..Outside::of(text)
    }
}

/// What runs of the text that a command writes of a source leave, on the machine of `exec` with
/// these words.
fn run_of(alloc: Global, writes: &str, runs: &str, source: &[u8]) -> Result<Seen, Fail> {
    let text = call(alloc, writes, wide(source))?;
    if text.status != 0 {
        return Err(Fail::from("a fault"));
    }
    call(alloc, runs, wide(&text.out))
}

/// The run of the text with delay slots on the machine that has them.
fn delayed_run(alloc: Global, writes: &str, source: &[u8]) -> Result<Seen, Fail> {
    run_of(alloc, writes, "tiger|exec|FILE|--bare", source)
}

#[test]
fn texts_with_slots_do_what_their_sources_mean(rt: HostRuntime) -> Result<(), Fail> {
    let alloc = rt.alloc();
    for (status, out, source) in SOURCES {
        for writes in ["tiger|bare|FILE", "tiger|bare|FILE|--fold"] {
            let seen = delayed_run(alloc, writes, source.as_bytes())?;
            assert_eq!(rt; seen.status, status, "{source}");
            assert_eq!(rt; seen.out.as_slice(), out.as_bytes(), "{source}");
        }
    }
    Ok(())
}

// Slots are filled, or hold a `nop`: the text isn't that of `build`, nor a folded one that of an
// unfolded one.
#[test]
fn texts_with_slots_are_their_own(rt: HostRuntime) -> Result<(), Fail> {
    let alloc = rt.alloc();
    let source = "if 2*3=6 then print(\"b\") else print(\"a\")";
    let plain = written(alloc, "tiger|build|FILE", source)?;
    let bare = written(alloc, "tiger|bare|FILE", source)?;
    let folded = written(alloc, "tiger|bare|FILE|--fold", source)?;
    assert!(rt; bare.len() > plain.len());
    assert!(rt; folded.len() < bare.len());
    let text = str::from_utf8(&bare).ok().ok_or("no text")?;
    assert!(rt; text.contains("\tsll $zero, $zero, 0\n"));
    Ok(())
}

/// A generated program has the output of `build`'s text by that of `bare`.
fn runs_alike(rt: &impl Abort, alloc: Global, functions: u32) -> Result<(), Fail>
    requires least { 1 ≤ functions }
    requires most { functions ≤ 1000 }
{
    let Ok(source) = generate(alloc, functions) else {
        return Err(Fail::from("no memory"));
    };
    let plain = run_of(alloc, "tiger|build|FILE", "tiger|exec|FILE", &source)?;
    let delayed = delayed_run(alloc, "tiger|bare|FILE", &source)?;
    assert_eq!(rt; (plain.status, delayed.status), (0, 0), "{functions}");
    assert_eq!(rt; plain.out.as_slice(), delayed.out.as_slice(), "{functions}");
    Ok(())
}

// The code of 542 functions reaches all its labels by branches, with slots too; that of 543 has
// them turned round.
#[test]
fn generated_programs_run_with_slots(rt: HostRuntime) -> Result<(), Fail> {
    let alloc = rt.alloc();
    runs_alike(&rt, alloc, 200)?;
    runs_alike(&rt, alloc, 542)?;
    runs_alike(&rt, alloc, 543)
}

#[test]
fn faulty_sources_have_no_text(rt: HostRuntime) -> Result<(), Fail> {
    let alloc = rt.alloc();
    let words = "tiger|bare|FILE";
    answers(&rt, alloc, words, b"a=b=c", 65, "1:4: S1 unexpected token")?;
    answers(&rt, alloc, words, b"\n ?", 65, "2:2: L1 illegal character")?;
    answers(
        &rt,
        alloc,
        words,
        b"exit(a)",
        65,
        "1:6: T1 unknown variable",
    )
}

// With so many zeros in its body `program` has 16,384 nodes.
const MOST_ZEROS: usize = 4070;

// A program of three functions of 4,096 nodes, a small one, and the body around them, which begins
// with `first` and has so many zeros behind it, a node each.
fn program(alloc: Global, first: &[u8], zeros: usize) -> Result<Vec<u8>, AllocError> {
    let start = b"let var x:=0 function f()=(";
    let sums = repeated(alloc, start, b"x:=x+1;", 681, b"")?;
    let function = repeated(alloc, &sums, b"0;", 8, b"()) in f() end;")?;
    let small = repeated(alloc, start, b"0;", 1, b"()) in f() end;")?;
    let functions = repeated(alloc, first, &function, 3, &small)?;
    repeated(alloc, &functions, b"0;", zeros, b"exit(7))")
}

// The output takes 64 bytes, so a source whose text is written has 74.
#[test]
fn large_programs_have_no_text(rt: HostRuntime) -> Result<(), Fail> {
    let alloc = rt.alloc();
    let largest = program(alloc, b"\n (", MOST_ZEROS)?;
    let small = call(alloc, "tiger|bare|FILE", Outside::of(&largest))?;
    assert_eq!(rt; small.status, 74);
    let large = program(alloc, b"\n (", MOST_ZEROS + 1)?;
    let told = "2:2: T23 program too large for the bare machine";
    answers(&rt, alloc, "tiger|bare|FILE", &large, 65, told)?;
    answers(&rt, alloc, "tiger|bare|FILE|--fold", &large, 65, told)?;
    answers(&rt, alloc, "tiger|bare|FILE|--explain", &large, 65, told)?;
    answers(&rt, alloc, "tiger|check|FILE", &large, 0, "")
}

// Any other fault comes first.
#[test]
fn large_programs_have_other_faults_first(rt: HostRuntime) -> Result<(), Fail> {
    let alloc = rt.alloc();
    let words = "tiger|bare|FILE";
    let ill_typed = program(alloc, b"(a;", MOST_ZEROS + 1)?;
    answers(
        &rt,
        alloc,
        words,
        &ill_typed,
        65,
        "1:2: T1 unknown variable",
    )?;
    let unread = program(alloc, b"(1 1;", MOST_ZEROS + 1)?;
    answers(&rt, alloc, words, &unread, 65, "1:4: S1 unexpected token")
}

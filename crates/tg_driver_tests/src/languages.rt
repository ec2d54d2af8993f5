use crate::calls::{Object, Outside, Seen, are_answered, call, is_answered};
use std::alloc::Global;
use std::process::Abort;
use std::test::Fail;

// A status, a blank, the line on the error sink but for `tiger: ` and the newline, a `|`, the
// output, a `|`, and the source that `run` answers so. The input is `xyz`.
static PROGRAMS: [&str; 36] = [
    "0 |hello\n|print(\"hello\\n\")",
    "101 nil|a|let type r={x:int} var a:r:=nil in print(\"a\"); a.x:=1 end",
    "102 index out of range||let type t=array of int var a:=t[3] of 7 in a[3]:=0 end",
    "102 index out of range||let type t=array of int var a:=t[3] of 7 in a[0-1]:=0 end",
    "103 division by zero||1/0",
    "0 |..|for i:=2147483646 to 2147483647 do print(\".\")",
    "0 |..|for i:=-2147483647-1 to -2147483647 do print(\".\")",
    "0 ||for i:=3 to 2 do print(\".\")",
    "110 overflow||let var m:=-2147483647-1 in if m/(-1)=m then print(\"w\") end",
    "16 ||let function a(n:int):int = let var v:=n function b(k:int) = \
     let function c() = v:=v+k in c(); if k>1 then b(k-1) end in b(3); v end in exit(a(10)) end",
    "109 step limit||while 1 do ()",
    "0 |xyz|let var c:=getchar() in while c<>\"\" do (print(c); c:=getchar()) end",
    "0 |b|if 1 then if 0 then print(\"a\") else print(\"b\")",
    "0 |A\nx|print(\"\\065\\^J\\   \\x\")",
    "3 ||if \"ab\"<\"b\" & concat(\"a\",\"b\")=\"ab\" then exit(size(substring(\"tiger\",1,3)))",
    "104 chr out of range||print(chr(256))",
    "104 chr out of range||print(chr(0-1))",
    "105 substring out of range||print(substring(\"abc\",2,2))",
    "106 negative size||let type t=array of int var a:=t[0-1] of 0 in end",
    "0 |k|(while 1 do exit(1+(break;2)); print(\"k\"))",
    "11 ||let type r={f:int} var a:=r{f=1} function g():int=(a.f:=5; 10) in exit(a.f+g()) end",
    "120 ||let function f(n:int):int=if n=0 then 1 else n*f(n-1) in exit(f(5)) end",
    "15 ||let function f(a:int,b:int,c:int,d:int,e:int):int=a+b+c+d+e in exit(f(1,2,3,4,5)) end",
    "21 ||let function f(a:int,b:int,c:int,d:int,e:int,g:int):int=a+b+c+d+e+g \
     in exit(f(1,2,3,4,5,6)) end",
    "6 ||let var s:=0 in for i:=1 to 3 do s:=s+i; exit(s) end",
    "5 ||let type l={h:int,t:l} var a:=l{h=2,t=l{h=3,t=nil}} in exit(a.h+a.t.h) end",
    "7 ||let type t=array of int type u=array of t var a:=u[2] of t[2] of 3 in a[1][0]:=4; \
     exit(a[0][0]+a[0][1]) end",
    "1 ||let var x:=1 in (let var x:=2 in x end); exit(x) end",
    "0 |no|if not(1) then print(\"yes\") else print(\"no\")",
    "120 ||exit(ord(getchar()))",
    "255 ||exit(ord(\"\"))",
    "108 stack full|x|let function f()=f() in print(\"x\"); f() end",
    "107 heap full||let type l={t:l} var a:l:=nil in while 1 do a:=l{t=a} end",
    "3 ||exit((print(\"\"); flush(); 3))",
    "1 ||let type r={} var a:=r{} var b:=r{} in exit((a=a)&(a<>b)) end",
    "10 ||let var i:=0 in while 1 do (i:=i+1; if i=10 then break); exit(i) end",
];

// With a small stack and few steps, so that those that go on for ever end soon.
static RUN: &str = "tiger|run|FILE|--heap|65536|--stack|65536|--steps|1000000";

#[test]
fn programs_run_as_they_mean(rt: HostRuntime) -> Result<(), Fail> {
    are_answered(&rt, rt.alloc(), RUN, &PROGRAMS)
}

/// The assembly text of a source, by `build` into a sink of so many bytes.
pub(crate) fn built(alloc: Global, text: &[u8], room: usize) -> Result<Seen, Fail> {
    let outside = Outside {
        room,
        ..Outside::of(text)
    };
    call(alloc, "tiger|build|FILE", outside)
}

#[test]
fn what_is_built_runs_alike(rt: HostRuntime) -> Result<(), Fail> {
    let alloc = rt.alloc();
    let seen = built(alloc, b"print(\"hello\\n\")", 1_000_000)?;
    is_answered_with(&rt, &seen, 0)?;
    assert_eq!(rt; (seen.files_asked, seen.reads), (1, 0));
    let ran = call(alloc, "tiger|exec|FILE", Outside::of(&seen.out))?;
    is_answered(&rt, alloc, &ran, 0, "", "hello\n")
}

/// A call has this status, and told nothing.
fn is_answered_with(rt: &impl Abort, seen: &Seen, status: u8) -> Result<(), Fail> {
    assert_eq!(rt; seen.status, status);
    assert_eq!(rt; seen.error.len(), 0);
    Ok(())
}

#[test]
fn outputs_that_fail(rt: HostRuntime) -> Result<(), Fail> {
    let alloc = rt.alloc();
    let failed = "read or write failed";
    let hello = Outside {
        failing: Some((Object::Out, 1)),
        ..Outside::of(b"print(\"hello\\n\")")
    };
    for line in ["tiger|run|FILE", "tiger|build|FILE"] {
        let seen = call(alloc, line, hello)?;
        is_answered(&rt, alloc, &seen, 74, failed, "")?;
        assert_eq!(rt; seen.writes_failed, 1);
    }
    let short = built(alloc, b"print(\"hello\\n\")", 100)?;
    assert_eq!(rt; (short.status, short.out.len()), (74, 100));
    let unread = Outside {
        failing: Some((Object::Input, 2)),
        ..Outside::of(b"(print(getchar()); print(getchar()))")
    };
    let seen = call(alloc, "tiger|run|FILE", unread)?;
    is_answered(&rt, alloc, &seen, 74, failed, "x")
}

// The words of `gen`, the status, the line and the output.
static GENERATED: [(&str, u8, &str, &str); 4] = [
    (
        "tiger|gen|1",
        0,
        "",
        "0\n0\nfunctions 1 source 215 output 4 status 0\n",
    ),
    (
        "tiger|gen|3",
        0,
        "",
        "10\n12\nfunctions 3 source 439 output 6 status 0\n",
    ),
    (
        "tiger|gen|3|--steps|1",
        109,
        "step limit",
        "functions 3 source 439 output 0 status 109\n",
    ),
    (
        "tiger|gen|003|--heap|4",
        107,
        "heap full",
        "functions 3 source 439 output 0 status 107\n",
    ),
];

/// A call of `gen` asks for no file, reads nothing, and has this status, so many bytes on the error
/// sink and this output.
fn generates(rt: &impl Abort, seen: &Seen, status: u8, told: usize, out: &str) -> Result<(), Fail> {
    assert_eq!(rt; seen.status, status, "{out}");
    assert_eq!(rt; seen.out.as_slice(), out.as_bytes(), "{out}");
    assert_eq!(rt; (seen.files_asked, seen.reads), (0, 0));
    assert_eq!(rt; seen.error.len(), told, "{out}");
    Ok(())
}

#[test]
fn generated_programs_run(rt: HostRuntime) -> Result<(), Fail> {
    let alloc = rt.alloc();
    for (words, status, line, out) in GENERATED {
        let seen = call(alloc, words, Outside::of(b""))?;
        let told = if line.is_empty() { 0 } else { line.len() + 8 };
        generates(&rt, &seen, status, told, out)?;
    }
    let full = Outside {
        room: 3,
        ..Outside::of(b"")
    };
    let seen = call(alloc, "tiger|gen|3", full)?;
    generates(&rt, &seen, 74, 28, "10\n")
}

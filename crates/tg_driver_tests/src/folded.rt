use crate::calls::{Outside, are_answered, call, written};
use std::str;
use std::test::Fail;

// A source whose condition is known, and one whose loop is without end.
static KNOWN: &str = "if 2*3=6 then print(\"b\") else print(\"a\")";

static ENDLESS: &str = "while 1 do exit(1+2)";

// A status, a blank, the line on the error sink but for `tiger: ` and the newline, a `|`, the
// output, a `|`, and the source that `run` answers so, folded or not.
static RUNS: [&str; 7] = [
    "0 |b|if 2*3=6 then print(\"b\") else print(\"a\")",
    "3 ||while 1 do exit(1+2)",
    "110 overflow||exit(2147483647+1)",
    "103 division by zero|a|(if 1 then print(\"a\"); if 0 then print(\"b\"); exit(7/0))",
    "56 ||let var a:=5 var b:=a in (b:=b+1; exit(a*10+b)) end",
    "102 index out of range||let type t=array of int var a:=t[2] of 0 in a[1+1]:=3 end",
    "65 1:6: T1 unknown variable||exit(a)",
];

#[test]
fn folded_programs_do_the_same(rt: HostRuntime) -> Result<(), Fail> {
    let alloc = rt.alloc();
    are_answered(&rt, alloc, "tiger|run|FILE", &RUNS)?;
    are_answered(&rt, alloc, "tiger|run|FILE|--fold", &RUNS)
}

// Such rows for sources that call each of their functions, and together each of the runtime's:
// numbers, strings, lists that are sorted, links three deep, loops that a condition leaves, and
// what else is standard.
static BODIES: [&str; 7] = [
    "13 ||exit(2*3+7/2-(-4))",
    "0 |ex\n4|let function number(n:int)=(if n>9 then number(n/10); \
     print(chr(n-n/10*10+ord(\"0\")))) \
     function say(s:string)=(print(s); print(\"\\n\")) \
     in say(if \"a\"<\"b\" & concat(\"a\",\"b\")=\"ab\" \
     then substring(\"text\",1,2) else \"\"); number(size(\"text\")); flush() end",
    "40 ||let type list={first:int,rest:list} \
     function inserted(n:int,l:list):list=if l=nil then list{first=n,rest=nil} \
     else if n<=l.first then list{first=n,rest=l} else (l.rest:=inserted(n,l.rest); l) \
     function in_order(l:list):list=let var done:list:=nil \
     in while l<>nil do (done:=inserted(l.first,done); l:=l.rest); done end \
     var some:list:=nil in for i:=1 to 8 do some:=list{first=i*37-i*i*i,rest=some}; \
     some:=in_order(some); exit(some.first) end",
    "16 ||let function f(i:int):int=let var x:=i function g(k:int)= \
     let function h()=x:=x+k in h(); if k>1 then g(k-1) end in g(3); x end in exit(f(10)) end",
    "0 ||let type ints=array of int var all:=ints[3] of 7 in while 1 do \
     (for i:=0 to (if all[0]=7 & 1<2|0 then 2 else (break; 9)) do all[i]:=all[i]*2+1; \
     while (if all[1]>7 then (break; 1) else 0) do print(getchar()); exit(all[2])) end",
    "15 |x|let type ints=array of int var all:=ints[3] of 7 in while 1 do \
     (for i:=0 to 3-1 do all[i]:=all[i]*2+1; print(getchar()); exit(all[2])) end",
    "1 |ige|(print(substring(concat(\"tiger\",\"hi\"),1,2)); \
     print(chr(ord(\"a\")+size(\"four\"))); flush(); exit(not(0)+not(7)))",
];

#[test]
fn folded_bodies_do_the_same(rt: HostRuntime) -> Result<(), Fail> {
    let alloc = rt.alloc();
    are_answered(&rt, alloc, "tiger|run|FILE", &BODIES)?;
    are_answered(&rt, alloc, "tiger|run|FILE|--fold", &BODIES)?;
    Ok(())
}

/// How many lines of an assembly text begin so, up to the runtime's first function.
fn lines_of_body(text: &[u8], begin: &str) -> Result<usize, Fail> {
    let body = str::from_utf8(text)?
        .lines()
        .take_while(|line| *line != "f0:");
    Ok(
        body.filter(|line| line.strip_prefix(begin).is_some())
            .count(),
    )
}

#[test]
fn what_is_known_is_not_computed(rt: HostRuntime) -> Result<(), Fail> {
    let alloc = rt.alloc();
    let plain = written(alloc, "tiger|build|FILE", KNOWN)?;
    let folded = written(alloc, "tiger|build|FILE|--fold", KNOWN)?;
    assert!(rt; lines_of_body(&plain, "\tmult")? > 0);
    assert_eq!(rt; lines_of_body(&folded, "\tmult")?, 0);
    assert!(rt; lines_of_body(&folded, "")? < lines_of_body(&plain, "")?);
    let folded = written(alloc, "tiger|build|FILE|--fold", ENDLESS)?;
    assert_eq!(rt; lines_of_body(&folded, "\tbeq")?, 0);
    assert_eq!(rt; lines_of_body(&folded, "\taddiu $a0, $zero, 3")?, 1);
    Ok(())
}

// The temporaries of what isn't computed have no place in a listing.
#[test]
fn listings_and_generated_programs_fold(rt: HostRuntime) -> Result<(), Fail> {
    let alloc = rt.alloc();
    let plain = written(alloc, "tiger|alloc|FILE", KNOWN)?;
    let folded = written(alloc, "tiger|alloc|FILE|--fold", KNOWN)?;
    assert!(rt; folded.len() < plain.len());
    let plain = call(alloc, "tiger|gen|3", Outside::of(b""))?;
    let folded = call(alloc, "tiger|gen|3|--fold", Outside::of(b""))?;
    assert_eq!(rt; (folded.status, folded.out), (plain.status, plain.out));
    Ok(())
}

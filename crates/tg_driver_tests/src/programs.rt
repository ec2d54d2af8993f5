use crate::calls::{answers, refused, repeated};
use std::alloc::{AllocError, Global};
use std::test::Fail;

// Texts of programs that have types.
static ACCEPTED: [&str; 36] = [
    "let type a={x:int} type b=a var p:a:=nil var q:b:=nil in p:=q end",
    "let type a=b type b=int var x:a:=1 in x end",
    "let type a={n:b} type b=array of a in end",
    "for i:=0 to 1 do let var i:=0 in i:=2 end",
    "print(\"1\")",
    "size(\"\")",
    "while 1 do let function f()=while 1 do break in f() end",
    "while 1 do while (break;1) do ()",
    "let type r={} var a:r:=nil in end",
    "let function f()=g() function g()=() in end",
    "let var f:=1 function f()=() in f() end",
    "let type r={a:int} var v:=r{a=1} in v.a end",
    "let type t=array of int var v:=t[1] of 2 in v[0] end",
    "let type r={a:int} in r{a=1} end",
    "let type a=int var x:=1 type a=int in end",
    "let function f()=() var x:=1 function f()=() in end",
    "let function f(a:int,b:int)=() in end",
    "let type r={} var v:=r{} in (v=nil;nil<>v) end",
    "\"a\"<\"b\"",
    "let type r={} var v:=if 1 then nil else r{} in v end",
    "if 1 then () else ()",
    "(1;\"\";nil;())",
    "let type r={} function f():r=nil in end",
    "let type int=string var s:int:=\"\" in end",
    "let function print()=() in print() end",
    "let type a=b type b=c type c=int var x:a:=1 in x+1 end",
    "let type a={n:a} var x:=a{n=nil} in x.n.n end",
    "let type a=array of a in end",
    "let function f(n:int):int=if n then g(n-1) else 0 function g(n:int):int=f(n) in f(3) end",
    "for i:=0 to 9 do if i=5 then break",
    "let type r={a:int} var v:r:=nil in if v=nil then () end",
    "let var int:=1 in int end",
    "let type print=int var x:print:=1 in print(\"\") end",
    "let type r={a:int} in if 1 then nil else r{a=1} end",
    "let var x:=1 var x:=\"\" in size(x) end",
    "let type a=int in let type a=string var s:a:=\"\" in s end; let var i:a:=1 in i end end",
];

// Appel's program of the eight queens.
static QUEENS: [&str; 19] = [
    "let var N := 8",
    "type intArray = array of int",
    "var row := intArray [ N ] of 0",
    "var col := intArray [ N ] of 0",
    "var diag1 := intArray [N+N-1] of 0",
    "var diag2 := intArray [N+N-1] of 0",
    "function printboard() =",
    " (for i := 0 to N-1 do",
    "   (for j := 0 to N-1 do print(if col[i]=j then \" O\" else \" .\");",
    "    print(\"\\n\"));",
    "  print(\"\\n\"))",
    "function try(c:int) =",
    " if c=N then printboard()",
    " else for r := 0 to N-1 do",
    "  if row[r]=0 & diag1[r+c]=0 & diag2[r+7-c]=0",
    "  then (row[r]:=1; diag1[r+c]:=1; diag2[r+7-c]:=1; col[c]:=r;",
    "        try(c+1);",
    "        row[r]:=0; diag1[r+c]:=0; diag2[r+7-c]:=0)",
    "in try(0) end",
];

/// The file of the eight queens.
pub(crate) fn queens(alloc: Global) -> Result<Vec<u8>, AllocError> {
    let mut text = Vec::new(alloc);
    for line in QUEENS {
        text.extend_from_slice(line.as_bytes())?;
        text.push(b'\n')?;
    }
    Ok(text)
}

#[test]
fn programs_with_types(rt: HostRuntime) -> Result<(), Fail> {
    let alloc = rt.alloc();
    for text in ACCEPTED {
        answers(&rt, alloc, "tiger|check|FILE", text.as_bytes(), 0, "")?;
    }
    answers(&rt, alloc, "tiger|check|FILE", &queens(alloc)?, 0, "")
}

// So many functions, each but the first declared in the body of another.
#[test]
fn functions_in_one_another(rt: HostRuntime) -> Result<(), Fail> {
    let alloc = rt.alloc();
    let heads = repeated(alloc, b"", b"let function f()=", 32, b"()")?;
    let whole = repeated(alloc, &heads, b" in f() end", 32, b"")?;
    answers(&rt, alloc, "tiger|check|FILE", &whole, 0, "")?;
    let heads = repeated(alloc, b"", b"let function f()=", 33, b"()")?;
    let whole = repeated(alloc, &heads, b" in f() end", 33, b"")?;
    refused(&rt, alloc, &whole, "1:558: T20 functions nested too deep")
}

// A body has 4,096 nodes at most: here the program's, and a function's. The last is a chain as deep
// as may be.
static LONG_PROGRAMS: [(&[u8], &[u8], usize, &[u8]); 3] = [
    (b"(", b"0;", 4094, b"0)"),
    (b"let function f()=(", b"0;", 4094, b"()) in () end"),
    (b"1", b"+1", 256, b""),
];

// Seven functions of 4,096 nodes, and a body of as many around them: a program has 32,768 nodes at
// most.
#[test]
fn programs_as_large_as_may_be(rt: HostRuntime) -> Result<(), Fail> {
    let alloc = rt.alloc();
    let check = "tiger|check|FILE";
    for (first, more, times, last) in LONG_PROGRAMS {
        let text = repeated(alloc, first, more, times, last)?;
        answers(&rt, alloc, check, &text, 0, "")?;
    }
    let body = repeated(alloc, b"let function f()=(", b"0;", 4095, b"()) in () end")?;
    refused(&rt, alloc, &body, "1:14: T21 function too large")?;
    let function = repeated(alloc, b"let function f()=(", b"0;", 4094, b"()) in () end;")?;
    let functions = repeated(alloc, b"(", &function, 7, b"")?;
    let program = repeated(alloc, &functions, b"0;", 4073, b"0)")?;
    answers(&rt, alloc, check, &program, 0, "")?;
    let program = repeated(alloc, &functions, b"0;", 4074, b"0)")?;
    refused(&rt, alloc, &program, "1:1: T22 program too large")
}

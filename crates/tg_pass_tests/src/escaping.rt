use crate::reading::read;
use std::alloc::Global;
use std::test::Fail;
use tg_escape::{escapes, links};
use tg_typecheck::{Checked, check};

// A text, and the bytes at which the variables are declared that escape.
static ESCAPING: [(&str, &[u32]); 9] = [
    (
        "let function a(n:int):int = let var v:=n function b(k:int) = let function c() = v:=v+k \
         in c(); if k>1 then b(k-1) end in b(3); v end in exit(a(10)) end",
        &[36, 52],
    ),
    ("exit(3)", &[]),
    ("let var x:=1 in exit(x) end", &[]),
    (
        "let function f(n:int):int=let function g():int=n in g() end in exit(f(1)) end",
        &[15],
    ),
    ("for j:=0 to 9 do let function f()=exit(j) in f() end", &[4]),
    (
        "let var x:=1 function f():int=let var x:=2 in x end in exit(f()) end",
        &[],
    ),
    (
        "let type t=array of int var i:=1 function f(a:t):int=a[i] in exit(f(t[2] of 0)) end",
        &[28],
    ),
    (
        "let var x:=1 function f()=let function g()=x:=2 in g() end in f() end",
        &[8],
    ),
    (
        "let var x:=1 function f(x:int):int=x in exit(f(x)) end",
        &[],
    ),
];

// The bytes of a text at which the variables are declared that escape.
fn escaping_bytes(alloc: Global, text: &str) -> Result<Vec<u32>, Fail> {
    let source = read(alloc, text)?;
    let checked = check(alloc, &source.program, &source.names)?;
    escaping_in(alloc, &checked)
}

// The bytes at which variables of a program are declared that escape.
fn escaping_in(alloc: Global, checked: &Checked) -> Result<Vec<u32>, Fail> {
    let found = escapes(alloc, checked)?;
    Ok((0..200u32).filter(|at| found.has(*at)).collect(alloc)?)
}

#[test]
fn variables_that_escape(rt: HostRuntime) -> Result<(), Fail> {
    for (text, want) in ESCAPING {
        let bytes = escaping_bytes(rt.alloc(), text)?;
        assert_eq!(rt; bytes.as_slice(), want, "{text}");
    }
    Ok(())
}

// A text, and the bytes at which the functions are declared through whose static links functions
// nested in them go.
static LINKING: [(&str, &[u32]); 8] = [
    ("exit(3)", &[]),
    (
        "let var x:=1 function f()=let function g()=x:=2 in g() end in f() end",
        &[22],
    ),
    (
        "let function f(n:int):int=let function g():int=n in g() end in exit(f(1)) end",
        &[],
    ),
    (
        "let function f()=let function g()=f() in g() end in f() end",
        &[13],
    ),
    (
        "let function f()=let function g()=g() in g() end in f() end",
        &[],
    ),
    (
        "let var x:=1 function f()=let function g()=let function h()=x:=2 in h() end \
         in g() end in f() end",
        &[22, 39],
    ),
    (
        "let function f(n:int)=let function g()=let function h()=exit(n) in h() end \
         in g() end in f(1) end",
        &[35],
    ),
    (
        "let function f()=let function g()=print(\"\") in g() end in f() end",
        &[],
    ),
];

// The bytes of a text at which the functions are declared whose links nested ones go through.
fn linking_bytes(alloc: Global, text: &str) -> Result<Vec<u32>, Fail> {
    let source = read(alloc, text)?;
    let checked = check(alloc, &source.program, &source.names)?;
    linking_in(alloc, &checked)
}

// The bytes at which functions of a program are declared whose links nested ones go through.
fn linking_in(alloc: Global, checked: &Checked) -> Result<Vec<u32>, Fail> {
    let found = links(alloc, checked)?;
    Ok((0..200u32).filter(|at| found.has(*at)).collect(alloc)?)
}

#[test]
fn functions_whose_links_nested_ones_go_through(rt: HostRuntime) -> Result<(), Fail> {
    for (text, want) in LINKING {
        let bytes = linking_bytes(rt.alloc(), text)?;
        assert_eq!(rt; bytes.as_slice(), want, "{text}");
    }
    Ok(())
}

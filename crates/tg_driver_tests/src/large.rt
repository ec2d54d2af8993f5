use crate::calls::{answers, repeated};
use std::alloc::{AllocError, Global};
use std::test::Fail;

// One more is added so many times, six nodes each.
fn sums(alloc: Global, first: &[u8], times: usize, last: &[u8]) -> Result<Vec<u8>, AllocError> {
    repeated(alloc, first, b"x:=x+1;", times, last)
}

// A body of 4,094 nodes is compiled and runs: 681 sums.
#[test]
fn a_body_as_large_as_may_be_runs(rt: HostRuntime) -> Result<(), Fail> {
    let alloc = rt.alloc();
    let text = sums(alloc, b"let var x:=0 in ", 681, b"exit(x-600) end")?;
    answers(&rt, alloc, "tiger|run|FILE", &text, 81, "")
}

// The innermost of 32 functions changes a variable of the program's body, 32 levels out.
#[test]
fn functions_as_deep_as_may_be_run(rt: HostRuntime) -> Result<(), Fail> {
    let alloc = rt.alloc();
    let start = b"let var x:=1 in (";
    let heads = repeated(alloc, start, b"let function f()=", 32, b"x:=x+41")?;
    let text = repeated(alloc, &heads, b" in f() end", 32, b";exit(x)) end")?;
    answers(&rt, alloc, "tiger|run|FILE", &text, 42, "")
}

// A program of 32,768 nodes: seven functions of 4,096 each, and as many in the body around them.
#[test]
fn a_program_as_large_as_may_be_runs(rt: HostRuntime) -> Result<(), Fail> {
    let alloc = rt.alloc();
    let sums = sums(alloc, b"let var x:=0 function f()=(", 681, b"")?;
    let function = repeated(alloc, &sums, b"0;", 8, b"()) in f() end;")?;
    let functions = repeated(alloc, b"(", &function, 7, b"")?;
    let text = repeated(alloc, &functions, b"0;", 4058, b"exit(7))")?;
    answers(&rt, alloc, "tiger|run|FILE", &text, 7, "")
}

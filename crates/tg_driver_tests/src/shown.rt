use crate::calls::{repeated, written};
use std::alloc::Global;
use std::process::Abort;
use std::str;
use std::test::Fail;

// Pieces of what `show` tells, each with the source of which it tells them: an empty program;
// functions by their names and places, in whose labels a group comes before what stands in its
// bodies; variables that escape, with their homes and users; a record; a loop, in which a
// temporary has its variable's name; what is spilled, and the lines of it.
static TOLD: [(&str, &str); 13] = [
    (
        "function 32 main\nvariables\n  level 0\ntree\n  \
         SEQ(EXP(CONST 0), RETURN(CONST 0))\ncanonical\n  RETURN(CONST 0)\nblocks\n  LABEL .0\n    RETURN(CONST 0)\ntraces\n  LABEL .0\n    \
         RETURN(CONST 0)\ninstructions\n",
        "()",
    ),
    (
        "\nfunction 35 h 1:31\nvariables\n  level 2\n  link t0\ntree\n",
        "let function f()=let function h()=() in h() end function g()=() in f();g() end",
    ),
    (
        "\nfunction 34 g 1:58\nvariables\n  level 1\n  link t0\ntree\n",
        "let function f()=let function h()=() in h() end function g()=() in f();g() end",
    ),
    (
        "function 32 main\nvariables\n  level 0\n  variable 1:9 a - slot 0 escapes to g\ntree\n",
        "let var a:=1 function f(n:int):int=let function g():int=a+n in g() end in exit(f(2)) end",
    ),
    (
        "function 33 f 1:23\nvariables\n  level 1\n  link slot 0\n  \
         parameter 1:25 n int slot 1 escapes to g\ntree\n",
        "let var a:=1 function f(n:int):int=let function g():int=a+n in g() end in exit(f(2)) end",
    ),
    (
        "function 34 g 1:49\nvariables\n  level 2\n  link t0\ntree\n  RETURN(\n    BINOP(\n      PLUSTRAP,\n      \
         MEM(BINOP(MINUS, MEM(BINOP(MINUS, TEMP t0, CONST 4)), CONST 4)),\n      \
         MEM(BINOP(MINUS, TEMP t0, CONST 8))))\n",
        "let var a:=1 function f(n:int):int=let function g():int=a+n in g() end in exit(f(2)) end",
    ),
    (
        "SEQ(MOVE(TEMP t1, SERVICE(9, CONST 4)), MOVE(MEM(TEMP t1), CONST 7))",
        "let type r={x:int} var a:=r{x=7} in exit(a.x) end",
    ),
    (
        "\nvariables\n  level 0\n  variable 1:24 a - t0\ntree\n",
        "let type r={x:int} var a:=r{x=7} in exit(a.x) end",
    ),
    (
        "    addiu t0:n, $zero, 0  # defines t0:n  # uses $zero\n",
        "let var n:=0 in while n<9 do n:=n+1 end",
    ),
    (
        "function 32 main\nvariables\n  level 0\n  variable 1:5 i - t0\ntree\n",
        "for i:=1 to 9 do flush()",
    ),
    (
        "traces\n  LABEL .0\n    MOVE(TEMP t0, CONST 0)\n  LABEL .1\n    \
         CJUMP(GE, TEMP t0, CONST 9, .3)\n  LABEL .2\n    \
         MOVE(TEMP t0, BINOP(PLUSTRAP, TEMP t0, CONST 1))\n    JUMP .1\n  LABEL .3\n    \
         RETURN(CONST 0)\ninstructions\n",
        "let var n:=0 in while n<9 do n:=n+1 end",
    ),
    (
        "registers\n  colour t0 $a0\n  colour t1:n $s0\n  colour t2 $v0\n  colour t3 $v0\n  \
         slot t4 1\n  colour t5 $s1\n",
        "let function sum(n:int):int=if n=0 then 0 else n+sum(n-1) in exit(sum(9)) end",
    ),
    (
        "assembly\n  f33:\n  \taddiu $sp, $sp, -8\n  \tlw $zero, 0($sp)\n  \tsw $s0, 0($sp)\n",
        "let function sum(n:int):int=if n=0 then 0 else n+sum(n-1) in exit(sum(9)) end",
    ),
];

/// What a command writes of a source has a piece.
fn tells(
    rt: &impl Abort,
    alloc: Global,
    line: &str,
    source: &str,
    piece: &str,
) -> Result<(), Fail> {
    let shown = written(alloc, line, source)?;
    let text = str::from_utf8(&shown)?;
    assert!(rt; text.find(piece).is_some(), "{piece}");
    Ok(())
}

#[test]
fn stages_are_told(rt: HostRuntime) -> Result<(), Fail> {
    for (piece, source) in TOLD {
        tells(&rt, rt.alloc(), "tiger|show|FILE", source, piece)?;
    }
    Ok(())
}

// Behind the tree stands the folded one, where the words ask for it.
#[test]
fn folded_trees_are_told(rt: HostRuntime) -> Result<(), Fail> {
    let alloc = rt.alloc();
    let folded = "    RETURN(CONST 0))\nfolded\n  SEQ(";
    tells(&rt, alloc, "tiger|show|FILE|--fold", "exit(2+3)", folded)
}

// The innermost of 32 functions goes over as many links to a variable of the program's body.
#[test]
fn many_links_are_told(rt: HostRuntime) -> Result<(), Fail> {
    let alloc = rt.alloc();
    let start = b"let var x:=1 in (";
    let heads = repeated(alloc, start, b"let function f()=", 32, b"x:=x+41")?;
    let text = repeated(alloc, &heads, b" in f() end", 32, b";exit(x)) end")?;
    let source = str::from_utf8(&text)?;
    tells(
        &rt,
        alloc,
        "tiger|show|FILE",
        source,
        "\nfunction 64 f 1:558\nvariables\n  level 32\n  link t0\ntree\n",
    )
}

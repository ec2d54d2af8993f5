use crate::calls::{Object, Outside, answers, call, parts_of, refused, repeated, status_of};
use std::test::Fail;

// The status of a run, a blank, its line but for `tiger: ` and the newline, a `|`, and the source.
static RUNS: [&str; 40] = [
    "44 |exit(300)",
    "255 |exit(-1)",
    "30 |exit(2*-(3+4)+300)",
    "0 |exit(-65536*32768)",
    "5 | exit\t(\r\n 10 - 3 - 2 \x0C) ",
    "16 |exit(46340*46340)",
    "251 |exit(---5)",
    "255 |exit(2147483647)",
    "7 |exit(007)",
    "8 |exit(((8)))",
    "19 |exit(2+3*4-5*(6-7))",
    "65 1:37: S1 unexpected token|/* a */exit/* /* b */ */(9/**/)//**/",
    "9 |/* a */exit/* /* b */ */(9/**/)/**/",
    "65 1:15: S1 unexpected token|exit/**/(1/**/0)",
    "110 overflow|exit(2147483647+1)",
    "110 overflow|exit(-(-2147483647-1))",
    "110 overflow|exit(-2147483647-2)",
    "110 overflow|exit(46341*46341)",
    "110 overflow|exit(65536*65536)",
    "110 overflow|exit((2147483647+1)*0)",
    "0 |exit(1/2)",
    "2 |exit(1+2/2)",
    "103 division by zero|exit(1/0)",
    "65 1:1: T10 wrong number of arguments|exit()",
    "65 1:1: T10 wrong number of arguments|exit(1,2)",
    "65 1:1: T2 unknown function|exits(1)",
    "65 1:1: T2 unknown function|Exit(1)",
    "65 1:1: T2 unknown function|exi(1)",
    "1 |(exit(1))",
    "2 |exit((1;2))",
    "65 1:6: T12 value needed|exit(())",
    "65 1:6: T1 unknown variable|exit(a)",
    "1 |exit(1=1)",
    "1 |exit(1&1)",
    "65 1:6: T6 type mismatch|exit(nil)",
    "65 1:6: T12 value needed|exit(exit(1))",
    "65 1:6: T6 type mismatch|exit(\"1\")",
    "2 |exit(if 1 then 2 else 3)",
    "0 |1",
    "1 |let in exit(1) end",
];

#[test]
fn runs_end_as_they_must(rt: HostRuntime) -> Result<(), Fail> {
    let alloc = rt.alloc();
    for row in RUNS {
        let (status, row) = status_of(row)?;
        let (line, text) = parts_of(row)?;
        answers(&rt, alloc, "tiger|run|FILE", text.as_bytes(), status, line)?;
        if status != 65 {
            answers(&rt, alloc, "tiger|check|FILE", text.as_bytes(), 0, "")?;
        }
    }
    Ok(())
}

// 20 groups of 100 ints are 4019 nodes, and 38 more terms are 76.
#[test]
fn as_long_as_may_be(rt: HostRuntime) -> Result<(), Fail> {
    let alloc = rt.alloc();
    let run = "tiger|run|FILE";
    let long = repeated(alloc, b"exit(1)", b" ", 262137, b"")?;
    answers(&rt, alloc, run, &long, 1, "")?;
    let sum = repeated(alloc, b"exit(1", b"+1", 255, b")")?;
    answers(&rt, alloc, run, &sum, 0, "")?;
    let group = repeated(alloc, b"(1", b"*1", 99, b")")?;
    let more = repeated(alloc, b"+", &group, 1, b"")?;
    let groups = repeated(alloc, &group, &more, 19, b"")?;
    let terms = repeated(alloc, &groups, b"+1", 38, b"")?;
    let whole = repeated(alloc, b"exit(", &terms, 1, b")")?;
    answers(&rt, alloc, run, &whole, 58, "")?;
    let whole = repeated(alloc, b"exit(-", &terms, 1, b")")?;
    refused(&rt, alloc, &whole, "1:1: T21 function too large")
}

#[test]
fn files_and_lines_that_fail(rt: HostRuntime) -> Result<(), Fail> {
    let alloc = rt.alloc();
    let unread = Outside {
        failing: Some((Object::Shelf, 1)),
        ..Outside::of(b"exit(0)")
    };
    for line in [
        "tiger|check|FILE",
        "tiger|build|FILE",
        "tiger|run|FILE",
        "tiger|exec|FILE",
    ] {
        let seen = call(alloc, line, unread)?;
        assert_eq!(rt; seen.status, 66);
        assert_eq!(rt;
            seen.error.as_slice(),
            b"tiger: cannot read file\n".as_slice()
        );
        assert_eq!(rt; (seen.files_asked, seen.files_failed), (1, 1));
    }
    let untold = Outside {
        failing: Some((Object::Err, 1)),
        ..Outside::of(b"exit(1/2")
    };
    for line in [
        "tiger|run",
        "tiger|run|MISSING",
        "tiger|run|FILE",
        "tiger|run|FILE|--steps|1",
    ] {
        let seen = call(alloc, line, untold)?;
        assert_eq!(rt; seen.status, 74);
        assert_eq!(rt; seen.error.len(), 0);
        assert_eq!(rt; seen.lines_failed, 1);
    }
    // after an exit, and for an accepted source, nothing is due there
    let untold = Outside {
        failing: Some((Object::Err, 1)),
        ..Outside::of(b"exit(7)")
    };
    for (line, status) in [("tiger|run|FILE", 7), ("tiger|check|FILE", 0)] {
        let seen = call(alloc, line, untold)?;
        assert_eq!(rt; (seen.status, seen.lines_failed), (status, 0));
    }
    Ok(())
}

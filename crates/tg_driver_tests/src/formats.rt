use crate::calls::{Outside, Seen, answers, are_answered, call, parts_of};
use crate::faults::{GRAMMAR_FAULTS, TOKEN_FAULTS, TYPE_FAULTS};
use std::alloc::Global;
use std::process::Abort;
use std::test::Fail;

static FORMAT: &str = "tiger|format|FILE";

// A status, a blank, the line on the error sink but for `tiger: ` and the newline, a `|`, the
// output, a `|`, and the source that `format` answers so.
static ROWS: [&str; 12] = [
    "0 |let\n  var a := 7\nin\n  print(\"A\");\n  a\nend\n|\
     let var a:=007 in print( \"\\065\" );a end",
    "0 |f(--1, b[2].c)\n|/* x */ f(- -1,b[ 2 ].c)",
    "0 |let\nin\nend\n|let in end",
    "65 1:4: S1 unexpected token||a=b=c",
    "0 |print(\"A\\nx\")\n|print(\"\\065\\^J\\   \\x\")",
    "0 |a[i] := a[i] - -1\n|a[i]:=a[i]- -1",
    "0 |nil <> (-2) * -f()\n|nil<>(-2)*-f()",
    "0 |if a <= -1 then (b;\n  c) else t[2] of 3\n|if a<=-1 then (b;c) else t[2] of 3",
    "0 |f(let\n  in\n  end)\n|f(let in end)",
    "0 |\"\\195\\164\\127\"\n|\"\u{e4}\\127\"",
    "0 |let\n  var a := nil\nin\nend\n|let var a:=nil in end",
    "65 1:1: S1 unexpected token||",
];

#[test]
fn canonical_texts(rt: HostRuntime) -> Result<(), Fail> {
    are_answered(&rt, rt.alloc(), FORMAT, &ROWS)
}

// `format` of a text, with room for what it writes.
fn formatted(alloc: Global, text: &[u8]) -> Result<Seen, Fail> {
    call(alloc, FORMAT, Outside::in_ample_room(text))
}

// Each row after its first `|` is a source that `format` writes, and its own output unchanged.
fn are_kept(rt: &impl Abort, alloc: Global, rows: &[&str]) -> Result<(), Fail> {
    for row in rows {
        let (_, text) = parts_of(row)?;
        let once = formatted(alloc, text.as_bytes())?;
        assert_eq!(rt; once.status, 0, "{text}");
        let again = formatted(alloc, &once.out)?;
        assert_eq!(rt; (again.status, again.out), (0, once.out), "{text}");
    }
    Ok(())
}

// `format` refuses the text of each row by its line.
fn are_refused(rt: &impl Abort, alloc: Global, rows: &[&str]) -> Result<(), Fail> {
    for row in rows {
        let (line, text) = parts_of(row)?;
        answers(rt, alloc, FORMAT, text.as_bytes(), 65, line)?;
    }
    Ok(())
}

#[test]
fn faults_of_types_are_formatted(rt: HostRuntime) -> Result<(), Fail> {
    let alloc = rt.alloc();
    are_refused(&rt, alloc, &TOKEN_FAULTS)?;
    are_refused(&rt, alloc, &GRAMMAR_FAULTS)?;
    are_kept(&rt, alloc, &TYPE_FAULTS)
}

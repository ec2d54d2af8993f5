use crate::calls::{Outside, call, repeated};
use std::alloc::Global;
use std::process::Abort;
use std::rt::HostRuntime;
use std::test::Fail;

// The modes that explain the fault of a source.
static MODES: [&str; 6] = ["check", "build", "run", "alloc", "show", "bare"];

// A source, and what is told of it with `--explain`.
static TOKENS: [(&str, &str); 16] = [
    (
        "?",
        "tiger: 1:1: L1 illegal character\n\
         tiger:   found '?'\n",
    ),
    (
        "exit(1)\n \x0b",
        "tiger: 2:2: L1 illegal character\n\
         tiger:   found byte 11\n",
    ),
    (
        "1 /*/",
        "tiger: 1:3: L2 comment not closed\n\
         tiger:   '/*' of 1:3 is still open\n",
    ),
    (
        "\n print(\"a",
        "tiger: 2:8: L3 string not closed\n\
         tiger:   '\"' of 2:8 is still open\n",
    ),
    (
        "print(\"\\q\")",
        "tiger: 1:8: L4 bad escape\n\
         tiger:   found '\\q'\n",
    ),
    (
        "\"\\39x\"",
        "tiger: 1:2: L4 bad escape\n\
         tiger:   found '\\39x'\n",
    ),
    (
        "\"\\^`\"",
        "tiger: 1:2: L4 bad escape\n\
         tiger:   found '\\^`'\n",
    ),
    (
        "exit(2147483648)",
        "tiger: 1:6: L5 integer too large\n\
         tiger:   found 2147483648\n\
         tiger:   expected at most 2147483647\n",
    ),
    (
        "\"\t\"",
        "tiger: 1:2: L6 control byte in string\n\
         tiger:   found byte 9\n",
    ),
    (
        "",
        "tiger: 1:1: S1 unexpected token\n\
         tiger:   found end of text\n\
         tiger:   expected one of 'break' 'for' 'if' 'let' 'nil' 'while' '(' '-' identifier \
         integer string\n",
    ),
    (
        "let a",
        "tiger: 1:5: S1 unexpected token\n\
         tiger:   found identifier\n\
         tiger:   expected one of 'function' 'in' 'type' 'var'\n\
         tiger:   'let' of 1:1 is still open\n",
    ),
    (
        "(1;\nfor 1 := 0 to 1 do 2",
        "tiger: 2:5: S1 unexpected token\n\
         tiger:   found integer\n\
         tiger:   expected identifier\n\
         tiger:   'for' of 2:1 is still open\n",
    ),
    (
        "if 1 else 2",
        "tiger: 1:6: S1 unexpected token\n\
         tiger:   found 'else'\n\
         tiger:   expected one of 'then' '+' '-' '*' '/' '=' '<>' '<' '<=' '>' '>=' '&' '|'\n\
         tiger:   'if' of 1:1 is still open\n",
    ),
    (
        "let in end \"\"",
        "tiger: 1:12: S1 unexpected token\n\
         tiger:   found string\n\
         tiger:   expected one of '+' '-' '*' '/' '=' '<>' '<' '<=' '>' '>=' '&' '|' end of text\n",
    ),
    (
        "let var x : := 1 in end",
        "tiger: 1:13: S1 unexpected token\n\
         tiger:   found ':='\n\
         tiger:   expected identifier\n\
         tiger:   'let' of 1:1 is still open\n",
    ),
    (
        "let var f := 2 in a[f(1] end",
        "tiger: 1:24: S1 unexpected token\n\
         tiger:   found ']'\n\
         tiger:   expected one of ',' ')' '+' '-' '*' '/' '=' '<>' '<' '<=' '>' '>=' '&' '|'\n\
         tiger:   '(' of 1:22 is still open\n",
    ),
];

// The same of faults of types.
static TYPES: [(&str, &str); 8] = [
    (
        "let\nvar printint := 1 in prinint end",
        "tiger: 2:22: T1 unknown variable\n\
         tiger:   no variable 'prinint'; near: 'printint' of 2:5\n",
    ),
    (
        "prnt(\"a\")",
        "tiger: 1:1: T2 unknown function\n\
         tiger:   no function 'prnt'; near: 'print'\n",
    ),
    (
        "let var a: strin := \"\" in end",
        "tiger: 1:12: T3 unknown type\n\
         tiger:   no type 'strin'; near: 'string'\n",
    ),
    (
        "somewhere",
        "tiger: 1:1: T1 unknown variable\n\
         tiger:   no variable 'somewhere'\n",
    ),
    (
        "let var a := 1 in a() end",
        "tiger: 1:19: T5 variable called\n\
         tiger:   'a' of 1:9 is a variable\n",
    ),
    (
        "for i := 1 to 2 do i := 3",
        "tiger: 1:20: T15 loop variable assigned\n\
         tiger:   'i' of 1:5 is a loop variable\n",
    ),
    (
        "let function f(a: int, b: int, c: int) = () in f(1, 2) end",
        "tiger: 1:48: T10 wrong number of arguments\n\
         tiger:   2 arguments for 3 parameters of 'f' of 1:14\n",
    ),
    (
        "chr()",
        "tiger: 1:1: T10 wrong number of arguments\n\
         tiger:   0 arguments for 1 parameter of 'chr'\n",
    ),
];

/// A mode tells this of a text, with the flag first or last, and leaves the output alone.
fn tells(rt: &impl Abort, alloc: Global, mode: &str, text: &[u8], told: &str) -> Result<(), Fail> {
    let last = format!(in alloc; "tiger|{mode}|FILE|--explain")?;
    let first = format!(in alloc; "tiger|--explain|{mode}|FILE")?;
    for words in [last, first] {
        let seen = call(alloc, words.as_str(), Outside::of(text))?;
        assert_eq!(rt; (seen.status, seen.calls()), (65, (1, 0, 0, 2)), "{told}");
        assert_eq!(rt; seen.error.as_slice(), told.as_bytes(), "{told}");
    }
    Ok(())
}

/// Without the flag a mode tells the first of these lines alone.
fn tells_one(
    rt: &impl Abort,
    alloc: Global,
    mode: &str,
    text: &[u8],
    told: &str,
) -> Result<(), Fail> {
    let words = format!(in alloc; "tiger|{mode}|FILE")?;
    let seen = call(alloc, words.as_str(), Outside::of(text))?;
    let (line, _) = told.split_once('\n').ok_or("no line")?;
    let want = format!(in alloc; "{line}\n")?;
    assert_eq!(rt; (seen.status, seen.calls()), (65, (1, 0, 0, 1)), "{told}");
    assert_eq!(rt; seen.error.as_slice(), want.as_bytes(), "{told}");
    Ok(())
}

/// Each mode tells each of them so.
fn all_tell(rt: &impl Abort, alloc: Global, rows: &[(&str, &str)]) -> Result<(), Fail> {
    for (text, told) in rows {
        for mode in MODES {
            tells(rt, alloc, mode, text.as_bytes(), told)?;
            tells_one(rt, alloc, mode, text.as_bytes(), told)?;
        }
    }
    Ok(())
}

#[test]
fn faults_of_tokens_are_explained(rt: HostRuntime) -> Result<(), Fail> {
    let alloc = rt.alloc();
    all_tell(&rt, alloc, &TOKENS)?;
    for (text, told) in &TOKENS {
        tells(&rt, alloc, "format", text.as_bytes(), told)?;
    }
    Ok(())
}

#[test]
fn faults_of_types_are_explained(rt: HostRuntime) -> Result<(), Fail> {
    let alloc = rt.alloc();
    all_tell(&rt, alloc, &TYPES)
}

#[test]
fn long_source_is_explained(rt: HostRuntime) -> Result<(), Fail> {
    let alloc = rt.alloc();
    let text = repeated(alloc, b"", b" ", 262_146, b"")?;
    let told = "tiger: 1:1: L7 source too long\ntiger:   expected at most 262144 bytes\n";
    tells(&rt, alloc, "check", &text, told)
}

/// What is no fault of a source has nothing behind it.
#[test]
fn other_answers_have_no_explanation(rt: HostRuntime) -> Result<(), Fail> {
    let alloc = rt.alloc();
    let accepted = call(alloc, "tiger|check|FILE|--explain", Outside::of(b"exit(7)"))?;
    assert_eq!(rt; (accepted.status, accepted.calls()), (0, (1, 0, 0, 0)));
    let run = call(alloc, "tiger|run|FILE|--explain", Outside::of(b"exit(7)"))?;
    assert_eq!(rt; (run.status, run.calls()), (7, (1, 0, 0, 0)));
    let missing = call(alloc, "tiger|check|MISSING|--explain", Outside::of(b""))?;
    assert_eq!(rt; (missing.status, missing.lines), (66, 1));
    let untyped = Outside::in_ample_room(b"x");
    let formatted = call(alloc, "tiger|format|FILE|--explain", untyped)?;
    assert_eq!(rt; (formatted.status, formatted.lines), (0, 0));
    Ok(())
}

/// The write of the explanation fails: its count rose, and the fault's line was taken.
#[test]
fn explanation_that_is_not_written_is_a_fault(rt: HostRuntime) -> Result<(), Fail> {
    let alloc = rt.alloc();
    let outside = Outside {
        err_room: 33,
        ..Outside::of(b"?")
    };
    let seen = call(alloc, "tiger|check|FILE|--explain", outside)?;
    assert_eq!(rt; seen.status, 74);
    assert_eq!(rt;
        seen.error.as_slice(),
        b"tiger: 1:1: L1 illegal character\n".as_slice()
    );
    Ok(())
}

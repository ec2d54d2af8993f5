use crate::calls::{Outside, Seen, call, parts_of, status_of, words_of};
use std::alloc::{AllocError, Global};
use std::process::Abort;
use std::test::Fail;
use tg_command::{Command, Mode, read_words};
use tg_driver::usage;

// Command lines, with a `|` between their words, that are usage faults. FILE is there.
static REFUSED: [&str; 104] = [
    "tiger",
    "tiger|run",
    "tiger|FILE",
    "run|FILE",
    "tiger|run FILE",
    "tiger|run|FILE|FILE",
    "tiger|check|FILE|FILE",
    "tiger|RUN|FILE",
    "tiger|runs|FILE",
    "tiger|ru|FILE",
    "tiger||FILE",
    "tiger|builds|FILE",
    "tiger|bares|FILE",
    "tiger|ba|FILE",
    "tiger|bare|FILE|--watch",
    "tiger|bare|FILE|FILE",
    "tiger|gen|0",
    "tiger|gen|1001",
    "tiger|gen|x",
    "tiger|gen|",
    "tiger|gen|+1",
    "tiger|gen|000000000000000000001",
    "tiger|gen|FILE",
    "tiger|execute|FILE",
    "tiger|-|FILE",
    "tiger|run|FILE|--heap",
    "tiger|run|FILE|--heap|",
    "tiger|run|FILE|--heap=",
    "tiger|run|FILE|--heap==8",
    "tiger|run|FILE|--heap|8|--heap|8",
    "tiger|--steps|7|run|FILE|--steps=7",
    "tiger|run|FILE|--heap|8|9",
    "tiger|--heap|run|FILE",
    "tiger|run|FILE|--hea|8",
    "tiger|run|FILE|--HEAP|8",
    "tiger|run|FILE|-heap|8",
    "tiger|check|FILE|--fold",
    "tiger|exec|FILE|--fold",
    "tiger|format|FILE|--fold",
    "tiger|exec|FILE|--explain",
    "tiger|gen|3|--explain",
    "tiger|check|FILE|--explain|--explain",
    "tiger|check|FILE|--explain=1",
    "tiger|check|FILE|--exp",
    "tiger|show|FILE|--watch",
    "tiger|show|FILE|--heap|16777216",
    "tiger|show|FILE|--stack=67108864",
    "tiger|--steps|1|show|FILE",
    "tiger|shows|FILE",
    "tiger|run|FILE|--fold|--fold",
    "tiger|run|FILE|--fold=1",
    "tiger|run|FILE|--fol",
    "tiger|run|FILE|--help",
    "tiger|-h",
    "tiger|run|FILE|--version",
    "tiger|run|--",
    "tiger|run|FILE|--|--heap",
    "tiger|run|FILE|--heap|0",
    "tiger|run|FILE|--heap|3",
    "tiger|run|FILE|--heap|6",
    "tiger|run|FILE|--heap|268435457",
    "tiger|run|FILE|--heap|268435460",
    "tiger|run|FILE|--heap|4294967304",
    "tiger|run|FILE|--heap|-4",
    "tiger|run|FILE|--heap=-4",
    "tiger|run|FILE|--heap|+4",
    "tiger|run|FILE|--heap|0x10",
    "tiger|run|FILE|--heap|1e3",
    "tiger|run|FILE|--heap| 8",
    "tiger|run|FILE|--heap|8 ",
    "tiger|run|FILE|--heap|000000000000000000008",
    "tiger|run|FILE|--heap|18446744073709551620",
    "tiger|run|FILE|--stack|0",
    "tiger|run|FILE|--stack|65532",
    "tiger|run|FILE|--stack|65538",
    "tiger|run|FILE|--stack|268435460",
    "tiger|run|FILE|--steps|0",
    "tiger|run|FILE|--steps|4611686018427387905",
    "tiger|run|FILE|--steps|18446744073709551617",
    "tiger|check|FILE|--heap|6",
    "tiger|check|FILE|--stack|4",
    "tiger|check|FILE|--steps|0",
    "tiger|run|MISSING|--steps|0",
    "tiger|run|FILE|b",
    "tiger|walk|FILE",
    "tiger|Run|FILE",
    "tiger|run|FILE|--heap=8|--heap=12",
    "tiger|run|FILE|--steps|--heap|8",
    "tiger|--heap|8|run",
    "tiger|run|FILE|---heap|8",
    "tiger|run|FILE|--mode|exec",
    "tiger|run|-x|FILE",
    "tiger|--help",
    "tiger|help",
    "tiger|run|FILE|-h",
    "tiger|run|FILE|-V",
    "tiger|run|--|FILE|b",
    "tiger|run|FILE|--heap|1 6",
    "tiger|run|FILE|--heap|1_024",
    "tiger|run|FILE|--heap|8.0",
    "tiger|run|FILE|--heap|٤",
    "tiger|run|FILE|--heap|99999999999999999996",
    "tiger|run|FILE|--stack|65537",
    "tiger|Exec|FILE",
];

// A status, a blank, and a command line that has it, where FILE holds `exit(7)` and the output
// takes 64 bytes.
static LINES: [&str; 49] = [
    "7 tiger|run|FILE",
    "7 |run|FILE",
    "0 tiger|check|FILE",
    "7 tiger|--|run|FILE",
    "7 tiger|run|--|FILE",
    "7 tiger|run|FILE|--",
    "7 tiger|run|FILE|--heap|8",
    "7 tiger|run|FILE|--heap=8",
    "7 tiger|--heap|8|run|FILE",
    "7 tiger|run|--heap=8|FILE",
    "7 tiger|--steps=1000|run|--stack|65536|FILE|--heap=4",
    "7 tiger|run|FILE|--heap|4",
    "7 tiger|run|FILE|--heap|268435456",
    "7 tiger|run|FILE|--heap|00000000000000000008",
    "7 tiger|run|FILE|--stack|65536",
    "7 tiger|run|FILE|--stack|268435456",
    "7 tiger|run|FILE|--steps|4611686018427387904",
    "7 tiger|run|FILE|--steps|00000000000000001000",
    "7 tiger|run|FILE|--steps|1001",
    "7 tiger|run|FILE|--steps|1000",
    "109 tiger|run|FILE|--steps|4",
    "109 tiger|run|FILE|--steps|1",
    "0 tiger|check|FILE|--steps|1",
    "74 tiger|build|FILE|--steps|1",
    "66 tiger|build|MISSING",
    "74 tiger|bare|FILE|--steps|1",
    "74 tiger|bare|FILE|--fold",
    "66 tiger|bare|MISSING",
    "74 tiger|alloc|FILE|--steps|1",
    "66 tiger|alloc|MISSING",
    "74 tiger|show|FILE",
    "74 tiger|show|FILE|--fold",
    "66 tiger|show|MISSING",
    "0 tiger|check|FILE|--heap|4|--stack|65536",
    "0 tiger|--steps|1|check|FILE",
    "66 tiger|run|MISSING",
    "66 tiger|check|MISSING",
    "7 tiger|run|FILE|--fold",
    "7 tiger|--fold|run|FILE|--heap|8",
    "74 tiger|build|FILE|--fold",
    "66 tiger|alloc|MISSING|--fold",
    "0 tiger|check|FILE|--explain",
    "7 tiger|--explain|run|FILE|--fold|--watch",
    "65 tiger|exec|FILE",
    "66 tiger|exec|MISSING",
    "66 tiger|run|",
    "66 tiger|run|run",
    "66 tiger|run|-",
    "66 tiger|run|--|--heap",
];

// The mode, the heap, the stack, the steps and the file that a command line asks for, with blanks
// between them, a `|`, and the line.
static TAKEN: [&str; 28] = [
    "run 16777216 67108864 1000000000 a.tig|tiger|run|a.tig",
    "check 16777216 67108864 1000000000 a.tig|tiger|check|a.tig",
    "exec 16777216 67108864 10 a.s|tiger|exec|a.s|--steps|10",
    "build 16777216 67108864 1000000000 a|tiger|build|a",
    "bare 16777216 67108864 1000000000 a|tiger|bare|a",
    "alloc 16777216 67108864 1000000000 a|tiger|alloc|a",
    "show 16777216 67108864 1000000000 a|tiger|show|a",
    "format 16777216 67108864 1000000000 a|tiger|format|a",
    "gen 16777216 67108864 1000000000 0017|tiger|gen|0017",
    "gen 16777216 67108864 1000000000 1000|tiger|gen|1000",
    "run 16777216 67108864 1000000000 a.s|tiger|run|a.s",
    "run 16777216 67108864 1000000000 a||run|a",
    "run 16777216 67108864 1000000000 run|tiger|run|run",
    "run 16777216 67108864 1000000000 |tiger|run|",
    "run 16777216 67108864 1000000000 a b|tiger|run|a b",
    "run 16777216 67108864 1000000000 -|tiger|run|-",
    "run 16777216 67108864 1000000000 a|tiger|--|run|a",
    "run 16777216 67108864 1000000000 --heap|tiger|run|--|--heap",
    "run 16777216 67108864 1000000000 -h|tiger|run|--|-h",
    "run 16777216 67108864 1000000000 a|tiger|run|a|--",
    "run 8 67108864 1000000000 a|tiger|run|a|--heap|8",
    "run 8 67108864 1000000000 a|tiger|run|a|--heap=8",
    "run 8 67108864 1000000000 a|tiger|--heap|8|run|a",
    "run 8 67108864 1000000000 a|tiger|run|--heap=8|a",
    "check 4 65536 1 a|tiger|--steps=1|check|--stack|65536|a|--heap=4",
    "run 268435456 268435456 4611686018427387904 a|tiger|run|a|--heap|268435456\
     |--stack|268435456|--steps|4611686018427387904",
    "run 12 67108864 7 a|tiger|run|a|--heap|00000000000000000012|--steps|07",
    "check 16777216 67108864 7 a|tiger|check|a|--steps|7",
];

#[test]
fn refused_lines_touch_nothing(rt: HostRuntime) -> Result<(), Fail> {
    let alloc = rt.alloc();
    for line in REFUSED {
        let seen = call(alloc, line, Outside::of(b"exit(7)"))?;
        is_refused(&rt, &seen, line)?;
    }
    Ok(())
}

/// A call told the usage, and asked for, read and wrote nothing.
fn is_refused(rt: &impl Abort, seen: &Seen, line: &str) -> Result<(), Fail> {
    assert_eq!(rt; seen.status, 64, "{line}");
    assert_eq!(rt; seen.error.as_slice(), usage().as_bytes());
    assert_eq!(rt; (seen.files_asked, seen.reads, seen.writes), (0, 0, 0));
    Ok(())
}

#[test]
fn lines_of_words_have_their_statuses(rt: HostRuntime) -> Result<(), Fail> {
    let alloc = rt.alloc();
    for row in LINES {
        let (status, line) = status_of(row)?;
        let seen = call(alloc, line, Outside::of(b"exit(7)"))?;
        assert_eq!(rt; (seen.status, seen.files_asked), (status, 1), "{line}");
    }
    Ok(())
}

/// What a command asks for, in the form of a row.
fn told(alloc: Global, command: &Command) -> Result<String, AllocError> {
    let mode = match command.mode {
        Mode::Check => "check",
        Mode::Build => "build",
        Mode::Run => "run",
        Mode::Exec => "exec",
        Mode::Alloc => "alloc",
        Mode::Show => "show",
        Mode::Gen => "gen",
        Mode::Format => "format",
        Mode::Bare => "bare",
    };
    let file = command.file.as_str();
    let (heap, stack, steps) = (command.heap, command.stack, command.steps);
    format!(in alloc; "{mode} {heap} {stack} {steps} {file}")
}

#[test]
fn good_lines_are_read(rt: HostRuntime) -> Result<(), Fail> {
    let alloc = rt.alloc();
    for row in TAKEN {
        let (asked, line) = parts_of(row)?;
        let words = words_of(alloc, line)?;
        let Ok(command) = read_words(alloc, words.as_slice()) else {
            return Err(Fail::from("a good line"));
        };
        assert_eq!(rt; told(alloc, &command)?.as_str(), asked, "{line}");
    }
    Ok(())
}
